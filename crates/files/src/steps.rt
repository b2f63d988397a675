// The steps of the rule reader: it decides on its own state and the token together.
ghost use Rattle.std.specs.Prelude.{◌≡◌, [], MatchResult};
ghost use Rattle.files.specs.declared.fault.Fault.TheVariants.{OutOfMemory};
ghost use Rattle.files.specs.Scans.{word_of};
ghost use Rattle.files.specs.Steps.{reading_of, fresh, stepped, acted, StepAnswers, Acts, begin_rule, begin_alternative, next_alternative, end_rule, add_name, add_literal, item_added};
ghost use Rattle.files.specs.States.{opened, InAlternative};
ghost use Rattle.files.specs.Faults.{granted};

use crate::fault::{Fault, Span};
use crate::grammar::Grammar;
use crate::item::{Alternative, Item, Label, Rule, decimal_value};
use crate::reader::Reader;
use crate::state::State;
use crate::text::{LiteralText, NameText};
use crate::token::{Spanned, Token};
use std::alloc::Global;

impl Reader {
    #[tactic(auto, using(crate::proofs::Defaults::label_default))]
    pub(crate) fn new(heap: Global) -> Result<Reader, Fault>
        ensures { MatchResult result (λ v. reading_of v ≡ fresh) (λ e. e ≡ OutOfMemory) }
    {
        let grammar = Grammar::new(heap)?;
        Ok(Reader {
            state: State::Outside,
            name: Label::default(),
            first: 0,
            current: Alternative::new(0),
            grammar,
        })
    }

    // Ready for a new file. The four fields begin as in `new`; a struct of the four would stand in each line of the steps.
    #[tactic(auto, using(crate::proofs::Defaults::label_default))]
    pub(crate) fn restart(&mut self)
        ensures { reading_of self.new ≡ fresh }
    {
        self.state = State::Outside;
        self.name = Label::default();
        self.first = 0;
        self.current = Alternative::new(0);
        self.grammar.clear();
    }

    fn begin_rule(&mut self, text: NameText<'_>, at: Span) -> Result<(), Fault>
        ensures { Acts begin_rule text.entry.bytes.now at self.old self.new result }
    {
        if self.grammar.index(text.bytes()).is_some() {
            return Err(Fault::NameTaken(at));
        }
        if self.grammar.rules.len() >= 32 {
            return Err(Fault::NoRoom(at));
        }
        self.name = Label::new(text, at.place);
        self.first = self.grammar.alternatives.len();
        self.state = State::Named;
        Ok(())
    }

    fn begin_alternative(&mut self, at: Span) -> Result<(), Fault>
        requires { opened self.old.state ≡ 1 }
        ensures { Acts begin_alternative [] at self.old self.new result }
    {
        if self.grammar.alternatives.len() >= 64 {
            return Err(Fault::NoRoom(at));
        }
        self.current = Alternative::new(self.grammar.labels.len());
        self.state = State::Items;
        Ok(())
    }

    fn next_alternative(&mut self, at: Span) -> Result<(), Fault>
        requires { opened self.old.state ≡ 1 }
        ensures { Acts next_alternative [] at self.old self.new result }
    {
        if self.grammar.alternatives.len() >= 63 {
            return Err(Fault::NoRoom(at));
        }
        self.grammar.alternatives.push_reserved(self.current);
        self.begin_alternative(at)
    }

    fn end_rule(&mut self)
        requires { InAlternative self.old.state }
        ensures { granted (reading_of self.new) ≡ acted end_rule [] (reading_of self.old) 0 0 }
    {
        self.grammar.alternatives.push_reserved(self.current);
        let count = self.grammar.alternatives.len().saturating_sub(self.first);
        self.grammar.rules.push_reserved(Rule {
            label: self.name,
            first: self.first,
            count,
        });
        self.state = State::Outside;
    }

    // Puts an item behind the last of the current alternative.
    fn add_item(&mut self, item: Item, label: Label, next: State, at: Span) -> Result<(), Fault>
        requires here { InAlternative self.old.state }
        requires next { InAlternative next }
        ensures { StepAnswers result (reading_of self.old) (reading_of self.new) (item_added (reading_of self.old) next label item at.place at.length) }
    {
        if self.current.count >= 6 || self.grammar.labels.len() >= 128 {
            return Err(Fault::NoRoom(at));
        }
        self.grammar.labels.push_reserved(label);
        self.current = self.current.with_item(item);
        self.state = next;
        Ok(())
    }

    // A name that is used, as an item.
    fn add_name(&mut self, text: NameText<'_>, at: Span) -> Result<(), Fault>
        requires { InAlternative self.old.state }
        ensures { Acts add_name text.entry.bytes.now at self.old self.new result }
    {
        let item = Item::Use {
            label: self.grammar.labels.len(),
        };
        self.add_item(item, Label::new(text, at.place), State::Items, at)
    }

    // A literal, as an item of size 1 and cost 1.
    fn add_literal(&mut self, text: LiteralText<'_>, at: Span) -> Result<(), Fault>
        requires { InAlternative self.old.state }
        ensures { Acts add_literal text.entry.bytes.now at self.old self.new result }
    {
        let item = Item::Literal {
            label: self.grammar.labels.len(),
            size: 1,
            cost: 1,
        };
        self.add_item(item, Label::new(text, at.place), State::AfterLiteral, at)
    }

    // Reads one token, or refuses it and stays as it is.
    pub(crate) fn step(&mut self, t: Spanned<'_>) -> Result<(), Fault>
        ensures { StepAnswers result (reading_of self.old) (reading_of self.new) (stepped (reading_of self.old) (word_of t.entry.token) t.entry.at.place t.entry.at.length) }
    {
        let at = t.at;
        match (self.state, t.token) {
            (State::Outside, Token::Name(text)) => self.begin_rule(text, at),
            (State::Named, Token::Equals) => self.begin_alternative(at),
            (State::Items | State::AfterLiteral | State::AfterSize, Token::Bar) =>
                self.next_alternative(at),
            (State::Items | State::AfterLiteral | State::AfterSize, Token::Semicolon) => {
                self.end_rule();
                Ok(())
            }
            (State::Items | State::AfterLiteral | State::AfterSize, Token::Name(text)) =>
                self.add_name(text, at),
            (State::Items | State::AfterLiteral | State::AfterSize, Token::Literal(text)) =>
                self.add_literal(text, at),
            (State::AfterLiteral, Token::Colon) => {
                self.state = State::AfterColon;
                Ok(())
            }
            (State::AfterColon, Token::Digits(run)) => {
                self.current = self.current.with_size(decimal_value(run));
                self.state = State::AfterSize;
                Ok(())
            }
            (State::AfterLiteral | State::AfterSize, Token::At) => {
                self.state = State::AfterAt;
                Ok(())
            }
            (State::AfterAt, Token::Digits(run)) => {
                self.current = self.current.with_cost(decimal_value(run));
                self.state = State::Items;
                Ok(())
            }
            _ => Err(Fault::Unexpected(at)),
        }
    }
}
