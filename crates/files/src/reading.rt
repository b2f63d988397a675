// The reader of files.
ghost use Rattle.std.specs.Prelude.{◌≡◌, true, length, is_err, MatchResult, nat_lt};
ghost use Rattle.files.specs.declared.fault.Fault.TheVariants.{OutOfMemory};
ghost use Rattle.files.specs.Grammars.{Lists, lists_of, no_lists};
ghost use Rattle.files.specs.Faults.{Answer, answer};
ghost use Rattle.files.specs.Files.{resolved_item, resolved_alternative, resolved, closed, ReadsFile, read_file, lists_answer};
ghost use Rattle.files.specs.Meanings.{Means};

use crate::draft::Draft;
use crate::fault::{Fault, Span};
use crate::grammar::Grammar;
use crate::item::{Alternative, Item};
use crate::lexer::Lexer;
use crate::reader::Reader;
use crate::state::State;
use std::alloc::Global;

// Whether the file is longer than a family file may be.
fn too_long(file: &[u8]) -> bool
    ensures { result ≡ nat_lt 16384 (length file.now) }
{
    file.len() > 16384
}

impl Grammar {
    // The item with its name's number in the place of its label.
    fn resolve(&self, item: Item) -> Result<Item, Fault>
        ensures { answer (λ i. i) result ≡ resolved_item self.now.rules.items self.now.labels.items item }
    {
        let Item::Use { label } = item else {
            return Ok(item);
        };
        let label = self.label(label);
        let found = self.index(label.text());
        let number = found.ok_or(Fault::UndefinedName(label.span()))?;
        Ok(Item::Name { number })
    }

    fn resolve_alternative(&self, alternative: Alternative) -> Result<Alternative, Fault>
        ensures { answer (λ a. a) result ≡ resolved_alternative self.now.rules.items self.now.labels.items alternative }
    {
        let mut resolved = alternative;
        for (i, item) in alternative.items.iter().enumerate() {
            resolved.items[i] = self.resolve(*item)?;
        }
        Ok(resolved)
    }

    // Puts numbers in the place of all labels of names; at a refusal some may be done. An index, since each row is made by
    // all of `self`, which can't be read while `iter_mut` lends its alternatives.
    fn resolve_all(&mut self) -> Result<(), Fault>
        ensures { lists_answer result (lists_of self.new) ≡ resolved (lists_of self.old) }
    {
        for a in 0..self.alternatives.len() {
            self.alternatives[a] = self.resolve_alternative(self.alternatives[a])?;
        }
        Ok(())
    }
}

impl Reader {
    // The end of the file, at `end`.
    fn finish(&mut self, end: usize) -> Result<(), Fault>
        ensures { lists_answer result (lists_of self.new.grammar) ≡ closed self.old.state (lists_of self.old.grammar) end }
    {
        if self.state != State::Outside {
            return Err(Fault::Unexpected(Span {
                place: end,
                length: 0,
            }));
        }
        if self.grammar.rules.is_empty() {
            return Err(Fault::NoRule { place: end });
        }
        self.grammar.resolve_all()
    }
}

impl Draft {
    // A draft without rules, with memory reserved for all that a file may hold.
    pub fn new(heap: Global) -> Result<Draft, Fault>
        ensures { MatchResult result (λ d. lists_of d.grammar ≡ no_lists) (λ e. e ≡ OutOfMemory) }
    {
        Ok(Draft {
            grammar: Grammar::new(heap)?,
            reader: Reader::new(heap)?,
        })
    }

    // Fills the draft anew from a family file; a refusal leaves it as it was.
    pub fn read(&mut self, file: &[u8]) -> Result<(), Fault>
        ensures answer { lists_answer result (lists_of self.new.grammar) ≡ read_file file.now }
        ensures reads { ReadsFile file.now (lists_answer result (lists_of self.new.grammar)) }
        ensures means { Means file.now (lists_answer result (lists_of self.new.grammar)) }
        ensures only { (a : Answer Lists) → Means file.now a → a ≡ lists_answer result (lists_of self.new.grammar) }
        ensures same { is_err result ≡ true → lists_of self.new.grammar ≡ lists_of self.old.grammar }
    {
        if too_long(file) {
            return Err(Fault::FileTooLong);
        }
        self.reader.restart();
        let mut lexer = Lexer::new(file);
        while let Some(t) = lexer.next_token()? {
            self.reader.step(t)?;
        }
        self.reader.finish(file.len())?;
        self.grammar.copy_from(&self.reader.grammar);
        Ok(())
    }
}
