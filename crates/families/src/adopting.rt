// Adopting a draft.
ghost use Rattle.std.specs.Prelude.{◌≡◌, MatchResult, OnOk};
ghost use Rattle.files.specs.Grammars.{lists_of, no_lists};
ghost use Rattle.files.specs.declared.fault.Fault.TheVariants.{OutOfMemory};
ghost use Rattle.families.specs.Sound.{Sound};
ghost use Rattle.families.specs.Adopts.{Adopts};

use crate::family::Family;
use crate::marks::Marks;
use files::draft::Draft;
use files::fault::Fault;
use files::grammar::Grammar;
use std::alloc::Global;

impl Family {
    // A family without names, with memory reserved for all that one may have.
    pub fn new(heap: Global) -> Result<Family, Fault>
        ensures { MatchResult result (λ f. lists_of f.grammar ≡ no_lists) (λ e. e ≡ OutOfMemory) }
    {
        let grammar = Grammar::new(heap)?;
        Ok(Family {
            grammar,
            nullable: [false; 32],
            ranks: [0; 32],
        })
    }

    // Uses the draft up, and writes the family unless the draft has an empty cycle.
    pub fn adopt(&mut self, draft: Draft) -> Result<(), Fault>
        ensures adopts { Adopts result self.old self.new (lists_of draft.grammar) }
        ensures keeps { OnOk result (Sound (lists_of draft.grammar) self.new.nullable self.new.ranks) }
    {
        let grammar = draft.grammar();
        let marks = Marks::new(&draft);
        let chains = marks.chains();
        if let Some(cycle) = chains.first_cycle() {
            return Err(Fault::EmptyCycle(grammar.rule(cycle).label.span()));
        }
        self.grammar.copy_from(grammar);
        self.nullable = marks.nullable;
        self.ranks = chains.ranks(grammar.names());
        Ok(())
    }
}
