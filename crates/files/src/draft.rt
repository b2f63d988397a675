// Drafts.
ghost use Rattle.std.specs.Prelude.{◌≡◌};
ghost use Rattle.files.specs.Grammars.{lists_of};
ghost use Rattle.files.specs.Models.{Formed, NamesDiffer};

use crate::grammar::Grammar;
use crate::reader::Reader;

// What reading a file gives: its rules, with each name that is used by its number; they fit together. The reader's
// memory is reserved with the draft's, so that reading needs none.
#[derive(Drop)]
pub struct Draft {
    pub(crate) grammar: Grammar,
    pub(crate) reader: Reader,
    ghost formed: { ∥ Formed (lists_of grammar) ∥₁ },
    ghost names_differ: { ∥ NamesDiffer (lists_of grammar) ∥₁ },
}

impl Draft {
    // The rules.
    pub fn grammar(&self) -> &Grammar
        ensures { result.now ≡ self.now.grammar }
    {
        &self.grammar
    }
}
