// Families.
ghost use Rattle.files.specs.Grammars.{lists_of};
ghost use Rattle.files.specs.Models.{NamesDiffer};
ghost use Rattle.families.specs.Sound.{Sound};

use files::grammar::Grammar;

// An adopted family: its rules with its own copies of the texts; which names can be empty; and the names' ranks,
// which fall along every step. At first it has no names. The two arrays are made apart, by the sweeps and by the chains,
// and asked for apart.
#[derive(Drop)]
pub struct Family {
    pub(crate) grammar: Grammar,
    pub(crate) nullable: [bool; 32],
    pub(crate) ranks: [usize; 32],
    ghost sound: { ∥ Sound (lists_of grammar) nullable ranks ∥₁ },
    ghost names_differ: { ∥ NamesDiffer (lists_of grammar) ∥₁ },
}
