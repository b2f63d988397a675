// The reader of rules.
ghost use Rattle.std.specs.Prelude.{◌+◌, ◌≤◌, vec_len};
ghost use Rattle.files.specs.States.{begun, opened};

use crate::grammar::Grammar;
use crate::item::{Alternative, Label};
use crate::state::State;

// What was read so far: whole rules in the grammar; of the rule that is begun its name, the number of its first
// alternative and the alternative that is being read.
#[derive(Drop)]
pub(crate) struct Reader {
    pub(crate) state: State,
    pub(crate) name: Label,
    pub(crate) first: usize,
    pub(crate) current: Alternative,
    pub(crate) grammar: Grammar,
    ghost rule_fits: { vec_len grammar.rules + opened state ≤ 32 },
    ghost fits: { vec_len grammar.alternatives + begun state ≤ 64 },
}
