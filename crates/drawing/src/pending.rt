// Pending tails: what stands on the stack of a walk.
ghost use Rattle.std.specs.Prelude.{◌≡◌, ◌+◌, ◌<◌, ◌≤◌, IsSome};

use families::family::Family;
use tables::tail::Tail;

// A tail that is still to be visited: the alternative, the place in it where the tail begins, its size and its number.
#[derive(Clone, Copy)]
pub struct Pending {
    pub(crate) alternative: usize,
    pub(crate) slot: usize,
    pub(crate) size: usize,
    pub(crate) number: u64,
    ghost six: { slot ≤ 6 },
}

impl Pending {
    ghost use Rattle.drawing.specs.Tails.{TailOf};

    // A free place for a stack. No `Default`: a struct with a ghost field derives none.
    pub fn vacant() -> Pending
        ensures { TailOf result 0 0 0 0 }
    {
        Pending::whole(0, 0, 0)
    }

    // The whole of an alternative.
    pub(crate) fn whole(alternative: usize, size: usize, number: u64) -> Pending
        ensures { TailOf result alternative 0 size number }
    {
        Pending {
            alternative,
            slot: 0,
            size,
            number,
        }
    }

    // What follows its first item.
    pub(crate) fn rest(self, size: usize, number: u64) -> Pending
        requires { self.slot < 6 }
        ensures { TailOf result self.alternative (self.slot + 1) size number }
    {
        Pending {
            alternative: self.alternative,
            slot: self.slot + 1,
            size,
            number,
        }
    }

    // Its items, in the family.
    pub(crate) fn tail(self, family: &Family) -> Tail
        ensures { result.slot ≡ self.slot }
    {
        Tail {
            alternative: family.alternative(self.alternative),
            slot: self.slot,
        }
    }
}
