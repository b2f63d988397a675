// Which split and which alternative a number falls into.
ghost use Rattle.std.specs.Prelude.{◌≡◌, ◌+◌, ◌*◌, ◌<◌, ◌≤◌, IfSome};

use crate::counting::pair;
use crate::numbering::Numbering;
use crate::order::SplitOrder;
use crate::pending::Pending;
use files::item::Item;
use tables::tail::Tail;

// A split: the item's size and number, and the rest's number.
#[derive(Clone, Copy)]
struct Split {
    size: usize,
    item: u64,
    rest: u64,
}

// An alternative by its number among its name's, and as a tail.
#[derive(Clone, Copy)]
pub(crate) struct Choice {
    pub(crate) number: u8,
    pub(crate) inside: Pending,
}

// What a tail begins with: the choice, where that is a name, and what follows.
#[derive(Clone, Copy)]
pub(crate) struct Step {
    pub(crate) choice: Option<Choice>,
    pub(crate) rest: Pending,
}

impl<O: SplitOrder> Numbering<'_, O> {
    // The split of a pending tail, which begins with the item, that its number falls into, by the order.
    fn choose_split(&self, at: Pending, item: Item) -> Split
        ensures { result.size ≤ at.size }
    {
        let after = at.tail(self.family).rest();
        let mut left = at.number;
        for i in 0..=at.size {
            let size = self.order.split(at.size, i).min(at.size);
            let count = self.tail_count(after, at.size - size);
            let both = self.item_count(item, size).saturating_mul(count);
            if left < both {
                let (item, rest) = pair(left, count);
                return Split { size, item, rest };
            }
            left -= both;
        }
        // A number below the tail's count has fallen into a split by now; an Option would leave the answer here to `draw`.
        Split {
            size: at.size,
            item: 0,
            rest: 0,
        }
    }

    // The alternative of name y that the number falls into. A loop of its own: one with `choose_split` would compute the
    // split twice.
    pub(crate) fn choose(&self, y: usize, size: usize, number: u64) -> Choice
        ensures { result.inside.slot ≡ 0 }
    {
        let rule = self.family.rule(y);
        let mut left = number;
        for (a, alternative) in self.family.alternatives(rule).iter().enumerate() {
            let whole = Tail {
                alternative: *alternative,
                slot: 0,
            };
            let count = self.tail_count(whole, size);
            if left < count {
                return Choice {
                    number: a as u8,
                    inside: Pending::whole(rule.first.saturating_add(a), size, left),
                };
            }
            left -= count;
        }
        // A number below the name's count has fallen into an alternative by now, as above.
        Choice {
            number: 0,
            inside: Pending::whole(rule.first, size, 0),
        }
    }

    // Takes the item that a pending tail begins with off it.
    pub(crate) fn step(&self, at: Pending, item: Item) -> Step
        requires { at.slot < 6 }
        ensures rest { result.rest.slot ≡ at.slot + 1 }
        ensures choice { IfSome result.choice (λ c. c.inside.slot ≡ 0) }
    {
        let split = self.choose_split(at, item);
        let choice = match item {
            Item::Name { number } => Some(self.choose(number, split.size, split.item)),
            _ => None,
        };
        Step {
            choice,
            rest: at.rest(at.size - split.size, split.rest),
        }
    }
}
