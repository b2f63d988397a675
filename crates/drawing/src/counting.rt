// The counts that a walk by number goes by.
ghost use Rattle.std.specs.Prelude.{◌≡◌, ◌+◌, ◌*◌, ◌^◌, ◌<◌, ◌≤◌};

use crate::numbering::Numbering;
use files::item::Item;
use tables::tail::Tail;

// A number within a split falls into a pair: divided by the rest's count, the quotient is the item's number and the
// remainder the rest's.
pub(crate) fn pair(number: u64, rest: u64) -> (u64, u64)
    requires { 0 < rest }
    ensures { (number ≡ result.0 * rest + result.1) × (result.1 < rest) }
{
    (number / rest, number % rest)
}

// The number that a pair stands for, where the rest has `count`.
pub(crate) fn join(item: u64, rest: u64, count: u64) -> u64
    requires { item * count + rest < 2 ^ 64 }
    ensures { result ≡ item * count + rest }
{
    item * count + rest
}

impl<O> Numbering<'_, O> {
    // How many layouts an item has at a size, up to the cap.
    pub(crate) fn item_count(&self, item: Item, size: usize) -> u64 {
        match item {
            Item::Name { number } => self.opened.count(number, size),
            Item::Literal { size: own, .. } => u64::from(own as usize == size),
            _ => 0,
        }
    }

    // How many layouts a tail has at a size, up to the cap.
    pub(crate) fn tail_count(&self, tail: Tail, size: usize) -> u64 {
        if tail.is_over() {
            u64::from(size == 0)
        } else {
            let row = self.opened.names().saturating_add(tail.item_index());
            self.opened.count(row, size)
        }
    }
}
