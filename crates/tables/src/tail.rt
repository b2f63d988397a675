// What is left of an alternative.
ghost use Rattle.std.specs.Prelude.{◌≡◌, ◌+◌, ◌<◌, ◌≤◌, ◌↔◌, min, None, IsTrue, IsSome, if◌then◌else◌, nat_lt, slice_get};
ghost use Rattle.files.specs.Items.{item_at};

use files::item::{Alternative, Item};

// An alternative's items from one of its slots on.
#[derive(Clone, Copy)]
pub struct Tail {
    pub alternative: Alternative,
    pub slot: usize,
}

impl Tail {
    // Whether no item is left.
    pub fn is_over(self) -> bool
        ensures { IsTrue result ↔ (self.alternative.count ≤ self.slot) }
    {
        self.slot >= self.alternative.count
    }

    // The number of its first item through the whole family.
    pub fn item_index(self) -> usize
        ensures { result ≡ min 18446744073709551615 (self.alternative.first + self.slot) }
    {
        self.alternative.first.saturating_add(self.slot)
    }

    // The item at its slot, vacant past the sixth.
    pub fn item(self) -> Item
        ensures { result ≡ item_at self.alternative self.slot }
    {
        self.alternative.item(self.slot)
    }

    // The item that it begins with; none at its end.
    pub fn first(self) -> Option<Item>
        ensures item { result ≡ (if nat_lt self.slot self.alternative.count then slice_get self.alternative.items self.slot else None) }
        ensures inside { IsSome result → self.slot < 6 }
    {
        if self.is_over() {
            None
        } else {
            self.alternative.items.get(self.slot).copied()
        }
    }

    // What follows its first item.
    pub fn rest(self) -> Tail
        ensures { result ≡ record self { slot = min 18446744073709551615 (self.slot + 1) } }
    {
        Tail {
            alternative: self.alternative,
            slot: self.slot.saturating_add(1),
        }
    }
}
