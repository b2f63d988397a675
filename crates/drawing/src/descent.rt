// Descents: how a walk goes through a layout, item by item.
ghost use Rattle.std.specs.Prelude.{◌≡◌, ◌+◌, ◌-◌, ◌*◌, ◌<◌, ◌≤◌, length, IsSome};
ghost use Rattle.drawing.specs.Descents.{left};

use crate::pending::Pending;
use crate::stack::Stack;
use families::family::Family;
use files::item::Item;

// Where a walk stands: the tail that it is in, and those that it left at a name.
#[derive(Drop)]
pub(crate) struct Descent<'d> {
    pub(crate) family: &'d Family,
    pub(crate) current: Pending,
    pub(crate) pending: Stack<'d, Pending>,
}

impl<'d> Descent<'d> {
    // At the beginning of a tail.
    pub(crate) fn new(family: &'d Family, start: Pending, places: &'d mut [Pending]) -> Descent<'d>
        ensures same_reference { result.pending.places.ghost_name ≡ places.entry.ghost_name }
        ensures same { result.pending.places.now ≡ places.old }
        ensures current { result.current ≡ start }
        ensures empty { result.pending.height ≡ 0 }
    {
        Descent {
            family,
            current: start,
            pending: Stack::new(places),
        }
    }

    // Leaves the tails that are over; the item that comes next, if there is one.
    pub(crate) fn next_item(&mut self) -> Option<Item>
        ensures same_reference { self.new.pending.places.ghost_name ≡ self.old.pending.places.ghost_name }
        ensures same { self.new.pending.places.now ≡ self.old.pending.places.now }
        ensures lower { self.new.pending.height ≤ self.old.pending.height }
        ensures nearer { left self.new ≤ left self.old }
        ensures begins { IsSome result → self.new.current.slot < 6 }
    {
        loop {
            let item = self
                .family
                .item(self.current.alternative, self.current.slot);
            if item.is_some() {
                return item;
            }
            self.current = self.pending.pop()?;
        }
    }

    // Goes to what is inside a name, and leaves what follows it for later.
    pub(crate) fn enter(&mut self, inside: Pending, rest: Pending)
        requires { self.old.pending.height < length self.old.pending.places.now }
        ensures same_reference { self.new.pending.places.ghost_name ≡ self.old.pending.places.ghost_name }
        ensures places { length self.new.pending.places.now ≡ length self.old.pending.places.now }
        ensures higher { self.new.pending.height ≡ self.old.pending.height + 1 }
        ensures current { self.new.current ≡ inside }
    {
        self.pending.push(rest);
        self.current = inside;
    }
}
