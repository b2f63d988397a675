// Stacks on lent places.
ghost use Rattle.std.specs.Prelude.{◌≡◌, ◌+◌, ◌<◌, ◌≤◌, ◌↔◌, length, slice_get, slice_set, IsTrue, IfNone, IfSome};

// The first `height` of the places are taken.
#[derive(Drop)]
pub(crate) struct Stack<'s, T> {
    pub(crate) places: &'s mut [T],
    pub(crate) height: usize,
    ghost within: { height ≤ length places.now },
}

impl<'s, T: Copy> Stack<'s, T> {
    // No place is taken.
    pub(crate) fn new(places: &'s mut [T]) -> Stack<'s, T>
        ensures same_reference { result.places.ghost_name ≡ places.entry.ghost_name }
        ensures same { result.places.now ≡ places.old }
        ensures empty { result.height ≡ 0 }
    {
        Stack { places, height: 0 }
    }

    // Whether each place is taken.
    pub(crate) fn is_full(&self) -> bool
        ensures { IsTrue result ↔ self.now.height ≡ length self.now.places.now }
    {
        self.height == self.places.len()
    }

    // Lets all go.
    pub(crate) fn clear(&mut self)
        ensures same_reference { self.new.places.ghost_name ≡ self.old.places.ghost_name }
        ensures same { self.new.places.now ≡ self.old.places.now }
        ensures empty { self.new.height ≡ 0 }
    {
        self.height = 0;
    }

    // Puts an item on top.
    pub(crate) fn push(&mut self, item: T)
        requires { self.old.height < length self.old.places.now }
        ensures same_reference { self.new.places.ghost_name ≡ self.old.places.ghost_name }
        ensures set { self.new.places.now ≡ slice_set self.old.places.now self.old.height item }
        ensures higher { self.new.height ≡ self.old.height + 1 }
    {
        self.places[self.height] = item;
        self.height += 1;
    }

    // Takes the item on top, if there is one.
    pub(crate) fn pop(&mut self) -> Option<T>
        ensures same_reference { self.new.places.ghost_name ≡ self.old.places.ghost_name }
        ensures same { self.new.places.now ≡ self.old.places.now }
        ensures none { IfNone result ((self.old.height ≡ 0) × (self.new.height ≡ 0)) }
        ensures some { IfSome result (λ x. (self.new.height + 1 ≡ self.old.height) × (slice_get self.old.places.now self.new.height ≡ Some x)) }
    {
        if self.height == 0 {
            return None;
        }
        self.height -= 1;
        Some(self.places[self.height])
    }
}
