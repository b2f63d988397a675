// Walking along a choice list: the layout that it tells, item by item.
ghost use Rattle.std.specs.Prelude.{◌≡◌, ℕ, ◌+◌, ◌-◌, ◌*◌, ◌<◌, ◌≤◌, length, IfOk, IfErr, ◌≢◌};

use crate::descent::Descent;
use crate::pending::Pending;
use families::family::Family;
use files::fault::{Fault, Span};
use files::item::Item;

// A walk along the layout of `name` that the list tells, with `read` choices read. Each pending tail was left at one.
#[derive(Drop)]
pub(crate) struct Walk<'w> {
    name: usize,
    list: &'w [u8],
    pub(crate) descent: Descent<'w>,
    read: usize,
    ghost room: { length list.now ≤ length descent.pending.places.now },
    ghost within: { read ≤ length list.now },
    ghost fewer: { descent.pending.height ≤ read },
}

impl<'w> Walk<'w> {
    ghost use Rattle.drawing.specs.Walks.{left, SamePlaces, Standing};

    // Before the first choice.
    pub(crate) fn new(
        family: &'w Family,
        name: usize,
        list: &'w [u8],
        places: &'w mut [Pending],
    ) -> Walk<'w>
        requires { length list.now ≤ length places.old }
        ensures { result.descent.pending.places.ghost_name ≡ places.entry.ghost_name }
    {
        Walk {
            name,
            list,
            descent: Descent::new(family, Pending::vacant(), places),
            read: 0,
        }
    }

    // Goes to the beginning of the layout.
    pub(crate) fn begin(&mut self) -> Result<(), Fault>
        ensures same { SamePlaces self.old self.new }
        ensures begun { IfOk result (λ _. (self.new.read ≡ 1) × (self.new.descent.pending.height ≡ 0)) }
    {
        self.read = 0;
        self.descent.pending.clear();
        self.descent.current = self.choose(self.name)?;
        Ok(())
    }

    // Reads a choice of name y: the alternative that it names.
    fn choose(&mut self, y: usize) -> Result<Pending, Fault>
        ensures same { (self.new.descent ≡ self.old.descent) × (self.new.list ≡ self.old.list) }
        ensures chosen { IfOk result (λ p. (self.new.read ≡ self.old.read + 1) × (p.slot ≡ 0)) }
        ensures refused { IfErr result (λ _. self.new.read ≡ self.old.read) }
    {
        let end = Fault::WrongEnd(Span {
            place: self.list.len(),
            length: 0,
        });
        let choice = usize::from(*self.list.get(self.read).ok_or(end)?);
        let rule = self.descent.family.rule(y);
        if choice >= rule.count {
            return Err(Fault::UnknownChoice { place: self.read });
        }
        self.read += 1;
        Ok(Pending::whole(rule.first.saturating_add(choice), 0, 0))
    }

    // The next item, if the layout has one more; where it is a name, the walk goes on inside it.
    pub(crate) fn next_item(&mut self) -> Result<Option<Item>, Fault>
        ensures same { SamePlaces self.old self.new }
        ensures standing { Standing self.old → Standing self.new }
        ensures onward { IfOk result (λ m. m ≢ None → left self.new < left self.old) }
    {
        let Some(item) = self.descent.next_item() else {
            return Ok(None);
        };
        let rest = self.descent.current.rest(0, 0);
        if let Item::Name { number } = item {
            let inside = self.choose(number)?;
            self.descent.enter(inside, rest);
        } else {
            self.descent.current = rest;
        }
        Ok(Some(item))
    }

    // Whether the list tells a layout, and ends where it does.
    pub(crate) fn check(&mut self) -> Result<(), Fault>
        ensures { SamePlaces self.old self.new }
    {
        self.begin()?;
        while self.next_item()?.is_some() {}
        if self.read < self.list.len() {
            return Err(Fault::WrongEnd(Span {
                place: self.read,
                length: 1,
            }));
        }
        Ok(())
    }
}
