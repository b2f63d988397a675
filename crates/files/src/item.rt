// Items, alternatives and rules: plain values, passed and stored as such.
ghost use Rattle.std.specs.Prelude.{◌≡◌, ◌-◌, ◌<◌, ◌≤◌};
ghost use Rattle.std.specs.Str.{bytes_eq};
ghost use Rattle.files.specs.Items.{label_of, text_of, item_at, no_items, with_item, with_put, with_size, with_cost, resized, recosted, decimal};

use crate::fault::Span;
use crate::text::{DigitRun, Text};

// A name or a literal's text, as it was read, with the place in the file where its token begins.
#[derive(Clone, Copy, Default)]
pub struct Label {
    bytes: [u8; 24],
    length: usize,
    place: usize,
}

impl Label {
    // A name's text or a literal's, whose bounds are types of their own.
    pub(crate) fn new<const MOST: usize>(text: Text<'_, MOST>, place: usize) -> Label
        requires { MOST ≤ 24 }
        ensures { result ≡ label_of text.entry.bytes.now place }
    {
        let text = text.bytes();
        let length = text.len();
        let mut bytes = [0u8; 24];
        bytes[..length].copy_from_slice(text);
        Label {
            bytes,
            length,
            place,
        }
    }

    pub fn text(&self) -> &[u8]
        ensures { result.now ≡ text_of self.now }
    {
        let end = self.length.min(24);
        &self.bytes[..end]
    }

    pub fn place(&self) -> usize
        ensures { result ≡ self.now.place }
    {
        self.place
    }

    pub fn length(&self) -> usize
        ensures { result ≡ self.now.length }
    {
        self.length
    }

    // Where the text of a name stands in the file.
    pub fn span(&self) -> Span
        ensures { result ≡ record { place = self.now.place; length = self.now.length } }
    {
        Span {
            place: self.place,
            length: self.length,
        }
    }

    // Whether the label says `text`.
    pub(crate) fn says(&self, text: &[u8]) -> bool
        ensures { result ≡ bytes_eq (text_of self.now) text.now }
    {
        self.text() == text
    }
}

// What stands in one of an alternative's six places; `Vacant` is a free place. `Use` is a name as it was read, by its label;
// `Name` is a name by its number.
#[derive(Clone, Copy, Default)]
pub enum Item {
    #[default]
    Vacant,
    Use { label: usize },
    Name { number: usize },
    Literal { label: usize, size: u32, cost: u32 },
}

impl Item {
    // The item with another size, where it has one. This and the next write different fields; one function of both would
    // be longer.
    fn resized(self, size: u32) -> Item
        ensures { result ≡ resized self size }
    {
        match self {
            Item::Literal { label, cost, .. } => Item::Literal { label, size, cost },
            _ => self,
        }
    }

    // The item with another cost, where it has one.
    fn recosted(self, cost: u32) -> Item
        ensures { result ≡ recosted self cost }
    {
        match self {
            Item::Literal { label, size, .. } => Item::Literal { label, size, cost },
            _ => self,
        }
    }
}

// Up to six items; `first` is the number of the first through the whole file.
#[derive(Clone, Copy, Default)]
pub struct Alternative {
    pub items: [Item; 6],
    pub count: usize,
    pub first: usize,
}

impl Alternative {
    pub(crate) fn new(first: usize) -> Alternative
        ensures { result ≡ no_items first }
    {
        Alternative {
            first,
            ..Alternative::default()
        }
    }

    // The item at place i, vacant past the sixth.
    pub fn item(self, i: usize) -> Item
        ensures { result ≡ item_at self i }
    {
        self.items.get(i).copied().unwrap_or_default()
    }

    // The alternative with one item more.
    pub(crate) fn with_item(self, item: Item) -> Alternative
        requires { self.count < 6 }
        ensures { result ≡ with_item self item }
    {
        let mut items = self.items;
        items[self.count] = item;
        Alternative {
            items,
            count: self.count + 1,
            ..self
        }
    }

    // The alternative with `item` at place i, as it is past the sixth.
    fn with_put(self, i: usize, item: Item) -> Alternative
        ensures { result ≡ with_put self i item }
    {
        let mut items = self.items;
        if i < 6 {
            items[i] = item;
        }
        Alternative { items, ..self }
    }

    // The alternative with another size for its last item. This and the next go straight to `with_put`: a function of both
    // would copy the alternative once more.
    pub(crate) fn with_size(self, size: u32) -> Alternative
        ensures { result ≡ with_size self size }
    {
        let last = self.count.saturating_sub(1);
        self.with_put(last, self.item(last).resized(size))
    }

    // The alternative with another cost for its last item.
    pub(crate) fn with_cost(self, cost: u32) -> Alternative
        ensures { result ≡ with_cost self cost }
    {
        let last = self.count.saturating_sub(1);
        self.with_put(last, self.item(last).recosted(cost))
    }
}

// A rule: its name, and its alternatives from `first` on.
#[derive(Clone, Copy, Default)]
pub struct Rule {
    pub label: Label,
    pub first: usize,
    pub count: usize,
}

fn digit_value(b: u8) -> u32
    ensures value { result ≡ b - 48 }
    ensures small { result ≤ 207 }
{
    u32::from(b.saturating_sub(b'0'))
}

// The number that a run of one to four digits stands for. A `for`, since `fold` asks that its closure may be called with
// any sum, also one that is too large.
#[tactic(auto, using(crate::proofs::Digits::few))]
pub(crate) fn decimal_value(run: DigitRun<'_>) -> u32
    ensures { result ≡ decimal run.entry.bytes.now }
{
    let bytes = run.bytes();
    let mut value = 0;
    for b in bytes {
        value = value * 10 + digit_value(*b);
    }
    value
}
