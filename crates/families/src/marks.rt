// The names of a draft that can be empty, and the steps between its names.
ghost use Rattle.std.specs.Prelude.{◌≡◌, ℕ, ◌<◌, true, false, List, map};
ghost use Rattle.theory.specs.Nullable.{nullable_set, item_empty, all_empty, is_name, leads_in, leads, reaches, sweep as empty_by};
ghost use Rattle.files.specs.Items.{items_of};
ghost use Rattle.files.specs.Models.{item_model};
ghost use Rattle.families.specs.Sound.{marked};
ghost use Rattle.families.specs.Reaches.{Shows, TellsOfAny, symbol, rules_of};

use crate::relation::Relation;
use files::draft::Draft;
use files::item::{Alternative, Item, Label};

// A draft, and marks at the names of it that can be empty.
#[derive(Drop)]
pub(crate) struct Marks<'d> {
    draft: &'d Draft,
    pub(crate) nullable: [bool; 32],
}

// Whether the item is the name y.
fn is_name(item: Item, y: usize) -> bool
    ensures { (ls : List Label) → result ≡ is_name y (item_model ls item) }
{
    matches!(item, Item::Name { number } if number == y)
}

// The items of an alternative.
fn items_of(alternative: &Alternative) -> &[Item]
    ensures { result.now ≡ items_of alternative.now }
{
    let items = alternative.items.as_slice();
    &items[..alternative.count.min(items.len())]
}

// Whether the test passes some alternative of name y.
fn some_alternative<F: Fn(Alternative) -> bool>(draft: &Draft, y: usize, test: F) -> bool
    requires { F.IsAlwaysCallable test }
    ensures { TellsOfAny draft.now y (F.post test) result }
{
    let grammar = draft.grammar();
    grammar
        .alternatives(grammar.rule(y))
        .iter()
        .any(|alternative| test(*alternative))
}

impl<'d> Marks<'d> {
    // The draft with all names marked that can be empty: as many sweeps as there are names find them.
    pub(crate) fn new(draft: &'d Draft) -> Marks<'d>
        ensures draft { result.draft.now ≡ draft.now }
        ensures found { (y : ℕ) → marked result.nullable y ≡ nullable_set (rules_of draft.now) y }
    {
        let mut marks = Marks {
            draft,
            nullable: [false; 32],
        };
        for _ in 0..draft.grammar().names() {
            marks = marks.swept();
        }
        marks
    }

    // Whether the item adds nothing to a layout's size.
    fn item_empty(&self, item: Item) -> bool
        ensures { result ≡ item_empty (marked self.now.nullable) (symbol self.now.draft.now item) }
    {
        match item {
            Item::Literal { size, .. } => size == 0,
            Item::Name { number } => self.nullable.get(number).copied().unwrap_or(false),
            _ => true,
        }
    }

    // Whether every item can be empty.
    fn all_empty(&self, items: &[Item]) -> bool
        ensures { result ≡ all_empty (marked self.now.nullable) (map (symbol self.now.draft.now) items.now) }
    {
        items.iter().all(|item| self.item_empty(*item))
    }

    // Whether the name `to` is an item, and every other item can be empty.
    fn items_lead(&self, items: &[Item], to: usize) -> bool
        ensures { result ≡ leads_in (marked self.now.nullable) to (map (symbol self.now.draft.now) items.now) }
    {
        let [item, rest @ ..] = items else {
            return false;
        };
        (is_name(*item, to) && self.all_empty(rest))
            || (self.item_empty(*item) && self.items_lead(rest, to))
    }

    // Whether some alternative of name y has only items that can be empty.
    fn rule_empty(&self, y: usize) -> bool
        ensures { result ≡ empty_by (rules_of self.now.draft.now) (marked self.now.nullable) y }
    {
        some_alternative(
            self.draft,
            y,
            |alternative| self.all_empty(items_of(&alternative)),
        )
    }

    // Whether a step leads from one name to the other.
    fn rule_leads(&self, from: usize, to: usize) -> bool
        ensures { result ≡ leads (rules_of self.now.draft.now) (marked self.now.nullable) from to }
    {
        some_alternative(
            self.draft,
            from,
            |alternative| self.items_lead(items_of(&alternative), to),
        )
    }

    // The draft with the names marked that can be empty by the marks so far.
    fn swept(&self) -> Marks<'d>
        ensures draft { result.draft.now ≡ self.now.draft.now }
        ensures swept { (y : ℕ) → y < 32 → marked result.nullable y ≡ empty_by (rules_of self.now.draft.now) (marked self.now.nullable) y }
    {
        Marks {
            draft: self.draft,
            nullable: std::array::from_fn(|y| self.rule_empty(y)),
        }
    }

    // Which names chains of one or more steps lead to.
    pub(crate) fn chains(&self) -> Relation
        ensures { Shows result.rows (reaches (rules_of self.now.draft.now) (marked self.now.nullable)) }
    {
        let mut chains = Relation::new(|from, to| self.rule_leads(from, to));
        for by in 0..self.draft.grammar().names() {
            chains = chains.lengthened(by);
        }
        chains
    }
}
