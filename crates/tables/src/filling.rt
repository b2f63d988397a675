// Filling a table: size by size, the names by rank and then all items' rows once more.
ghost use Rattle.std.specs.Prelude.{◌≡◌, ℕ, ◌+◌, ◌<◌, ◌≤◌, List, length, if◌then◌else◌, nat_eq, slice_index, slice_set};
ghost use Rattle.theory.specs.Families.{item_count, tail_at};
ghost use Rattle.theory.specs.Totals.{item_value, tail_value, alternatives_value};
ghost use Rattle.theory.specs.Tables.{entry_at, item_row, rows};
ghost use Rattle.files.specs.Models.{item_model};
ghost use Rattle.families.specs.Sound.{marked};
ghost use Rattle.files.specs.declared.item.Label.{Label};
ghost use Rattle.tables.specs.Tables.{rules_of, entries, Beyond, Fills};
ghost use Rattle.tables.specs.Fillings.{Below, Stands, Of, Under, Ready, number_of, symbols_of, rules_at, lists_at, value_at, RightAt, LowerRight, SizesDone, RanksDone, Kept, Writes, FillsName};

use crate::kind::WeightKind;
use crate::level::Level;
use crate::shape::Shape;
use crate::tail::Tail;
use families::family::Family;
use files::fault::Fault;
use files::item::{Alternative, Item};

// The total of a literal at k: its weight at its own size.
fn literal_total<K: WeightKind>(size: u32, cost: u32, k: usize) -> K
    ensures { result ≡ (if nat_eq k size then K.kind.weigh cost else K.kind.none) }
{
    if k == size as usize {
        K::weight(cost)
    } else {
        K::nothing()
    }
}

impl<'f, 't, K: WeightKind> Level<'f, 't, K> {
    // The row's entry at k.
    fn entry(&self, row: usize, k: usize) -> K
        requires row { row < self.now.shape.rows }
        requires size { k ≤ self.now.size }
        ensures { result ≡ value_at K.kind self.now row k }
    {
        self.table[self.shape.place(row, k)]
    }

    // Writes the row's entry at the size.
    fn put(&mut self, row: usize, value: K)
        requires { row < self.old.shape.rows }
        ensures kept { Kept self.old self.new }
        ensures put { self.new.table.now ≡ slice_set self.old.table.now (entry_at self.old.shape.top row self.old.size) value }
    {
        self.table[self.shape.place(row, self.size)] = value;
    }

    // The row of a tail's first item: the names come first.
    fn row(&self, tail: Tail) -> usize
        requires stands { Stands (lists_at self.now) tail.alternative }
        requires there { tail.slot < tail.alternative.count }
        ensures row { result ≡ item_row (rules_at self.now) (number_of tail) }
        ensures within { result < self.now.shape.rows }
    {
        self.family.names() + tail.item_index()
    }

    // The total of an item at k. What is neither a name nor a literal stands in no family; it has the total of an
    // empty literal.
    fn item_total(&self, item: Item, k: usize) -> K
        requires known { Below self.now.shape.rows item }
        requires size { k ≤ self.now.size }
        ensures { (ls : List Label) → result ≡ item_value K.kind (value_at K.kind self.now) (item_model ls item) k }
    {
        match item {
            Item::Name { number } => self.entry(number, k),
            Item::Literal { size, cost, .. } => literal_total(size, cost, k),
            Item::Use { .. } | Item::Vacant => literal_total(0, 0, k),
        }
    }

    // The total of a tail at k, from its first item's row: the unit at 0 where no item is left.
    fn rest_total(&self, tail: Tail, k: usize) -> K
        requires stands { Stands (lists_at self.now) tail.alternative }
        requires size { k ≤ self.now.size }
        requires right { tail.slot < tail.alternative.count → RightAt K.kind self.now (number_of tail) k }
        ensures { result ≡ tail_value K.kind (value_at K.kind self.now) (symbols_of (lists_at self.now).labels tail) k }
    {
        if !tail.is_over() {
            self.entry(self.row(tail), k)
        } else if k == 0 {
            K::one()
        } else {
            K::nothing()
        }
    }

    // What a tail totals: over all splits, the item's total times the rest's. A `for`, since `fold` asks that its closure may
    // be called with any size.
    fn tail_total(&self, tail: Tail) -> K
        requires stands { Stands (lists_at self.now) tail.alternative }
        requires there { tail.slot < tail.alternative.count }
        requires rest { (k : ℕ) → k ≤ self.now.size → tail.slot + 1 < tail.alternative.count → RightAt K.kind self.now (tail.alternative.first + (tail.slot + 1)) k }
        ensures { result ≡ tail_value K.kind (value_at K.kind self.now) (tail_at (rules_at self.now) (number_of tail)) self.now.size }
    {
        let item = tail.item();
        let rest = tail.rest();
        let mut total = K::nothing();
        for k in 0..self.size + 1 {
            let split = self
                .item_total(item, k)
                .times(self.rest_total(rest, self.size - k));
            total = total.plus(split);
        }
        total
    }

    // Writes the entries of the alternative's items, the last first.
    fn fill_alternative(&mut self, alternative: Alternative)
        requires stands { Stands (lists_at self.old) alternative }
        requires lower { LowerRight K.kind self.old }
        ensures { Writes K.kind (Of alternative) self.old self.new }
    {
        for slot in (0..alternative.count).rev() {
            let tail = Tail { alternative, slot };
            let total = self.tail_total(tail);
            self.put(self.row(tail), total);
        }
    }

    // Writes the entries of the items of name y.
    fn fill_alternatives(&mut self, y: usize)
        requires there { y < length (rules_at self.old) }
        requires lower { LowerRight K.kind self.old }
        ensures { Writes K.kind (Under (lists_at self.old) y) self.old self.new }
    {
        let family = self.family;
        for alternative in family.alternatives(family.rule(y)) {
            self.fill_alternative(*alternative);
        }
    }

    // Writes the entries of all items.
    fn fill_items(&mut self)
        requires { LowerRight K.kind self.old }
        ensures { Writes K.kind (λ j. Unit {0}) self.old self.new }
    {
        for y in 0..self.family.names() {
            self.fill_alternatives(y);
        }
    }

    // The sum of the alternatives of name y.
    fn name_total(&self, y: usize) -> K
        requires there { y < length (rules_at self.now) }
        requires right { (j : ℕ) → j < item_count (rules_at self.now) → Under (lists_at self.now) y j → RightAt K.kind self.now j self.now.size }
        ensures { result ≡ alternatives_value K.kind (rules_at self.now) (value_at K.kind self.now) y self.now.size }
    {
        let mut total = K::nothing();
        for alternative in self.family.alternatives(self.family.rule(y)) {
            let whole = Tail {
                alternative: *alternative,
                slot: 0,
            };
            total = total.plus(self.rest_total(whole, self.size));
        }
        total
    }

    // Writes the entry of name y, and before it those of its items, from the entries of lower ranks. At size 0 a name
    // that cannot be empty has its none already.
    fn fill_name(&mut self, y: usize)
        requires there { y < length (rules_at self.old) }
        requires ready { RanksDone K.kind (slice_index self.old.family.now.ranks y) self.old }
        ensures { FillsName K.kind y self.old self.new }
    {
        if self.size == 0 && !self.family.nullable(y) {
            return;
        }
        self.fill_alternatives(y);
        let total = self.name_total(y);
        self.put(y, total);
    }

    // Writes the entries of the names of the rank.
    fn fill_rank(&mut self, rank: usize)
        requires { RanksDone K.kind rank self.old }
        ensures kept { Kept self.old self.new }
        ensures done { RanksDone K.kind (rank + 1) self.new }
    {
        let family = self.family;
        for y in 0..family.names() {
            if family.rank(y) == rank {
                self.fill_name(y);
            }
        }
    }

    // Writes all entries: the names by rank, then each item's row from the finished names. What an unfinished entry
    // gives before that is multiplied by the none.
    fn fill_size(&mut self)
        requires { SizesDone K.kind self.old.size self.old }
        ensures kept { Kept self.old self.new }
        ensures done { SizesDone K.kind (self.old.size + 1) self.new }
    {
        for rank in 0..self.family.names() {
            self.fill_rank(rank);
        }
        self.fill_items();
    }

    // Writes the none for each name that cannot be empty, at size 0.
    fn fill_bare(&mut self)
        requires { self.old.size ≡ 0 }
        ensures kept { Kept self.old self.new }
        ensures done { SizesDone K.kind 0 self.new }
    {
        let family = self.family;
        for y in 0..family.names() {
            if !family.nullable(y) {
                self.put(y, K::nothing());
            }
        }
    }
}

// Writes each entry's total.
pub(crate) fn fill_all<K: WeightKind>(shape: Shape, family: &Family, table: &mut [K])
    requires rows { shape.rows ≡ rows (rules_of family.now) }
    requires room { entries shape.rows shape.top ≤ length table.old }
    ensures ready { Ready K.kind (rules_of family.now) (marked family.now.nullable) shape.top (shape.top + 1) (λ _. ⊥) table.new }
    ensures beyond { Beyond shape.rows shape.top table.old table.new }
{
    let mut bare = Level {
        family,
        table: &mut *table,
        shape,
        size: 0,
    };
    bare.fill_bare();
    for size in 0..shape.top + 1 {
        let mut level = Level {
            family,
            table: &mut *table,
            shape,
            size,
        };
        level.fill_size();
    }
}

// Writes each entry's total into the table, or refuses and writes nothing.
pub fn fill<K: WeightKind>(family: &Family, table: &mut [K], top: usize) -> Result<(), Fault>
    ensures { Fills K.kind result family.now top table.old table.new }
{
    let shape = Shape::new(family, table.len(), top)?;
    fill_all(shape, family, table);
    Ok(())
}
