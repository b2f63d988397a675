// The shape of a family's table, and where its entries stand.
ghost use Rattle.std.specs.Prelude.{◌≡◌, ◌+◌, ◌*◌, ◌<◌, ◌≤◌};
ghost use Rattle.theory.specs.Tables.{entry_at};
ghost use Rattle.tables.specs.Tables.{entries, rows_of, Fits};

use crate::shape::Shape;
use families::family::Family;
use files::fault::Fault;

impl Shape {
    // The shape of the family's table, or why there is none in `length` entries.
    pub(crate) fn new(family: &Family, length: usize, top: usize) -> Result<Shape, Fault>
        ensures { Fits result (rows_of family.now) length top }
    {
        if top > 40 {
            return Err(Fault::TopTooLarge);
        }
        let rows = row_count(family);
        if length < rows * (top + 1) {
            return Err(Fault::TableTooShort);
        }
        Ok(Shape { rows, top })
    }

    // How many entries there are.
    pub(crate) fn entries(self) -> usize
        ensures { result ≡ entries self.rows self.top }
    {
        self.rows * (self.top + 1)
    }

    // The index of the entry of a row at n.
    pub(crate) fn place(self, row: usize, n: usize) -> usize
        requires row { row < self.rows }
        requires size { n ≤ self.top }
        ensures exact { result ≡ entry_at self.top row n }
        ensures within { result < entries self.rows self.top }
    {
        row * (self.top + 1) + n
    }
}

// How many rows the family's table has.
pub(crate) fn row_count(family: &Family) -> usize
    ensures { result ≡ rows_of family.now }
{
    family.names() + family.items()
}
