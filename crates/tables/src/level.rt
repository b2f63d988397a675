// A table at one size.
ghost use Rattle.std.specs.Prelude.{◌≡◌, ◌≤◌, length};
ghost use Rattle.theory.specs.Tables.{rows};
ghost use Rattle.tables.specs.Tables.{rules_of, entries};

use crate::shape::Shape;
use families::family::Family;

// A family's table while the entries of one size are written.
#[derive(Drop)]
pub(crate) struct Level<'f, 't, K> {
    pub(crate) family: &'f Family,
    pub(crate) table: &'t mut [K],
    pub(crate) shape: Shape,
    pub(crate) size: usize,
    ghost all_rows: { shape.rows ≡ rows (rules_of family.now) },
    ghost room: { entries shape.rows shape.top ≤ length table.now },
    ghost low: { size ≤ shape.top },
}
