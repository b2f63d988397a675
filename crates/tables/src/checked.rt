// Tables that were compared.
ghost use Rattle.std.specs.Prelude.{◌≡◌, ◌≤◌, length};
ghost use Rattle.tables.specs.Counts.{count_kind};
ghost use Rattle.tables.specs.Tables.{entries, rules_of, rows_of, Totals};

use crate::count::Count;
use crate::shape::Shape;
use families::family::Family;

// A family with its table, which was compared with the totals, entry by entry.
#[derive(Clone, Copy)]
pub(crate) struct Checked<'f, 't> {
    pub(crate) family: &'f Family,
    pub(crate) table: &'t [Count],
    pub(crate) shape: Shape,
    ghost all_rows: { shape.rows ≡ rows_of family.now },
    ghost room: { entries shape.rows shape.top ≤ length table.now },
    ghost totals: { ∥ Totals count_kind (rules_of family.now) shape.top table.now ∥₁ },
}
