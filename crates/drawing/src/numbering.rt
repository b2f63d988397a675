// How layouts are numbered.
ghost use Rattle.std.specs.Prelude.{◌≡◌, Some};
ghost use Rattle.tables.specs.Openings.{family_open};

use families::family::Family;
use tables::open_table::OpenTable;

// What the layouts of an open family are numbered by: the counts of its table, and an order of splits.
#[derive(Drop)]
pub(crate) struct Numbering<'n, O> {
    pub(crate) opened: &'n OpenTable<'n, 'n>,
    pub(crate) family: &'n Family,
    pub(crate) order: &'n O,
    ghost own: { family_open opened.now ≡ Some family },
}
