// The shape of a table.
ghost use Rattle.std.specs.Prelude.{◌≤◌};

// How many rows a table has, and the largest size.
#[derive(Clone, Copy)]
pub struct Shape {
    pub(crate) rows: usize,
    pub(crate) top: usize,
    ghost few: { rows ≤ 160 },
    ghost low: { top ≤ 40 },
}
