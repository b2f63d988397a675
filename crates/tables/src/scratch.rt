// Memory for the totals that an opening compares with.
ghost use Rattle.std.specs.Prelude.{◌≡◌, vec_len};

use crate::count::Count;

// Room for the entries of the longest table, of 160 rows up to the size 40.
#[derive(Drop)]
pub struct Scratch {
    pub(crate) totals: Vec<Count>,
    ghost long: { vec_len totals ≡ 6560 },
}
