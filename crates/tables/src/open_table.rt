// Open tables.
use crate::checked::Checked;
use crate::scratch::Scratch;

// A place for a checked table, with the memory to check in. At first none is open, and so there are no names.
#[derive(Drop)]
pub struct OpenTable<'f, 't> {
    pub(crate) checked: Option<Checked<'f, 't>>,
    pub(crate) scratch: Scratch,
}
