// Damaged files.
ghost use Rattle.std.specs.Prelude.{◌≡◌, ◌≤◌, ◌∷◌, ◌++◌, length, take, drop, IfOk, OnOk};
ghost use Rattle.damaged.specs.Edits.{edited};

use crate::edit::Edit;
use std::alloc::{AllocError, Global};

// Puts a byte and then others behind those that are there.
fn put(bytes: &mut Vec<u8>, first: u8, others: &[u8]) -> Result<(), AllocError>
    ensures { OnOk result (bytes.new.items ≡ bytes.old.items ++ (first ∷ others.now)) }
{
    bytes.push(first)?;
    bytes.extend_from_slice(others)
}

// Puts the bytes from the edit's place on, edited, behind those before it.
fn put_rest(bytes: &mut Vec<u8>, edit: Edit, rest: &[u8]) -> Result<(), AllocError>
    ensures { OnOk result (bytes.new.items ≡ bytes.old.items ++ edited edit rest.now) }
{
    let [byte, behind @ ..] = rest else {
        return Ok(());
    };
    match edit {
        Edit::Whole => bytes.extend_from_slice(rest),
        Edit::Cut => Ok(()),
        Edit::Removed => bytes.extend_from_slice(behind),
        Edit::Doubled => put(bytes, *byte, rest),
        Edit::Replaced(new) => put(bytes, new, behind),
    }
}

// A place in a family file of the input, and the file's number there.
#[derive(Clone, Copy)]
pub(crate) struct Spot<'a> {
    pub(crate) number: usize,
    pub(crate) file: &'a [u8],
    pub(crate) place: usize,
    ghost within: { place ≤ length file.now },
}

impl Spot<'_> {
    // The file with the edit at the place.
    pub(crate) fn damaged(&self, heap: Global, edit: Edit) -> Result<Vec<u8>, AllocError>
        ensures { IfOk result (λ v. v.items ≡ take self.now.place self.now.file.now ++ edited edit (drop self.now.place self.now.file.now)) }
    {
        let (before, rest) = self.file.split_at(self.place);
        let mut bytes = Vec::from_slice(heap, before)?;
        put_rest(&mut bytes, edit, rest)?;
        Ok(bytes)
    }
}
