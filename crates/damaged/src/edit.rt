// Edits that damage a file.
ghost use Rattle.std.specs.Prelude.{Some};
ghost use Rattle.damaged.specs.Edits.{edit_text};

use std::fmt;

// What is done to a file at one place.
#[derive(Clone, Copy)]
pub(crate) enum Edit {
    Whole,
    Cut,
    Removed,
    Doubled,
    Replaced(u8),
}

// Every edit but `Whole`. The bytes are each mark and class of token, and the edges of the classes.
pub(crate) const EDITS: [Edit; 29] = [
    Edit::Cut,
    Edit::Removed,
    Edit::Doubled,
    Edit::Replaced(b'='),
    Edit::Replaced(b'|'),
    Edit::Replaced(b';'),
    Edit::Replaced(b':'),
    Edit::Replaced(b'@'),
    Edit::Replaced(b'"'),
    Edit::Replaced(b'a'),
    Edit::Replaced(b'b'),
    Edit::Replaced(b'Z'),
    Edit::Replaced(b'_'),
    Edit::Replaced(b'0'),
    Edit::Replaced(b'7'),
    Edit::Replaced(b'9'),
    Edit::Replaced(b' '),
    Edit::Replaced(b'\n'),
    Edit::Replaced(b'~'),
    Edit::Replaced(b'['),
    Edit::Replaced(b'{'),
    Edit::Replaced(b'/'),
    Edit::Replaced(b'!'),
    Edit::Replaced(0x00),
    Edit::Replaced(0x0B),
    Edit::Replaced(0x1F),
    Edit::Replaced(0x7F),
    Edit::Replaced(0x80),
    Edit::Replaced(0xFF),
];

// The edit and its byte, as a sheet has them.
impl fmt::Display for Edit {
    ghost output = { λ e. Some (edit_text e) };

    fn fmt<W: fmt::Write>(&self, f: &mut fmt::Formatter<W>) -> fmt::Result {
        match self {
            Edit::Whole => write!(f, "whole -"),
            Edit::Cut => write!(f, "cut -"),
            Edit::Removed => write!(f, "removed -"),
            Edit::Doubled => write!(f, "doubled -"),
            Edit::Replaced(new) => write!(f, "replaced {new}"),
        }
    }
}
