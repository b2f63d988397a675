// What a token says: a part of the file, no longer than it may be.
ghost use Rattle.std.specs.Prelude.{◌≡◌, ◌<◌, ◌≤◌, length, MatchOption};

// At most MOST of the file's bytes.
#[derive(Clone, Copy)]
pub(crate) struct Text<'a, const MOST: usize> {
    bytes: &'a [u8],
    ghost short: { length bytes.now ≤ MOST },
}

// What a name says.
pub(crate) type NameText<'a> = Text<'a, 24>;

// What a literal says.
pub(crate) type LiteralText<'a> = Text<'a, 24>;

// A run of digits.
pub(crate) type DigitRun<'a> = Text<'a, 4>;

impl<'a, const MOST: usize> Text<'a, MOST> {
    // The bytes as a text, unless they are too many.
    pub(crate) fn new(bytes: &'a [u8]) -> Option<Text<'a, MOST>>
        ensures { MatchOption result (MOST < length bytes.now) (λ t. (length bytes.now ≤ MOST) × (t.bytes.now ≡ bytes.now)) }
    {
        if bytes.len() > MOST {
            None
        } else {
            Some(Text { bytes })
        }
    }

    // The bytes themselves.
    pub(crate) fn bytes(self) -> &'a [u8]
        ensures bytes { result.now ≡ self.entry.bytes.now }
        ensures short { length result.now ≤ MOST }
    {
        self.bytes
    }
}
