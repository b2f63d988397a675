// The tokens of a family file.
ghost use Rattle.std.specs.Prelude.{◌≡◌, length};
ghost use Rattle.files.specs.Scans.{word_of};
ghost use Rattle.files.specs.Tokens.{written};

use crate::fault::Span;
use crate::text::{DigitRun, LiteralText, NameText};

// A token is a part of the file: a name, a literal's inside and a digit run borrow the file's bytes.
#[derive(Clone, Copy)]
pub(crate) enum Token<'a> {
    Name(NameText<'a>),
    Literal(LiteralText<'a>),
    Digits(DigitRun<'a>),
    Equals,
    Bar,
    Semicolon,
    Colon,
    At,
}

impl Token<'_> {
    // How long it is in the file: a literal has its quotation marks there.
    pub(crate) fn length(self) -> usize
        ensures { result ≡ length (written (word_of self.entry)) }
    {
        match self {
            Token::Name(text) => text.bytes().len(),
            Token::Literal(text) => text.bytes().len() + 2,
            Token::Digits(run) => run.bytes().len(),
            _ => 1,
        }
    }
}

// A token with its place in the file and its length there.
#[derive(Clone, Copy)]
pub(crate) struct Spanned<'a> {
    pub(crate) token: Token<'a>,
    pub(crate) at: Span,
}
