// The first line of a program's input: a name, a top size and a format, one space between.
ghost use Rattle.std.specs.Prelude.{◌<◌, ◌^◌};

use files::fault::{Fault, Span};
use files::lexer::is_name_byte;
use std::str;

// The first line has another form.
const MALFORMED: Fault = Fault::Unexpected(Span {
    place: 0,
    length: 0,
});

// Which sheet is asked for: the choice sheet or the text sheet.
#[derive(Clone, Copy)]
pub(crate) enum Format {
    Choices,
    Text,
}

impl TryFrom<u8> for Format {
    type Error = Fault;

    fn try_from(letter: u8) -> Result<Format, Fault> {
        match letter {
            b'c' => Ok(Format::Choices),
            b't' => Ok(Format::Text),
            _ => Err(MALFORMED),
        }
    }
}

// What is asked for, and the family file behind the line.
#[derive(Clone, Copy)]
pub(crate) struct Request<'a> {
    pub(crate) name: &'a [u8],
    pub(crate) top: usize,
    pub(crate) format: Format,
    pub(crate) file: &'a [u8],
    ghost small: { top < 2 ^ 16 },
}

// The longest front of bytes that `is_in` takes, and what is behind it.
fn split_run<F: Fn(&u8) -> bool>(input: &[u8], is_in: F) -> (&[u8], &[u8])
    requires { F.IsAlwaysCallable is_in }
{
    let end = input.iter().position(|b| !is_in(b));
    input.split_at(end.unwrap_or(input.len()))
}

// The number of a run of one to four digits.
fn top_size(run: &[u8]) -> Option<u16> {
    if run.len() > 4 {
        return None;
    }
    str::from_utf8(run).ok()?.parse().ok()
}

// Reads the line.
impl<'a> TryFrom<&'a [u8]> for Request<'a> {
    type Error = Fault;

    fn try_from(input: &'a [u8]) -> Result<Request<'a>, Fault> {
        let (name, rest) = split_run(input, |b| is_name_byte(*b));
        if !name.first().is_some_and(u8::is_ascii_alphabetic) {
            return Err(MALFORMED);
        }
        let [b' ', rest @ ..] = rest else {
            return Err(MALFORMED);
        };
        let (run, rest) = split_run(rest, u8::is_ascii_digit);
        let top = top_size(run).ok_or(MALFORMED)?;
        let [b' ', letter, b'\n', file @ ..] = rest else {
            return Err(MALFORMED);
        };
        Ok(Request {
            name,
            top: usize::from(top),
            format: Format::try_from(*letter)?,
            file,
        })
    }
}
