// Tokens out of bytes: blanks are passed over, and each token is as long as it can be.
ghost use Rattle.std.specs.Prelude.{◌≡◌, ℕ, Bool, ◌<◌, ◌≤◌, length, drop};
ghost use Rattle.std.specs.List.{prefix_len};
ghost use Rattle.files.specs.Bytes.{blank, letter, digit, name_byte, plain};
ghost use Rattle.files.specs.Scans.{scan_of, name_at, digits_at, literal_at, token_at, scan, next_place};
ghost use Rattle.files.specs.Starts.{Computes, RunAt, token_found};

use crate::fault::{Fault, Span};
use crate::text::Text;
use crate::token::{Spanned, Token};

// Four comparisons: made of a `matches!`, the test of each byte took three times the instructions.
fn is_blank(b: u8) -> bool
    ensures { result ≡ blank b }
{
    b == b' ' || b == b'\t' || b == b'\n' || b == b'\r'
}

fn is_letter(b: u8) -> bool
    ensures { result ≡ letter b }
{
    b.is_ascii_alphabetic()
}

fn is_digit(b: u8) -> bool
    ensures { result ≡ digit b }
{
    b.is_ascii_digit()
}

// Whether the byte may stand in a name, behind its first letter.
pub fn is_name_byte(b: u8) -> bool
    ensures { result ≡ name_byte b }
{
    is_letter(b) || is_digit(b) || b == b'_'
}

// Whether the byte may stand in a literal.
fn is_plain(b: u8) -> bool
    ensures { result ≡ plain b }
{
    matches!(b, b' '..=b'~') && b != b'"'
}

// How long the run of bytes that pass the test is, at the front of `bytes`.
fn run_length<F: Fn(u8) -> bool>(bytes: &[u8], passes: F) -> usize
    requires { F.IsAlwaysCallable passes }
    ensures value { (p : ℕ → Bool) → Computes (F.post passes) p → result ≡ prefix_len p bytes.now }
    ensures within { result ≤ length bytes.now }
{
    bytes.iter().take_while(|b| passes(**b)).count()
}

// A place in the file where a byte stands.
#[derive(Clone, Copy)]
struct Start<'a> {
    file: &'a [u8],
    at: usize,
    ghost inside: { at < length file.now },
}

impl<'a> Start<'a> {
    // The text that begins here and goes on with bytes that pass the test; its span, if it is too long.
    fn run<const MOST: usize, F: Fn(u8) -> bool>(self, passes: F) -> Result<Text<'a, MOST>, Span>
        requires { F.IsAlwaysCallable passes }
        ensures { (p : ℕ → Bool) → Computes (F.post passes) p → RunAt p MOST self.entry.file.now self.entry.at result }
    {
        let length = 1 + run_length(&self.file[self.at + 1..], passes);
        let run = &self.file[self.at..self.at + length];
        Text::new(run).ok_or(Span {
            place: self.at,
            length,
        })
    }

    // The name that begins here. A `match`, as in `digits`: for `map` and `map_err` the check finds no proof.
    fn name(self) -> Result<Token<'a>, Fault>
        ensures { token_found self.entry.at result ≡ name_at self.entry.file.now self.entry.at }
    {
        match self.run(is_name_byte) {
            Ok(text) => Ok(Token::Name(text)),
            Err(at) => Err(Fault::LongName(at)),
        }
    }

    // The digit run that begins here.
    fn digits(self) -> Result<Token<'a>, Fault>
        ensures { token_found self.entry.at result ≡ digits_at self.entry.file.now self.entry.at }
    {
        match self.run(is_digit) {
            Ok(run) => Ok(Token::Digits(run)),
            Err(at) => Err(Fault::LongDigits(at)),
        }
    }

    // The literal whose opening mark stands here.
    fn literal(self) -> Result<Token<'a>, Fault>
        ensures { token_found self.entry.at result ≡ literal_at self.entry.file.now self.entry.at }
    {
        let inner = &self.file[self.at + 1..];
        let length = run_length(inner, is_plain);
        if inner.get(length) != Some(&b'"') {
            return Err(Fault::BadLiteral { place: self.at });
        }
        Text::new(&inner[..length])
            .map(Token::Literal)
            .ok_or(Fault::BadLiteral { place: self.at })
    }

    // The token that begins here, told by its first character.
    fn token(self) -> Result<Token<'a>, Fault>
        ensures { token_found self.entry.at result ≡ token_at self.entry.file.now self.entry.at }
    {
        let b = self.file[self.at];
        match b as char {
            '=' => Ok(Token::Equals),
            '|' => Ok(Token::Bar),
            ';' => Ok(Token::Semicolon),
            ':' => Ok(Token::Colon),
            '@' => Ok(Token::At),
            '"' => self.literal(),
            _ if is_letter(b) => self.name(),
            _ if is_digit(b) => self.digits(),
            _ => Err(Fault::StrayByte { place: self.at }),
        }
    }
}

// The reader of tokens: the file, and how far it has been read.
#[derive(Drop)]
pub(crate) struct Lexer<'a> {
    file: &'a [u8],
    at: usize,
    ghost within: { at ≤ length file.now },
}

impl<'a> Lexer<'a> {
    pub(crate) fn new(file: &'a [u8]) -> Lexer<'a>
        ensures { (result.file.now ≡ file.now) × (result.at ≡ 0) }
    {
        Lexer { file, at: 0 }
    }

    // The next token, or none at the end of the file. A refusal leaves the lexer where it was.
    pub(crate) fn next_token(&mut self) -> Result<Option<Spanned<'a>>, Fault>
        ensures value { scan_of result ≡ scan self.old.file.now self.old.at }
        ensures moved { self.new.at ≡ next_place self.old.at (length self.old.file.now) (scan_of result) }
        ensures same { self.new.file.now ≡ self.old.file.now }
    {
        let at = self.at + run_length(&self.file[self.at..], is_blank);
        if at == self.file.len() {
            self.at = at;
            return Ok(None);
        }
        let start = Start {
            file: self.file,
            at,
        };
        let token = start.token()?;
        let length = token.length();
        self.at = at + length;
        Ok(Some(Spanned {
            token,
            at: Span { place: at, length },
        }))
    }
}
