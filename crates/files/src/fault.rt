// The refusals, one for each question that a call may ask.
ghost use Rattle.std.specs.Prelude.{◌≡◌, Some};
ghost use Rattle.files.specs.Faults.{fault_number, fault_place, fault_length, fault_text};
ghost use Rattle.files.specs.declared.fault.Fault.TheVariants.{OutOfMemory};

use std::alloc::AllocError;
use std::fmt;

// A part of a file, or of a choice list: where it begins, and how far it reaches.
#[derive(Clone, Copy)]
pub struct Span {
    pub place: usize,
    pub length: usize,
}

// Which question was answered no, with what tells the place. `OutOfMemory` is no question:
// it is given only where something is made.
#[derive(Clone, Copy)]
pub enum Fault {
    FileTooLong,
    StrayByte { place: usize },
    LongName(Span),
    BadLiteral { place: usize },
    LongDigits(Span),
    Unexpected(Span),
    NameTaken(Span),
    NoRoom(Span),
    NoRule { place: usize },
    UndefinedName(Span),
    EmptyCycle(Span),
    TopTooLarge,
    TableTooShort,
    WrongEntry { index: usize },
    UnknownName,
    SizeTooLarge,
    TotalCapped,
    NumberTooLarge,
    StackTooShort,
    ListTooShort,
    UnknownChoice { place: usize },
    WrongEnd(Span),
    PageTooShort,
    BadRange,
    NothingDue,
    TooFewDue,
    OutOfMemory,
}

impl Fault {
    // The number of the question, as sheets have it; 0 for want of memory.
    pub fn number(self) -> u8
        ensures { result ≡ fault_number self }
    {
        match self {
            Fault::FileTooLong => 1,
            Fault::StrayByte { .. } => 2,
            Fault::LongName(_) => 3,
            Fault::BadLiteral { .. } => 4,
            Fault::LongDigits(_) => 5,
            Fault::Unexpected(_) => 6,
            Fault::NameTaken(_) => 7,
            Fault::NoRoom(_) => 8,
            Fault::NoRule { .. } => 9,
            Fault::UndefinedName(_) => 10,
            Fault::EmptyCycle(_) => 11,
            Fault::TopTooLarge => 12,
            Fault::TableTooShort => 13,
            Fault::WrongEntry { .. } => 14,
            Fault::UnknownName => 15,
            Fault::SizeTooLarge => 16,
            Fault::TotalCapped => 17,
            Fault::NumberTooLarge => 18,
            Fault::StackTooShort => 19,
            Fault::ListTooShort => 20,
            Fault::UnknownChoice { .. } => 21,
            Fault::WrongEnd(_) => 22,
            Fault::PageTooShort => 23,
            Fault::BadRange => 24,
            Fault::NothingDue => 25,
            Fault::TooFewDue => 26,
            Fault::OutOfMemory => 0,
        }
    }

    // Where it is, and how far it reaches; 0 and 0 where nothing is said.
    fn span(self) -> Span
        ensures place { result.place ≡ fault_place self }
        ensures length { result.length ≡ fault_length self }
    {
        match self {
            Fault::StrayByte { place }
            | Fault::BadLiteral { place }
            | Fault::UnknownChoice { place } => Span { place, length: 1 },
            Fault::WrongEntry { index } => Span {
                place: index,
                length: 1,
            },
            Fault::NoRule { place } => Span { place, length: 0 },
            Fault::LongName(at)
            | Fault::LongDigits(at)
            | Fault::Unexpected(at)
            | Fault::NameTaken(at)
            | Fault::NoRoom(at)
            | Fault::UndefinedName(at)
            | Fault::EmptyCycle(at)
            | Fault::WrongEnd(at) => at,
            _ => Span {
                place: 0,
                length: 0,
            },
        }
    }

    // Where it is: a byte of the file, an index of the table or a place in the choice list; 0 where nothing is said.
    pub fn place(self) -> usize
        ensures { result ≡ fault_place self }
    {
        self.span().place
    }

    // How far it reaches; 0 where nothing is said.
    pub fn length(self) -> usize
        ensures { result ≡ fault_length self }
    {
        self.span().length
    }
}

// The number, the place and the length, as a sheet has them.
impl fmt::Display for Fault {
    ghost output = { λ e. Some (fault_text e) };

    fn fmt<W: fmt::Write>(&self, f: &mut fmt::Formatter<W>) -> fmt::Result {
        let number = self.number();
        let place = self.place();
        let length = self.length();
        write!(f, "{number} {place} {length}")
    }
}

// Want of memory is a refusal too.
impl From<AllocError> for Fault {
    ghost from_gives = { λ _ e. e ≡ OutOfMemory };

    fn from(_e: AllocError) -> Fault {
        Self::OutOfMemory
    }
}
