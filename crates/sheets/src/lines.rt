// The lines of the sheets: one space between the values and a line feed after each line. Each is put behind what
// the buffer holds.
ghost use Rattle.std.specs.Prelude.{◌≡◌, ◌++◌, decimal, OnOk, Some};
ghost use Rattle.files.specs.Faults.{fault_number, fault_place, fault_length};
ghost use Rattle.sheets.specs.Lines.{dotted, choice_line, text_line, total_line, refusal_lines, shown_text};

use files::fault::Fault;
use std::alloc::{AllocError, Global};
use std::fmt;

// Choices, joined by dots.
#[derive(Clone, Copy)]
struct Dotted<'a> {
    choices: &'a [u8],
}

impl fmt::Display for Dotted<'_> {
    ghost output = { λ d. Some (dotted d.choices.now) };

    fn fmt<W: fmt::Write>(&self, f: &mut fmt::Formatter<W>) -> fmt::Result {
        let Some((first, rest)) = self.choices.split_first() else {
            return Ok(());
        };
        write!(f, "{first}")?;
        for choice in rest {
            write!(f, ".{choice}")?;
        }
        Ok(())
    }
}

// A number, or a dash where it is absent.
#[derive(Clone, Copy)]
struct Shown {
    total: Option<u64>,
}

impl fmt::Display for Shown {
    ghost output = { λ s. Some (shown_text s.total) };

    fn fmt<W: fmt::Write>(&self, f: &mut fmt::Formatter<W>) -> fmt::Result {
        match self.total {
            Some(total) => write!(f, "{total}"),
            None => write!(f, "-"),
        }
    }
}

// A line of a choice sheet.
pub fn push_choice_line(
    line: &mut Vec<u8>,
    heap: Global,
    size: u64,
    number: u64,
    choices: &[u8],
) -> Result<(), AllocError>
    ensures { OnOk result (line.new.items ≡ line.old.items ++ choice_line size number choices.now) }
{
    let text = format!(in heap; "{size} {number} {}\n", Dotted { choices })?;
    line.extend_from_slice(text.as_bytes())
}

// A line of a text sheet. The text is bytes, so it is put as such, and not printed as in a choice sheet's line.
pub fn push_text_line(
    line: &mut Vec<u8>,
    heap: Global,
    size: u64,
    number: u64,
    text: &[u8],
) -> Result<(), AllocError>
    ensures { OnOk result (line.new.items ≡ line.old.items ++ text_line size number text.now) }
{
    let values = format!(in heap; "{size} {number} ")?;
    line.extend_from_slice(values.as_bytes())?;
    line.extend_from_slice(text)?;
    line.push(b'\n')?;
    Ok(())
}

// A line of a totals sheet.
pub fn push_total_line(
    line: &mut Vec<u8>,
    heap: Global,
    letter: u8,
    name: &[u8],
    size: u64,
    total: Option<u64>,
) -> Result<(), AllocError>
    ensures { OnOk result (line.new.items ≡ line.old.items ++ total_line letter name.now size total) }
{
    line.extend_from_slice(&[letter, b' '])?;
    line.extend_from_slice(name)?;
    let values = format!(in heap; " {size} {}\n", Shown { total })?;
    line.extend_from_slice(values.as_bytes())
}

// The line of names and the values of a refusal.
pub fn push_refusal(line: &mut Vec<u8>, heap: Global, fault: Fault) -> Result<(), AllocError>
    ensures { OnOk result (line.new.items ≡ line.old.items ++ refusal_lines (fault_number fault) (fault_place fault) (fault_length fault)) }
{
    let values = format!(in heap; "{fault}\n")?;
    line.extend_from_slice(b"refused place length\n")?;
    line.extend_from_slice(values.as_bytes())?;
    Ok(())
}
