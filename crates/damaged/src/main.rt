// Damages family files in every place, and prints how each is read and adopted.
//
// Each line of standard input, without its line feed, is a family file. The first line printed has the names of the
// values; each further line is one damaged file: the number of the file, the place, the edit and its byte (- for none),
// the refusal's number, place and length (0 0 0 where the file is adopted), the number of names and of items, and for
// each name whether it can be empty, 1 or 0 (0 0 - where the file is refused).
//
// `stdout` is made by another program, from the documents alone: tools/expect_damage.py.
#![tactic(auto)]

mod damage;
mod edit;

use damage::Spot;
use edit::{EDITS, Edit};
use families::family::Family;
use files::draft::Draft;
use files::fault::Fault;
use std::alloc::Global;
use std::io;
use std::io::{BufWriter, Write};

// What the program reports where memory fails.
fn out_of_memory(_fault: Fault) -> io::Error {
    io::Error::from(io::ErrorKind::OutOfMemory)
}

// Where the lines go. One family serves all files: it is written or left as it was.
#[derive(Drop)]
struct Sheet<W> {
    out: W,
    family: Family,
    heap: Global,
}

impl<W: Write> Sheet<W> {
    // Reads a file and adopts what was read.
    fn adopt(&mut self, file: &[u8]) -> Result<(), Fault> {
        let mut draft = Draft::new(self.heap)?;
        draft.read(file)?;
        self.family.adopt(draft)
    }

    // A digit for each name: 1 where it can be empty.
    fn write_empty(&mut self) -> io::Result<()> {
        for name in 0..self.family.names() {
            let digit = u8::from(self.family.nullable(name));
            write!(self.out, "{digit}")?;
        }
        Ok(())
    }

    // The values of an adopted family.
    fn write_adopted(&mut self) -> io::Result<()> {
        let names = self.family.names();
        let items = self.family.items();
        write!(self.out, "0 0 0 {names} {items} ")?;
        self.write_empty()?;
        writeln!(self.out)
    }

    // The values of a refusal. Want of memory is none: it ends the program.
    fn write_refused(&mut self, fault: Fault) -> io::Result<()> {
        if let Fault::OutOfMemory = fault {
            return Err(out_of_memory(fault));
        }
        writeln!(self.out, "{fault} 0 0 -")
    }

    // The line of one edit.
    fn write_case(&mut self, spot: Spot<'_>, edit: Edit) -> io::Result<()> {
        let file = spot.damaged(self.heap, edit)?;
        write!(self.out, "{} {} {edit} ", spot.number, spot.place)?;
        match self.adopt(&file) {
            Ok(()) => self.write_adopted(),
            Err(fault) => self.write_refused(fault),
        }
    }

    // The lines of all edits at a place.
    fn write_place(&mut self, spot: Spot<'_>) -> io::Result<()> {
        for edit in EDITS {
            self.write_case(spot, edit)?;
        }
        Ok(())
    }

    // The lines of a file: undamaged, and damaged in each place.
    fn write_file(&mut self, number: usize, file: &[u8]) -> io::Result<()> {
        self.write_case(
            Spot {
                number,
                file,
                place: 0,
            },
            Edit::Whole,
        )?;
        for place in 0..file.len() {
            self.write_place(Spot {
                number,
                file,
                place,
            })?;
        }
        Ok(())
    }

    // The lines of all files, behind the line of names.
    fn write_all(&mut self, input: &str) -> io::Result<()> {
        writeln!(
            self.out,
            "file place edit byte refused at length names items empty"
        )?;
        for (number, line) in input.lines().enumerate() {
            self.write_file(number, line.as_bytes())?;
        }
        self.out.flush()
    }
}

fn main(rt: HostRuntime) -> io::Result<()> {
    let heap = rt.alloc();
    let input = io::read_to_string(heap, rt.stdin())?;
    let out = BufWriter::new(heap, rt.stdout())?;
    let family = Family::new(heap).map_err(out_of_memory)?;
    let mut sheet = Sheet { out, family, heap };
    sheet.write_all(&input)
}
