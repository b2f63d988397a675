// The layout sheet: every layout of a name up to a size, by the rising order.
use crate::asked::Asked;
use crate::lines::{push_choice_line, push_text_line};
use crate::request::Format;
use crate::sheet::print_sheet;
use crate::stop::Stop;
use drawing::drawing::draw;
use drawing::order::Rising;
use drawing::pending::Pending;
use drawing::printing::print;
use std::alloc::Global;
use std::io;
use std::io::Write;
use tables::open_table::OpenTable;
use tables::scratch::Scratch;

// The places of a list and a stack, and the bytes of a page.
const PLACES: usize = 4096;

const PAGE: usize = 16384;

// Where the lines go, what they are of, and the memory that they are made in.
#[derive(Drop)]
struct Sheet<'a, W> {
    out: W,
    asked: &'a Asked<'a>,
    opened: &'a OpenTable<'a, 'a>,
    list: Vec<u8>,
    stack: Vec<Pending>,
    page: Vec<u8>,
    line: Vec<u8>,
    heap: Global,
}

impl<W: Write> Sheet<'_, W> {
    // One line: the layout of a number.
    fn write_layout(&mut self, size: usize, number: u64) -> Result<(), Stop> {
        let name = self.asked.name;
        let written = draw(
            self.opened,
            &Rising,
            name,
            size,
            number,
            &mut self.list,
            &mut self.stack,
        )?;
        let choices = &self.list[0..written];
        self.line.clear();
        match self.asked.request.format {
            Format::Choices => push_choice_line(
                &mut self.line,
                self.heap,
                size as u64,
                number,
                choices,
            )?,
            Format::Text => {
                let mut mark = 0;
                print(
                    &self.asked.family,
                    name,
                    choices,
                    &mut self.stack,
                    &mut self.page,
                    &mut mark,
                )?;
                let text = &self.page[0..mark];
                push_text_line(&mut self.line, self.heap, size as u64, number, text)?;
            }
        }
        self.out.write_all(&self.line)?;
        Ok(())
    }

    // The lines of one size.
    fn write_size(&mut self, size: usize) -> Result<(), Stop> {
        for number in 0..self.opened.count(self.asked.name, size) {
            self.write_layout(size, number)?;
        }
        Ok(())
    }

    // The line of names. Two headings: an `impl Display` of the format would be longer.
    fn write_heading(&mut self) -> io::Result<()> {
        match self.asked.request.format {
            Format::Choices => writeln!(self.out, "size number choices"),
            Format::Text => writeln!(self.out, "size number text"),
        }
    }

    // The lines of all sizes, behind the line of names.
    fn write_sizes(&mut self) -> Result<(), Stop> {
        self.write_heading()?;
        for size in 0..=self.opened.top() {
            self.write_size(size)?;
        }
        Ok(())
    }
}

fn write_layouts<W: Write>(out: &mut W, heap: Global, asked: &Asked<'_>) -> Result<(), Stop> {
    let table = asked.table(heap)?;
    let mut opened = OpenTable::new(Scratch::new(heap)?);
    opened.open(&asked.family, &table, asked.request.top)?;
    let mut sheet = Sheet {
        out,
        asked,
        opened: &opened,
        list: Vec::from_elem(heap, 0, PLACES)?,
        stack: Vec::from_elem(heap, Pending::vacant(), PLACES)?,
        page: Vec::from_elem(heap, 0, PAGE)?,
        line: Vec::new(heap),
        heap,
    };
    sheet.write_sizes()
}

// Prints the layout sheet for an input: a request line and a family file. A refusal is the sheet's last two lines.
pub fn print_layouts<W: Write>(out: &mut W, heap: Global, input: &[u8]) -> io::Result<()> {
    print_sheet(out, heap, input, write_layouts)
}
