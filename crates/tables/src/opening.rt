// Opening a table, and what an open table is asked for.
ghost use Rattle.std.specs.Prelude.{◌≡◌, ℕ, ◌+◌, ◌-◌, ◌*◌, ◌<◌, ◌≤◌, [], length, IfErr, MatchOption, Some, None};
ghost use Rattle.files.specs.declared.fault.Fault.TheVariants.{OutOfMemory};
ghost use Rattle.theory.specs.Tables.{rows};
ghost use Rattle.tables.specs.Tables.{rules_of, rules_open, names_open, entries, total_at, Totals};
ghost use Rattle.tables.specs.Counts.{count_kind};
ghost use Rattle.tables.specs.Openings.{first_unequal, FirstWrong, Opened, family_open, top_open, count_in, count_at};

use crate::checked::Checked;
use crate::count::Count;
use crate::filling::fill_all;
use crate::open_table::OpenTable;
use crate::scratch::Scratch;
use crate::shape::Shape;
use families::family::Family;
use files::fault::Fault;
use std::alloc::Global;

impl Scratch {
    // Room for the totals, all reserved here.
    pub fn new(heap: Global) -> Result<Scratch, Fault>
        ensures { IfErr result (λ e. e ≡ OutOfMemory) }
    {
        let totals = Vec::from_elem(heap, Count { value: 0 }, 6560)?;
        Ok(Scratch { totals })
    }

    // The first index at which an entry is not its total.
    fn first_wrong(&mut self, shape: Shape, family: &Family, table: &[Count]) -> Option<usize>
        requires rows { shape.rows ≡ rows (rules_of family.now) }
        requires room { entries shape.rows shape.top ≤ length table.now }
        ensures { MatchOption result (Totals count_kind (rules_of family.now) shape.top table.now) (FirstWrong (rules_of family.now) shape.top table.now) }
    {
        fill_all(shape, family, &mut self.totals);
        let size = shape.entries();
        let totals = &self.totals[..size];
        first_difference(&table[..size], totals)
    }
}

// The first index at which the two differ.
fn first_difference(table: &[Count], totals: &[Count]) -> Option<usize>
    ensures { result ≡ first_unequal table.now totals.now }
{
    table
        .iter()
        .zip(totals)
        .position(|(entry, total)| entry != total)
}

impl Checked<'_, '_> {
    // The entry of a row at a size; 0 where there is none.
    fn count(&self, row: usize, size: usize) -> u64
        ensures value { result ≡ count_in (Some self.now) row size }
        ensures total { row < rows (rules_of self.now.family.now) → size ≤ self.now.shape.top → result ≡ (total_at count_kind (rules_of self.now.family.now) row size).value }
    {
        if row < self.shape.rows && size <= self.shape.top {
            self.table[self.shape.place(row, size)].value
        } else {
            0
        }
    }
}

impl<'f, 't> OpenTable<'f, 't> {
    // A place for a table; no family is open in it.
    pub fn new(scratch: Scratch) -> OpenTable<'f, 't>
        ensures { result.checked ≡ None }
    {
        OpenTable {
            checked: None,
            scratch,
        }
    }

    // Opens the table, where each entry is its total. A refusal leaves what is open as it was.
    pub fn open(&mut self, family: &'f Family, table: &'t [Count], top: usize) -> Result<(), Fault>
        ensures { Opened result self.old self.new family.entry table.entry top }
    {
        let shape = Shape::new(family, table.len(), top)?;
        if let Some(index) = self.scratch.first_wrong(shape, family, table) {
            return Err(Fault::WrongEntry { index });
        }
        self.checked = Some(Checked {
            family,
            table,
            shape,
        });
        Ok(())
    }

    // The family that is open.
    pub fn family(&self) -> Option<&'f Family>
        ensures { result ≡ family_open self.now }
    {
        self.checked.map(|checked| checked.family)
    }

    // How many names there are; 0 where none is open.
    pub fn names(&self) -> usize
        ensures { result ≡ names_open (family_open self.now) }
    {
        self.checked.map_or(0, |checked| checked.family.names())
    }

    // The largest size; 0 where none is open.
    pub fn top(&self) -> usize
        ensures { result ≡ top_open self.now }
    {
        self.checked.map_or(0, |checked| checked.shape.top)
    }

    // The entry of a row at a size; 0 where there is none.
    pub fn count(&self, row: usize, size: usize) -> u64
        ensures value { result ≡ count_at self.now row size }
        ensures total { row < rows (rules_open (family_open self.now)) → size ≤ top_open self.now → result ≡ (total_at count_kind (rules_open (family_open self.now)) row size).value }
    {
        self.checked.map_or(0, |checked| checked.count(row, size))
    }
}
