// Reads a request line and a family file, and prints the totals sheet.
#![tactic(auto)]

use sheets::total_sheet::print_totals;
use std::io;
use std::io::{BufWriter, Read, Write};

// Both programs have these lines: a public function for both would have to ask that the printing may be called.
fn main(rt: HostRuntime) -> io::Result<()> {
    let mut input = Vec::new(rt.alloc());
    rt.stdin().read_to_end(&mut input)?;
    let mut out = BufWriter::new(rt.alloc(), rt.stdout())?;
    print_totals(&mut out, rt.alloc(), &input)?;
    out.flush()
}
