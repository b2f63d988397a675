// The totals sheet: a name's totals up to a size, counts first and then the cheapest costs.
use crate::asked::Asked;
use crate::lines::push_total_line;
use crate::sheet::print_sheet;
use crate::stop::Stop;
use std::alloc::Global;
use std::io;
use std::io::Write;
use tables::cheapest::Cheapest;
use tables::count::Count;
use tables::kind::WeightKind;

// The lines of one kind, from a table of that kind: the names' rows come first, with an entry for each size.
fn write_kind<K: WeightKind, W: Write>(
    out: &mut W,
    heap: Global,
    asked: &Asked<'_>,
    table: &[K],
) -> io::Result<()> {
    let mut line = Vec::new(heap);
    let name = asked.request.name;
    let row = table.chunks(asked.request.top + 1).nth(asked.name);
    for (size, total) in row.unwrap_or(&[]).iter().enumerate() {
        line.clear();
        push_total_line(&mut line, heap, K::LETTER, name, size as u64, total.show())?;
        out.write_all(&line)?;
    }
    Ok(())
}

fn write_totals<W: Write>(out: &mut W, heap: Global, asked: &Asked<'_>) -> Result<(), Stop> {
    let counts = asked.table::<Count>(heap)?;
    let costs = asked.table::<Cheapest>(heap)?;
    writeln!(out, "kind name size total")?;
    write_kind(out, heap, asked, &counts)?;
    write_kind(out, heap, asked, &costs)?;
    Ok(())
}

// Prints the totals sheet for an input: a request line and a family file. A refusal is the sheet's last two lines.
pub fn print_totals<W: Write>(out: &mut W, heap: Global, input: &[u8]) -> io::Result<()> {
    print_sheet(out, heap, input, write_totals)
}
