// What all sheets have in common: they are of what is asked for, and a refusal ends them.
use crate::asked::Asked;
use crate::lines::push_refusal;
use crate::stop::Stop;
use files::fault::Fault;
use std::alloc::Global;
use std::io;
use std::io::Write;

// Writes the two lines of a refusal.
fn write_refusal<W: Write>(out: &mut W, heap: Global, fault: Fault) -> io::Result<()> {
    let mut lines = Vec::new(heap);
    push_refusal(&mut lines, heap, fault)?;
    out.write_all(&lines)
}

// Prints the sheet that `write` writes for an input. A refusal is the sheet's last two lines.
pub(crate) fn print_sheet<W: Write, F: FnOnce(&mut W, Global, &Asked<'_>) -> Result<(), Stop>>(
    out: &mut W,
    heap: Global,
    input: &[u8],
    write: F,
) -> io::Result<()>
    requires { F.IsAlwaysCallable write }
{
    match Asked::read(heap, input).and_then(|asked| write(out, heap, &asked)) {
        Ok(()) => Ok(()),
        Err(Stop::Refused(fault)) => write_refusal(out, heap, fault),
        Err(Stop::Failed(error)) => Err(error),
    }
}
