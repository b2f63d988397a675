// What the sheets print.
use sheets::layout_sheet::print_layouts;
use sheets::total_sheet::print_totals;
use std::alloc::Global;
use std::io;
use std::process::Abort;
use std::test::Fail;

// That a sheet is printed so for an input.
fn prints<F: FnOnce(&mut Vec<u8>, Global, &[u8]) -> io::Result<()>>(
    rt: &(impl Abort + AllocGlobal),
    print: F,
    input: &[u8],
    sheet: &[u8],
) -> Result<(), Fail>
    requires { F.IsAlwaysCallable print }
{
    let mut out = Vec::new(rt.alloc());
    print(&mut out, rt.alloc(), input)?;
    assert!(rt; out.as_slice() == sheet);
    Ok(())
}

// A first line of another form is refused before the file is read.
#[test]
fn first_lines_have_one_form(rt: HostRuntime) -> Result<(), Fail> {
    let form = b"refused place length\n6 0 0\n";
    prints(&rt, print_layouts, b"a 3 c", form)?;
    prints(&rt, print_layouts, b"a 3 c\r\na = ;", form)?;
    prints(&rt, print_layouts, b"a  3 c\na = ;", form)?;
    prints(&rt, print_layouts, b" a 3 c\na = ;", form)?;
    prints(&rt, print_layouts, b"a 3 c \na = ;", form)?;
    prints(&rt, print_layouts, b"a 00003 c\na = ;", form)?;
    prints(&rt, print_layouts, b"a 3 m\n$", form)?;
    prints(&rt, print_layouts, b"3 3 c\na = ;", form)?;
    prints(&rt, print_layouts, b"a 3\na = ;", form)?;
    prints(&rt, print_totals, b"a 3 x\na = ;", form)
}

#[test]
fn refusals_come_in_order(rt: HostRuntime) -> Result<(), Fail> {
    prints(
        &rt,
        print_layouts,
        b"b 41 c\na = $",
        b"refused place length\n2 4 1\n",
    )?;
    prints(
        &rt,
        print_layouts,
        b"b 41 c\na = a ;",
        b"refused place length\n11 0 1\n",
    )?;
    prints(
        &rt,
        print_layouts,
        b"b 41 c\na = ;",
        b"refused place length\n15 0 0\n",
    )?;
    prints(
        &rt,
        print_layouts,
        b"a 41 c\na = ;",
        b"refused place length\n12 0 0\n",
    )?;
    prints(
        &rt,
        print_totals,
        b"a234567890123456789012345 2 t\na = ;",
        b"refused place length\n15 0 0\n",
    )
}

// An empty text leaves its separating space.
#[test]
fn sheets_are_printed(rt: HostRuntime) -> Result<(), Fail> {
    prints(
        &rt,
        print_layouts,
        b"a 1 t\na = | \"\":0 \"p\" \"q\":0 ;",
        b"size number text\n0 0 \n1 0 p q\n",
    )?;
    prints(
        &rt,
        print_layouts,
        b"a 0001 c\na = | \"\":0 \"p\" \"q\":0 ;",
        b"size number choices\n0 0 0\n1 0 1\n",
    )?;
    prints(
        &rt,
        print_totals,
        b"a 1 t\na = \"p\"@7 ;",
        b"kind name size total\nc a 0 0\nc a 1 1\nm a 0 -\nm a 1 7\n",
    )
}
