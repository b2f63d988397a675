// Refusals of reading and adopting.
use crate::support::*;
use families::family::Family;
use files::draft::Draft;
use std::test::Fail;

#[test]
fn a_file_has_at_most_16384_bytes(rt: HostRuntime) -> Result<(), Fail> {
    let heap = rt.alloc();
    file_refused(&rt, &repeated(heap, b"", b" ", 16385, b"")?, 1, 0, 0)?;
    file_refused(&rt, &repeated(heap, b"", b" ", 16384, b"")?, 9, 16384, 0)?;
    file_adopted(&rt, &repeated(heap, b"a=;", b" ", 16381, b"")?);
    Ok(())
}

#[test]
fn bytes_begin_tokens(rt: HostRuntime) -> Result<(), Fail> {
    file_refused(&rt, b"a = $ ;", 2, 4, 1)?;
    file_refused(&rt, b"_a = ;", 2, 0, 1)?;
    file_refused(&rt, b"a = \x80 ;", 2, 4, 1)
}

#[test]
fn names_have_at_most_24_bytes(rt: HostRuntime) -> Result<(), Fail> {
    file_adopted(&rt, b"a2345678901234567890123_=;");
    file_refused(&rt, b"a23456789012345678901234_=;", 3, 0, 25)?;
    file_refused(&rt, b" a = b23456789012345678901234_ ;", 3, 5, 25)
}

#[test]
fn literals_are_closed_and_plain(rt: HostRuntime) -> Result<(), Fail> {
    file_adopted(&rt, b"a = \"\" \"123456789012345678901234\" \"~ !\" ;");
    file_refused(&rt, b"a = \"1234567890123456789012345\" ;", 4, 4, 1)?;
    file_refused(&rt, b"a = \"p ;", 4, 4, 1)?;
    file_refused(&rt, b"a = \"p\n\" ;", 4, 4, 1)?;
    file_refused(&rt, b"a = \"\x7f\" ;", 4, 4, 1)?;
    file_refused(&rt, b"a = \"p\" \"", 4, 8, 1)
}

#[test]
fn digit_runs_have_at_most_four(rt: HostRuntime) -> Result<(), Fail> {
    file_adopted(&rt, b"a = \"p\":0040@9999 ;");
    file_refused(&rt, b"a = \"p\":12345 ;", 5, 8, 5)
}

#[test]
fn the_state_decides(rt: HostRuntime) -> Result<(), Fail> {
    file_refused(&rt, b"a a = ;", 6, 2, 1)?;
    file_refused(&rt, b"= a ;", 6, 0, 1)?;
    file_refused(&rt, b"a = 3 ;", 6, 4, 1)?;
    file_refused(&rt, b"a = b : 2 ;", 6, 6, 1)?;
    file_refused(&rt, b"a = \"p\" : : ;", 6, 10, 1)?;
    file_refused(&rt, b"a = \"p\":1:2 ;", 6, 9, 1)?;
    file_refused(&rt, b"a = \"p\"@1@2 ;", 6, 9, 1)?;
    file_refused(&rt, b"a = \"p\"@1:2 ;", 6, 9, 1)?;
    file_refused(&rt, b"a = \"p\" = ;", 6, 8, 1)
}

#[test]
fn the_end_stands_between_rules(rt: HostRuntime) -> Result<(), Fail> {
    file_refused(&rt, b"a", 6, 1, 0)?;
    file_refused(&rt, b"a = ", 6, 4, 0)?;
    file_refused(&rt, b"a = \"p\"", 6, 7, 0)?;
    file_refused(&rt, b"a = \"p\":", 6, 8, 0)?;
    file_refused(&rt, b"a = \"p\":2", 6, 9, 0)?;
    file_refused(&rt, b"a = \"p\"@", 6, 8, 0)?;
    file_refused(&rt, b"a = \"p\"@2", 6, 9, 0)?;
    file_refused(&rt, b"", 9, 0, 0)?;
    file_refused(&rt, b" \t\r\n", 9, 4, 0)
}

#[test]
fn names_of_rules_are_new(rt: HostRuntime) -> Result<(), Fail> {
    let heap = rt.alloc();
    file_refused(&rt, b"a = ; a = ;", 7, 6, 1)?;
    let mut full = many_rules(heap, 32)?;
    full.extend_from_slice(b"ab=;")?;
    file_refused(&rt, &full, 7, 128, 2)
}

#[test]
fn there_is_place_for_so_much(rt: HostRuntime) -> Result<(), Fail> {
    let heap = rt.alloc();
    file_adopted(&rt, &many_rules(heap, 32)?);
    file_refused(&rt, &many_rules(heap, 33)?, 8, 128, 2)?;
    file_adopted(&rt, &repeated(heap, b"a=", b"|", 63, b";")?);
    file_refused(&rt, &repeated(heap, b"a=", b"|", 64, b";")?, 8, 65, 1)?;
    file_refused(&rt, &repeated(heap, b"a=", b"|", 63, b"; b=;")?, 8, 68, 1)?;
    file_adopted(&rt, b"a = \"1\" \"2\" \"3\" \"4\" \"5\" \"6\" ;");
    file_refused(
        &rt,
        b"a = \"1\" \"2\" \"3\" \"4\" \"5\" \"6\" \"7\" ;",
        8,
        28,
        3,
    )?;
    file_adopted(
        &rt,
        &repeated(heap, b"a=", b"\"\"\"\"\"\"\"\"\"\"\"\"|", 21, b"\"\"\"\";")?,
    );
    file_refused(
        &rt,
        &repeated(
            heap,
            b"a=",
            b"\"\"\"\"\"\"\"\"\"\"\"\"|",
            21,
            b"\"\"\"\"\"\";",
        )?,
        8,
        279,
        2,
    )
}

#[test]
fn used_names_are_defined(rt: HostRuntime) -> Result<(), Fail> {
    file_refused(&rt, b"a = \"p\" | bb ; c = dd ;", 10, 10, 2)?;
    file_adopted(&rt, b"a = b ; b = ;");
    Ok(())
}

#[test]
fn no_empty_cycle_is_adopted(rt: HostRuntime) -> Result<(), Fail> {
    file_refused(&rt, b"a = \"p\" | b a ; b = | \"p\" ;", 11, 0, 1)?;
    file_refused(
        &rt,
        b"x = \"p\" ; first = \"\":0 other ; other = first | ;",
        11,
        10,
        5,
    )?;
    file_adopted(&rt, b"a = \"p\" | b a ; b = \"p\" ;");
    Ok(())
}

// A refused reading leaves the draft, a refused adoption the family.
#[test]
fn refusals_leave_what_was_there(rt: HostRuntime) -> Result<(), Fail> {
    let heap = rt.alloc();
    let mut draft = granted(Draft::new(heap))?;
    granted(draft.read(b"a = b ; b = ;"))?;
    refused(&rt, draft.read(b"c = d ;"), 10, 4, 1)?;
    let mut family = granted(Family::new(heap))?;
    assert_eq!(rt; family.names(), 0);
    granted(family.adopt(draft))?;
    assert_eq!(rt; family.names(), 2);
    assert!(rt; family.nullable(0) && family.nullable(1));
    let mut other = granted(Draft::new(heap))?;
    granted(other.read(b"c = c ;"))?;
    refused(&rt, family.adopt(other), 11, 0, 1)?;
    assert_eq!(rt; family.find(b"b"), Some(1));
    assert_eq!(rt; family.find(b"c"), None);
    Ok(())
}

// An unread draft gives a family without names.
#[test]
fn an_unread_draft_has_no_names(rt: HostRuntime) -> Result<(), Fail> {
    let mut family = granted(Family::new(rt.alloc()))?;
    granted(family.adopt(granted(Draft::new(rt.alloc()))?))?;
    assert_eq!(rt; family.names(), 0);
    Ok(())
}
