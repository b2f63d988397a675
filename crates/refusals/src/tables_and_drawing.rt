// Refusals of tables, drawing and printing.
use crate::support::*;
use drawing::drawing::draw;
use drawing::order::{Rising, ToAndFro};
use drawing::pending::Pending;
use drawing::printing::print;
use families::family::Family;
use std::alloc::Global;
use std::process::Abort;
use std::test::Fail;
use tables::cheapest::Cheapest;
use tables::count::Count;
use tables::filling::fill;

fn counts(heap: Global, length: usize) -> Result<Vec<Count>, Fail> {
    Ok(Vec::from_elem(heap, Count { value: 7 }, length)?)
}

// A table of that length, filled for the family.
fn filled(heap: Global, family: &Family, length: usize, top: usize) -> Result<Vec<Count>, Fail> {
    let mut table = counts(heap, length)?;
    granted(fill(family, &mut table, top))?;
    Ok(table)
}

// 50 entries for the worked family at top 4.
#[test]
fn tables_have_room(rt: HostRuntime) -> Result<(), Fail> {
    let heap = rt.alloc();
    let family = granted(family_of(heap, WORKED))?;
    let mut short = counts(heap, 49)?;
    refused(&rt, fill(&family, &mut short, 4), 13, 0, 0)?;
    assert!(rt; short.len() == 49 && short[0].value == 7 && short[48].value == 7);
    let mut long = filled(heap, &family, 51, 4)?;
    assert!(rt;
        long.len() == 51 && long[4].value == 5 && long[14].value == 10 && long[50].value == 7
    );
    refused(&rt, fill(&family, &mut long, 41), 12, 0, 0)
}

#[test]
fn cheapest_totals(rt: HostRuntime) -> Result<(), Fail> {
    let heap = rt.alloc();
    let family = granted(family_of(heap, WORKED))?;
    let mut costs = Vec::from_elem(heap, Cheapest { cost: 0 }, 50)?;
    granted(fill(&family, &mut costs, 4))?;
    assert!(rt; costs.len() == 50 && costs[0].cost == 4294967295 && costs[3].cost == 3);
    Ok(())
}

// A damaged entry is found at its index, and what is open stays.
#[test]
fn damaged_tables_stay_shut(rt: HostRuntime) -> Result<(), Fail> {
    let heap = rt.alloc();
    let family = granted(family_of(heap, WORKED))?;
    let good = filled(heap, &family, 50, 4)?;
    let mut bad = filled(heap, &family, 50, 4)?;
    assert!(rt; bad.len() == 50);
    bad[23] = Count { value: 9 };
    bad[31] = Count { value: 9 };
    stays_open(&rt, &family, &good, &bad)
}

// An item's entry is damaged, and the entries of names above it are changed to match: the lower index is answered,
// since entries are compared with their true totals.
#[test]
fn matching_damage_is_found_at_the_name(rt: HostRuntime) -> Result<(), Fail> {
    let heap = rt.alloc();
    let family = granted(family_of(heap, b"a = \"p\" | \"q\" ;"))?;
    let mut table = filled(heap, &family, 6, 1)?;
    assert!(rt; table.len() == 6 && table[1].value == 2 && table[3].value == 1);
    table[3] = Count { value: 4 };
    table[1] = Count { value: 5 };
    let mut opened = unopened(heap)?;
    refused(&rt, opened.open(&family, &table, 1), 14, 1, 1)
}

fn stays_open(
    rt: &(impl Abort + AllocGlobal),
    family: &Family,
    good: &[Count],
    bad: &[Count],
) -> Result<(), Fail> {
    let mut opened = opened(rt.alloc(), family, good, 4)?;
    refused(rt, opened.open(family, bad, 4), 14, 23, 1)?;
    refused(rt, opened.open(family, good, 41), 12, 0, 0)?;
    refused(rt, opened.open(family, good, 5), 13, 0, 0)?;
    assert_eq!(rt; opened.names(), 3);
    assert_eq!(rt; opened.count(2, 4), 10);
    Ok(())
}

#[test]
fn an_unwritten_open_table_has_no_names(rt: HostRuntime) -> Result<(), Fail> {
    let opened = unopened(rt.alloc())?;
    assert_eq!(rt; opened.names(), 0);
    refused(
        &rt,
        draw(
            &opened,
            &Rising,
            0,
            0,
            0,
            &mut [0u8; 1],
            &mut [Pending::vacant(); 1],
        ),
        15,
        0,
        0,
    )
}

// The choices that a draw wrote, as a number in base 8, for short lists.
fn packed(list: &[u8], count: usize) -> u64 {
    list.iter().take(count).fold(0, |value: u64, choice| {
        value.saturating_mul(8).saturating_add(u64::from(*choice))
    })
}

#[test]
fn numbers_draw_their_layouts(rt: HostRuntime) -> Result<(), Fail> {
    let heap = rt.alloc();
    let family = granted(family_of(heap, WORKED))?;
    let table = filled(heap, &family, 50, 4)?;
    let opened = opened(heap, &family, &table, 4)?;
    let mut list = [9u8; 12];
    let mut stack = [Pending::vacant(); 12];
    assert_eq!(rt;
        granted(draw(&opened, &Rising, 2, 4, 3, &mut list, &mut stack))?,
        5
    );
    assert_eq!(rt; packed(&list, 5), 0o00101);
    assert_eq!(rt; list[5], 9);
    assert_eq!(rt;
        granted(draw(&opened, &ToAndFro, 2, 4, 3, &mut list, &mut stack))?,
        7
    );
    assert_eq!(rt; packed(&list, 7), 0o0100100);
    Ok(())
}

#[test]
fn draws_are_refused_in_order(rt: HostRuntime) -> Result<(), Fail> {
    let heap = rt.alloc();
    let family = granted(family_of(heap, WORKED))?;
    let table = filled(heap, &family, 50, 4)?;
    let opened = opened(heap, &family, &table, 4)?;
    let mut list = [9u8; 3];
    let mut stack = [Pending::vacant(); 3];
    refused(
        &rt,
        draw(&opened, &Rising, 3, 5, 9, &mut list, &mut stack),
        15,
        0,
        0,
    )?;
    refused(
        &rt,
        draw(&opened, &Rising, 2, 5, 99, &mut list, &mut stack),
        16,
        0,
        0,
    )?;
    refused(
        &rt,
        draw(&opened, &Rising, 2, 4, 10, &mut list, &mut stack),
        18,
        0,
        0,
    )?;
    refused(
        &rt,
        draw(
            &opened,
            &Rising,
            2,
            4,
            3,
            &mut list,
            &mut [Pending::vacant(); 2],
        ),
        19,
        0,
        0,
    )?;
    assert_eq!(rt; packed(&list, 3), 9 * 64 + 9 * 8 + 9);
    refused(
        &rt,
        draw(&opened, &Rising, 2, 4, 3, &mut list, &mut stack),
        20,
        0,
        0,
    )?;
    assert_eq!(rt; packed(&list, 3), 1);
    Ok(())
}

// A total at the cap: four names of 64 choices each, at size 0, and more.
#[test]
fn capped_totals_are_not_drawn(rt: HostRuntime) -> Result<(), Fail> {
    let heap = rt.alloc();
    let family = granted(family_of(
        heap,
        b"a = b b b b b b ; b = c c ; c = d d d ; d = e | e | e | e ; e = ;",
    ))?;
    let table = filled(heap, &family, 40, 0)?;
    let opened = opened(heap, &family, &table, 0)?;
    assert_eq!(rt; opened.count(1, 0), 4096);
    assert_eq!(rt; opened.count(0, 0), u64::MAX);
    refused(
        &rt,
        draw(
            &opened,
            &Rising,
            0,
            0,
            0,
            &mut [0u8; 1],
            &mut [Pending::vacant(); 1],
        ),
        17,
        0,
        0,
    )
}

#[test]
fn choice_lists_are_checked(rt: HostRuntime) -> Result<(), Fail> {
    let family = granted(family_of(rt.alloc(), WORKED))?;
    let mut stack = [Pending::vacant(); 8];
    let mut page = [b'.'; 8];
    let mut mark = 2;
    refused(
        &rt,
        print(&family, 3, b"", &mut stack, &mut page, &mut mark),
        15,
        0,
        0,
    )?;
    refused(
        &rt,
        print(
            &family,
            0,
            b"\x00\x00",
            &mut [Pending::vacant(); 1],
            &mut page,
            &mut mark,
        ),
        19,
        0,
        0,
    )?;
    refused(
        &rt,
        print(&family, 0, b"\x02", &mut stack, &mut page, &mut mark),
        21,
        0,
        1,
    )?;
    refused(
        &rt,
        print(
            &family,
            0,
            b"\x01\x00\x00",
            &mut stack,
            &mut page,
            &mut mark,
        ),
        22,
        3,
        0,
    )?;
    refused(
        &rt,
        print(
            &family,
            0,
            b"\x00\x00\x00\x00",
            &mut stack,
            &mut page,
            &mut mark,
        ),
        22,
        2,
        1,
    )?;
    refused(
        &rt,
        print(
            &family,
            0,
            b"\x01\x00\x00\x00",
            &mut stack,
            &mut page,
            &mut mark,
        ),
        23,
        0,
        0,
    )?;
    assert_eq!(rt; mark, 2);
    granted(print(&family, 0, b"\x00\x01", &mut stack, &mut page, &mut mark))?;
    assert_eq!(rt; mark, 7);
    assert!(rt; page.starts_with(b"..point"));
    Ok(())
}
