// What the tests share.
use families::family::Family;
use files::draft::Draft;
use files::fault::Fault;
use std::alloc::{AllocError, Global};
use std::process::Abort;
use std::test::Fail;
use tables::count::Count;
use tables::open_table::OpenTable;
use tables::scratch::Scratch;

// The worked family.
pub(crate) const WORKED: &[u8; 78] =
    b"line = track | track line ;\ntrack = \"plain\" | \"point\":2@5 ;\ntwo = line line ;\n";

pub(crate) fn family_of(heap: Global, file: &[u8]) -> Result<Family, Fault> {
    let mut draft = Draft::new(heap)?;
    draft.read(file)?;
    let mut family = Family::new(heap)?;
    family.adopt(draft)?;
    Ok(family)
}

// What a call answered, where it was not refused.
pub(crate) fn granted<T: Drop>(answer: Result<T, Fault>) -> Result<T, Fail> {
    answer.map_err(|_| Fail::new("refused"))
}

// That a call was refused with this number, place and length.
pub(crate) fn refused<T: Drop>(
    rt: &impl Abort,
    answer: Result<T, Fault>,
    number: u8,
    place: usize,
    length: usize,
) -> Result<(), Fail> {
    let fault = answer.err().ok_or_else(|| Fail::new("not refused"))?;
    assert_eq!(rt; fault.number(), number);
    assert_eq!(rt; fault.place(), place);
    assert_eq!(rt; fault.length(), length);
    Ok(())
}

// That reading and adopting a file is refused so.
pub(crate) fn file_refused(
    rt: &(impl Abort + AllocGlobal),
    file: &[u8],
    number: u8,
    place: usize,
    length: usize,
) -> Result<(), Fail> {
    refused(rt, family_of(rt.alloc(), file), number, place, length)
}

// That a file is adopted.
pub(crate) fn file_adopted(rt: &(impl Abort + AllocGlobal), file: &[u8]) {
    assert!(rt; family_of(rt.alloc(), file).is_ok());
}

// A place for tables to be opened in.
pub(crate) fn unopened<'a>(heap: Global) -> Result<OpenTable<'a, 'a>, Fail> {
    Ok(OpenTable::new(granted(Scratch::new(heap))?))
}

// The family's table, opened.
pub(crate) fn opened<'a>(
    heap: Global,
    family: &'a Family,
    table: &'a [Count],
    top: usize,
) -> Result<OpenTable<'a, 'a>, Fail> {
    let mut opened = unopened(heap)?;
    granted(opened.open(family, table, top))?;
    Ok(opened)
}

// `piece` `times` times between a head and a tail.
pub(crate) fn repeated(
    heap: Global,
    head: &[u8],
    piece: &[u8],
    times: usize,
    tail: &[u8],
) -> Result<Vec<u8>, AllocError> {
    let mut text = Vec::from_slice(heap, head)?;
    for _ in 0..times {
        text.extend_from_slice(piece)?;
    }
    text.extend_from_slice(tail)?;
    Ok(text)
}

// `count` rules with names of two letters and one empty alternative each, four bytes a rule.
pub(crate) fn many_rules(heap: Global, count: u8) -> Result<Vec<u8>, AllocError> {
    let mut text = Vec::new(heap);
    for i in 0..count {
        text.extend_from_slice(&[b'a' + i / 26, b'a' + i % 26, b'=', b';'])?;
    }
    Ok(text)
}
