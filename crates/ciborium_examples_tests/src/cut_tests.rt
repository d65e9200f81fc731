//! Streams that are cut, and where their last whole item ended.
use crate::expectations::expect;
use crate::shown::{Fault, Shown};
use ciborium::de::{Error, RECURSION_LIMIT};
use ciborium::{Value, from_buf_reader_next_at, from_reader_next_at};
use ciborium_examples::sequence_callers::message_and_end;
use std::alloc::Global;
use std::io::{self, BufRead};
use std::test::Fail;

// 1, "a", and an array of two of which one is there.
const CUT: &[u8] = &[0x01, 0x61, 0x61, 0x82, 0x01];

// 1, "a", and what is not well-formed.
const BROKEN: &[u8] = &[0x01, 0x61, 0x61, 0x1c];

#[test]
fn a_cut_inside_an_item(rt: HostRuntime) -> Result<(), Fail> {
    let mut rest = CUT;
    let mut end = 100;
    let first: Option<u8> = from_reader_next_at(rt.alloc(), &mut rest, &mut end, 0)?;
    expect(first == Some(1) && end == 101, "1")?;
    let text: Option<String> = from_reader_next_at(rt.alloc(), &mut rest, &mut end, 0)?;
    expect(text.is_some_and(|text| text.as_str() == "a"), "a text")?;
    expect(end == 103, "its end")?;
    let third = from_reader_next_at::<Value, _>(rt.alloc(), &mut rest, &mut end, RECURSION_LIMIT);
    let Err(error) = third else {
        return Err(Fail::new("an item"));
    };
    expect(end == 103, "the offset moved")?;
    expect(error.is_cut_short(&mut rest)?, "not cut")
}

#[test]
fn whole_items_and_the_end(rt: HostRuntime) -> Result<(), Fail> {
    let mut rest: &[u8] = &[0x18, 0x18, 0x02];
    let first = message_and_end::<u8, _>(rt.alloc(), &mut rest, 7)?;
    expect(first == Some((24, 9)), "24")?;
    let mut end = 9;
    let second: Option<u8> = from_buf_reader_next_at(rt.alloc(), &mut rest, &mut end, 0)?;
    expect(second == Some(2) && end == 10, "2")?;
    let none: Option<u8> = from_buf_reader_next_at(rt.alloc(), &mut rest, &mut end, 0)?;
    expect(none.is_none() && end == 10, "the end")
}

// An offset in an error counts from the beginning of the stream.
#[test]
fn an_item_that_is_broken(rt: HostRuntime) -> Result<(), Fail> {
    let mut reader = Shown::new(BROKEN, 1, None);
    match end_of_items(rt.alloc(), &mut reader)? {
        (13, Some(Error::Syntax(13))) => {}
        _ => return Err(Fail::new("another refusal")),
    }
    let refusal: Error<io::Error> = Error::Syntax(13);
    expect(!refusal.is_cut_short(&mut reader)?, "cut")
}

// A device that fails within the third item, as if it had ended, or shows nothing once: bytes are
// left.
#[test]
fn a_device_that_has_not_ended(rt: HostRuntime) -> Result<(), Fail> {
    let mut whole = Shown::new(CUT, 1, None);
    let mut begin = 10;
    for _ in 0..2 {
        let limit = RECURSION_LIMIT;
        let _: Option<Value> = from_buf_reader_next_at(rt.alloc(), &mut whole, &mut begin, limit)?;
    }
    for fault in [Fault::Breaks, Fault::SaysItEnded, Fault::ShowsNothing] {
        let at = whole.fills.saturating_add(1);
        let mut reader = Shown::new(CUT, 1, Some((at, fault)));
        let (end, refusal) = end_of_items(rt.alloc(), &mut reader)?;
        expect(end == 13, "the end")?;
        let cut = refusal.ok_or("no refusal")?.is_cut_short(&mut reader)?;
        expect(!cut, "cut")?;
    }
    Ok(())
}

#[test]
fn a_cut_shown_by_bytes(rt: HostRuntime) -> Result<(), Fail> {
    let mut reader = Shown::new(CUT, 1, None);
    let (end, refusal) = end_of_items(rt.alloc(), &mut reader)?;
    expect(end == 13, "the end")?;
    let cut = refusal.ok_or("no refusal")?.is_cut_short(&mut reader)?;
    expect(cut, "not cut")
}

// An item of one byte ends at the greatest offset; there none begins, whatever is left.
#[test]
fn the_greatest_offset(rt: HostRuntime) -> Result<(), Fail> {
    let mut rest: &[u8] = &[0x01];
    let mut end = usize::MAX - 1;
    let first: Option<u8> = from_reader_next_at(rt.alloc(), &mut rest, &mut end, 0)?;
    expect(first == Some(1) && end == usize::MAX, "1")?;
    let next = from_reader_next_at::<u8, _>(rt.alloc(), &mut rest, &mut end, 0);
    expect(matches!(&next, Err(Error::TooLong)), "not too long")?;
    expect(end == usize::MAX, "the offset moved")
}

// Where the items of a stream end, from offset 10 on, and why the next one is refused.
fn end_of_items<R: BufRead>(
    alloc: Global,
    reader: &mut R,
) -> Result<(usize, Option<Error<io::Error>>), Fail> {
    let mut end = 10;
    for _ in 0..10 {
        match from_buf_reader_next_at::<Value, R>(alloc, reader, &mut end, RECURSION_LIMIT) {
            Ok(Some(_)) => {}
            Ok(None) => return Ok((end, None)),
            Err(error) => return Ok((end, Some(error))),
        }
    }
    Err(Fail::new("more items"))
}
