//! Sequences of values of any type are written and read whole.
use crate::expectations::{expect, expect_bytes};
use ciborium::de::{self, Deserialize};
use ciborium::laws::sequence_is_read_back;
use ciborium::ser::{self, Serialize};
use ciborium_examples::own_types::{Figure, Message};
use ciborium_examples::sequence_callers::{
    keep_all_messages, read_all_messages, write_all_messages,
};
use std::alloc::Global;
use std::io::{self, ErrorKind};
use std::test::Fail;

#[test]
fn numbers_in_a_row(rt: HostRuntime) -> Result<(), Fail> {
    let alloc = rt.alloc();
    sequence_is_read_back::<u8>();
    expect_both_ways::<u8>(alloc, Vec::new(alloc), "")?;
    expect_both_ways(alloc, vec![in alloc; 1u8, 24, 255]?, "01181818ff")
}

#[test]
fn numbers_are_kept(rt: HostRuntime) -> Result<(), Fail> {
    let numbers = [1u8, 24, 255];
    let kept = keep_all_messages(rt.alloc(), &numbers).ok_or("nothing")?;
    expect(kept.as_slice() == &numbers[..], "other numbers")
}

#[test]
fn own_types_in_a_row(rt: HostRuntime) -> Result<(), Fail> {
    let alloc = rt.alloc();
    sequence_is_read_back::<Figure>();
    let figures = vec![in alloc; Figure::Circle(7), Figure::Point]?;
    expect_both_ways(alloc, figures, "a166436972636c650765506f696e74")?;
    sequence_is_read_back::<Message>();
    let body = String::from_str(alloc, "a")?;
    let messages = vec![in alloc; Message { version: 2, body }]?;
    expect_both_ways(alloc, messages, "a26776657273696f6e0264626f64796161")
}

// Fails unless the values are written as these hex digits, and read from them.
fn expect_both_ways<T: Serialize + Deserialize + PartialEq>(
    alloc: Global,
    values: Vec<T>,
    digits: &str,
) -> Result<(), Fail> {
    let mut bytes = Vec::new(alloc);
    write_all_messages(values.as_slice(), &mut bytes)?;
    let mut rest = bytes.as_slice();
    let read = read_all_messages::<T, &[u8]>(alloc, &mut rest)?;
    expect(read == values && rest.is_empty(), "other values")?;
    expect_bytes(alloc, Some(bytes), digits)
}

// The reader ends within the second item.
#[test]
fn a_sequence_that_is_cut(rt: HostRuntime) -> Result<(), Fail> {
    match read_digits(rt.alloc(), "0118")? {
        Err(de::Error::Io(error)) => expect(error.kind() == ErrorKind::UnexpectedEof, "no end"),
        _ => Err(Fail::new("no end")),
    }
}

// The second of three items is not well-formed; the offset counts from its first byte.
#[test]
fn a_bad_item_in_the_middle(rt: HostRuntime) -> Result<(), Fail> {
    match read_digits(rt.alloc(), "011c02")? {
        Err(de::Error::Syntax(offset)) => expect(offset == 0, "another offset"),
        _ => Err(Fail::new("no syntax")),
    }
}

// Reads the bytes of these hex digits as a sequence of numbers.
fn read_digits(alloc: Global, digits: &str) -> Result<Result<Vec<u8>, de::Error<io::Error>>, Fail> {
    let bytes = hex::decode(alloc, digits)?;
    let mut rest = bytes.as_slice();
    Ok(read_all_messages(alloc, &mut rest))
}

// There is room for the first item and the first byte of the second.
#[test]
fn a_writer_that_is_full(_rt: HostRuntime) -> Result<(), Fail> {
    let mut buffer = [0u8; 3];
    let mut room: &mut [u8] = &mut buffer;
    match write_all_messages(&[24u8, 255], &mut room) {
        Err(ser::Error::Io(error)) => expect(error.kind() == ErrorKind::WriteZero, "room")?,
        _ => return Err(Fail::new("room")),
    }
    expect(buffer == [0x18, 24, 0x18], "other bytes")
}
