//! Typed reading that takes no memory, from bytes and from a tree.

use crate::outcome::{Failure, expect, judge_read, judge_tree};
use ciborium::de::Deserialize;
use ciborium::tag::Captured;
use ciborium::value::Value;
use ciborium::{
    from_buf_reader, from_reader, from_reader_next, from_reader_with_buffer, from_slice,
};
use ciborium_examples::own_types::Span;
use std::alloc::Global;

/// Reads each type that takes no memory, from bytes, from a tree, and from the items of
/// `[1, h'01', "a", true, null, 1(0), [], {}]`.
///
/// # Errors
///
/// Why an answer is not the right value.
pub fn read_plain_types(alloc: Global, values: &Value) -> Result<(), Failure> {
    read_unsigned_numbers(alloc)?;
    read_signed_numbers(alloc)?;
    read_great_numbers(alloc)?;
    read_scalars(alloc)?;
    read_items(alloc, values)
}

// A number of every width without a sign.
fn read_unsigned_numbers(alloc: Global) -> Result<(), Failure> {
    read_both(alloc, b"\x18\xff", Value::from(255u8), &255u8)?;
    read_both(alloc, b"\x19\xff\xff", Value::from(65535u16), &65535u16)?;
    read_both(
        alloc,
        b"\x1a\x00\x01\x00\x00",
        Value::from(65536u32),
        &65536u32,
    )?;
    read_both(alloc, b"\x18\x18", Value::from(24u8), &24u64)?;
    read_both(alloc, b"\x18\x18", Value::from(24u8), &24usize)
}

// A number of every width with a sign.
fn read_signed_numbers(alloc: Global) -> Result<(), Failure> {
    read_both(alloc, b"\x38\x7f", Value::from(-128i8), &-128i8)?;
    read_both(alloc, b"\x38\x80", Value::from(-129i16), &-129i16)?;
    read_both(alloc, b"\x38\x80", Value::from(-129i16), &-129i32)?;
    read_both(alloc, b"\x38\x80", Value::from(-129i16), &-129i64)?;
    read_both(alloc, b"\x20", Value::from(-1i8), &-1isize)
}

// Numbers of 128 bits; a bignum is read without memory of its own.
fn read_great_numbers(alloc: Global) -> Result<(), Failure> {
    read_both(alloc, b"\x01", Value::from(1u8), &1u128)?;
    read_both(alloc, b"\x20", Value::from(-1i8), &-1i128)?;
    read_bytes(
        alloc,
        b"\xc2\x49\x01\0\0\0\0\0\0\0\0",
        &18446744073709551616u128,
    )?;
    read_bytes(
        alloc,
        b"\xc3\x49\x01\0\0\0\0\0\0\0\0",
        &-18446744073709551617i128,
    )?;
    read_bytes(alloc, b"\xc2\x5f\x41\x01\x41\x00\xff", &256u16)
}

// What is no number, tags and types made of such parts.
fn read_scalars(alloc: Global) -> Result<(), Failure> {
    read_both(alloc, b"\xf5", Value::from(true), &true)?;
    read_both(alloc, b"\xf6", Value::Null, &())?;
    read_both(alloc, b"\xf6", Value::Null, &None::<u8>)?;
    read_bytes(alloc, b"\x62\xc3\xbc", &'\u{fc}')?;
    read_bytes(alloc, b"\x82\x01\xf4", &(1u8, false))?;
    read_bytes(alloc, b"\x82\x01\x02", &Span { start: 1, end: 2 })?;
    read_bytes(alloc, b"\xc6\x01", &Captured(Some(6), 1u8))
}

// The items of a tree.
fn read_items(alloc: Global, values: &Value) -> Result<(), Failure> {
    let Some([number, _, text, truth, null, tagged, ..]) = values
        .as_array()
        .map(|items| items.as_slice())
    else {
        return Err(Failure::Wrong);
    };
    read_tree(alloc, number, &1u128)?;
    read_tree(alloc, text, &'a')?;
    read_tree(alloc, truth, &true)?;
    read_tree(alloc, null, &())?;
    read_tree(alloc, tagged, &Captured(Some(1), 0i128))
}

// Fails unless both the bytes and the tree give this value.
fn read_both<T: Deserialize + PartialEq>(
    alloc: Global,
    bytes: &[u8],
    tree: Value,
    expected: &T,
) -> Result<(), Failure> {
    read_bytes(alloc, bytes, expected)?;
    read_tree(alloc, &tree, expected)
}

// Fails unless the bytes give this value, all of them, by each call that reads.
fn read_bytes<T: Deserialize + PartialEq>(
    alloc: Global,
    bytes: &[u8],
    expected: &T,
) -> Result<(), Failure> {
    let mut reader = bytes;
    let value: T = from_reader(alloc, &mut reader).map_err(judge_read)?;
    expect(value == *expected && reader.is_empty())?;
    let mut reader = bytes;
    let mut scratch = [0u8; 1];
    let value: T = from_reader_with_buffer(alloc, &mut reader, &mut scratch).map_err(judge_read)?;
    expect(value == *expected && reader.is_empty())?;
    let mut reader = bytes;
    let value: Option<T> = from_reader_next(alloc, &mut reader).map_err(judge_read)?;
    expect(value.is_some_and(|read| read == *expected) && reader.is_empty())?;
    let mut reader = bytes;
    let value: T = from_buf_reader(alloc, &mut reader).map_err(judge_read)?;
    expect(value == *expected && reader.is_empty())?;
    let value: T = from_slice(alloc, bytes).map_err(judge_read)?;
    expect(value == *expected)
}

// Fails unless the tree gives this value.
fn read_tree<T: Deserialize + PartialEq>(
    alloc: Global,
    tree: &Value,
    expected: &T,
) -> Result<(), Failure> {
    let value: T = tree.deserialized(alloc).map_err(judge_tree)?;
    expect(value == *expected)
}
