//! Writes by a loop of the crate's own, which no device can hold up.

ghost use Rattle.std.specs.Prelude.{◌≡◌, ◌+◌, ◌*◌, ◌<◌, ◌≤◌, IsSome, OnErr, length, take};
ghost use Rattle.ciborium_ll.specs.Head.{shortest_head, simple_bytes};
ghost use Rattle.ciborium_ll.specs.Header.{IsWritable, counted_bytes, header_bytes};
ghost use Rattle.ciborium_ll.specs.Writing.{Writes};

use crate::header::Header;
use std::io::{self, ErrorKind, Write};

/// A call failed, and left the error where its caller asked for it.
pub struct Failed;

// Writes the bytes, and flushes nothing. A write of nothing or a fault of the device ends it, and
// its error is put into `failure`: it is large, and an answer that held it would be moved each
// time.
#[inline(always)]
pub(crate) fn write_all<W: Write>(
    writer: &mut W,
    bytes: &[u8],
    failure: &mut Option<io::Error>,
) -> Result<(), Failed>
    ensures bytes { Writes (W.contents writer.old) (W.contents writer.new) result bytes.now }
    ensures kept { OnErr result (IsSome failure.new) }
{
    let mut written = 0;
    while written < bytes.len() {
        match writer.write(&bytes[written..]) {
            Ok(0) => {
                *failure = Some(io::Error::from(ErrorKind::WriteZero));
                return Err(Failed);
            }
            Ok(n) => written += n,
            Err(e) => {
                *failure = Some(e);
                return Err(Failed);
            }
        }
    }
    Ok(())
}

// The bytes of a head, with zeros behind them, and how many they are.
type HeadBytes = ([u8; 9], usize);

// The shortest head of a major type with an argument.
#[inline(always)]
#[tactic(auto, unfolding(crate::specs::Head::shortest_head))]
fn with_argument(major: u8, argument: u64) -> HeadBytes
    requires { major < 7 }
    ensures size { result.1 ≤ 9 }
    ensures bytes { take result.1 result.0 ≡ shortest_head major argument }
{
    let initial = major * 32;
    if argument < 24 {
        return ([initial + argument as u8, 0, 0, 0, 0, 0, 0, 0, 0], 1);
    }
    if argument < 0x100 {
        return ([initial + 24, argument as u8, 0, 0, 0, 0, 0, 0, 0], 2);
    }
    if argument < 0x1_0000 {
        let [a, b] = (argument as u16).to_be_bytes();
        return ([initial + 25, a, b, 0, 0, 0, 0, 0, 0], 3);
    }
    if argument < 0x1_0000_0000 {
        let [a, b, c, d] = (argument as u32).to_be_bytes();
        return ([initial + 26, a, b, c, d, 0, 0, 0, 0], 5);
    }
    let [a, b, c, d, e, f, g, h] = argument.to_be_bytes();
    ([initial + 27, a, b, c, d, e, f, g, h], 9)
}

// The head of a string, array or map, of indefinite length where it has no count.
#[inline(always)]
fn with_count(major: u8, count: Option<usize>) -> HeadBytes
    requires { major < 7 }
    ensures size { result.1 ≤ 9 }
    ensures bytes { take result.1 result.0 ≡ counted_bytes major count }
{
    match count {
        Some(n) => with_argument(major, n as u64),
        None => ([major * 32 + 31, 0, 0, 0, 0, 0, 0, 0, 0], 1),
    }
}

// The head of a simple value.
#[inline(always)]
fn simple(number: u8) -> HeadBytes
    ensures size { result.1 ≤ 9 }
    ensures bytes { take result.1 result.0 ≡ simple_bytes number }
{
    if number < 24 {
        return ([0xe0 + number, 0, 0, 0, 0, 0, 0, 0, 0], 1);
    }
    ([0xf8, number, 0, 0, 0, 0, 0, 0, 0], 2)
}

// The shortest head that the header has.
#[inline(always)]
fn head(header: Header) -> HeadBytes
    requires { IsWritable header }
    ensures size { result.1 ≤ 9 }
    ensures bytes { take result.1 result.0 ≡ header_bytes header }
{
    match header {
        // One arm, so that a sign that changes from number to number is no jump.
        Header::Positive(n) | Header::Negative(n) => {
            let major = if matches!(header, Header::Negative(_)) {
                1
            } else {
                0
            };
            with_argument(major, n)
        }
        Header::Bytes(n) => with_count(2, n),
        Header::Text(n) => with_count(3, n),
        Header::Array(n) => with_count(4, n),
        Header::Map(n) => with_count(5, n),
        Header::Tag(n) => with_argument(6, n),
        Header::Simple(n) => simple(n),
        Header::Float(_) => unreachable!(),
        Header::Break => ([0xff, 0, 0, 0, 0, 0, 0, 0, 0], 1),
    }
}

// Writes the head in its shortest form, in one write where the writer takes it whole.
#[inline(always)]
pub(crate) fn write_head<W: Write>(
    writer: &mut W,
    header: Header,
    failure: &mut Option<io::Error>,
) -> Result<(), Failed>
    requires { IsWritable header }
    ensures bytes { Writes (W.contents writer.old) (W.contents writer.new) result
        (header_bytes header) }
    ensures kept { OnErr result (IsSome failure.new) }
{
    let (bytes, size) = head(header);
    // A write of a size that is known here is a store; one of any size would be a call that copies.
    match size {
        1 => write_all(writer, &bytes[..1], failure),
        2 => write_all(writer, &bytes[..2], failure),
        3 => write_all(writer, &bytes[..3], failure),
        5 => write_all(writer, &bytes[..5], failure),
        9 => write_all(writer, &bytes, failure),
        size => write_all(writer, &bytes[..size], failure),
    }
}
