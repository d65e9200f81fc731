//! Calls that take no memory, with everything prepared that they are lent.

use crate::outcome::{Failure, expect, is_written_as, judge_head, prepare_value};
use crate::plain_heads::make_head_calls;
use crate::plain_numbers::{compare_integers, convert_integers};
use crate::plain_reads::read_plain_types;
use crate::plain_values::{compare_values, look_into, make_values, take_apart};
use ciborium::ll::{self, Decoder, Encoder, Header};
use ciborium::value::{self, KeyOrder, Kind, Value};
use ciborium::{de, into_writer, ser};
use std::alloc::{AllocError, Global};
use std::io::{self, ErrorKind};

// [1, h'01', "a", true, null, 1(0), [], {}]
const VALUES: &[u8] = b"\x88\x01\x41\x01\x61\x61\xf5\xf6\xc1\x00\x80\xa0";

// A map of 24 nulls, whose keys fall from 23 to 0, and the same with keys that rise.
const FALLING: &[u8] =
    b"\xb8\x18\x17\xf6\x16\xf6\x15\xf6\x14\xf6\x13\xf6\x12\xf6\x11\xf6\x10\xf6\x0f\xf6\
        \x0e\xf6\x0d\xf6\x0c\xf6\x0b\xf6\x0a\xf6\x09\xf6\x08\xf6\x07\xf6\x06\xf6\x05\xf6\
        \x04\xf6\x03\xf6\x02\xf6\x01\xf6\x00\xf6";

const RISING: &[u8] =
    b"\xb8\x18\x00\xf6\x01\xf6\x02\xf6\x03\xf6\x04\xf6\x05\xf6\x06\xf6\x07\xf6\x08\xf6\
        \x09\xf6\x0a\xf6\x0b\xf6\x0c\xf6\x0d\xf6\x0e\xf6\x0f\xf6\x10\xf6\x11\xf6\x12\xf6\
        \x13\xf6\x14\xf6\x15\xf6\x16\xf6\x17\xf6";

/// Makes each of the calls, behind the preparation of what they are lent.
///
/// # Errors
///
/// Why an answer is not the right value; `Preparing` where a growth is refused before the calls.
pub fn make_plain_calls(alloc: Global) -> Result<(), Failure> {
    let text = String::from_str(alloc, "a")?;
    let bytes = prepare_byte(alloc)?;
    let values = prepare_value(alloc, VALUES)?;
    let mut falling = prepare_value(alloc, FALLING)?;

    let formed = make_form(&mut falling);
    let lent = lend_values(alloc, &values);
    let taken = take_apart(values);
    let made = make_values(alloc, text, bytes);
    formed
        .and(lent)
        .and(taken)
        .and(made)
        .and(call_heads_and_numbers())
}

// The form of a map is made where it stands.
fn make_form(map: &mut Value) -> Result<(), Failure> {
    let order = KeyOrder::LengthFirst;
    expect(is_written_as(map, FALLING) && !map.is_deterministic(order))?;
    expect(map.make_deterministic(order).is_ok() && map.is_deterministic(order))?;
    expect(is_written_as(map, RISING))
}

// Calls that are lent values.
fn lend_values(alloc: Global, values: &Value) -> Result<(), Failure> {
    expect(is_written_as(values, VALUES))?;
    look_into(values)?;
    compare_values(values)?;
    read_plain_types(alloc, values)
}

// Calls on heads, errors and numbers.
fn call_heads_and_numbers() -> Result<(), Failure> {
    decode_heads()?;
    encode_heads()?;
    write_without_room()?;
    make_head_calls()?;
    convert_errors()?;
    compare_integers()?;
    convert_integers()
}

// h'01'
fn prepare_byte(alloc: Global) -> Result<Vec<u8>, AllocError> {
    Ok(vec![in alloc; 1u8]?)
}

// A head is pulled, pushed back and pulled again, and a payload is read.
fn decode_heads() -> Result<(), Failure> {
    let mut reader: &[u8] = b"\x18\x20\x43\x01\x02\x03\x1e";
    let mut decoder = Decoder::new(&mut reader);
    let header = decoder.pull().map_err(judge_head)?;
    expect(header == Header::Positive(32) && decoder.offset() == 2)?;
    decoder.push(header, 0);
    expect(decoder.offset() == 0)?;
    let again = decoder.pull().map_err(judge_head)?;
    expect(again == header && decoder.offset() == 2)?;
    let opening = decoder.pull().map_err(judge_head)?;
    expect(opening == Header::Bytes(Some(3)))?;
    let mut payload = [0u8; 3];
    decoder.read_exact(&mut payload).map_err(judge_head)?;
    expect(payload == [1, 2, 3] && decoder.offset() == 6)?;
    match decoder.pull() {
        Err(ll::Error::Syntax(offset)) => expect(offset == 6),
        Err(error) => Err(judge_head(error)),
        Ok(_) => Err(Failure::Wrong),
    }
}

// Heads and a payload are written to a slice, until there is no room.
fn encode_heads() -> Result<(), Failure> {
    let mut buffer = [0u8; 5];
    let mut rest: &mut [u8] = &mut buffer;
    let mut encoder = Encoder::new(&mut rest);
    expect(encoder.push(Header::Bytes(Some(2))).is_ok())?;
    expect(encoder.write_all(&[1, 2]).is_ok())?;
    expect(encoder.push(Header::Positive(32)).is_ok())?;
    match encoder.push(Header::Break) {
        Err(error) => expect(error.kind() == ErrorKind::WriteZero)?,
        Ok(()) => return Err(Failure::Wrong),
    }
    expect(buffer == [0x42, 1, 2, 0x18, 0x20])
}

// An empty slice takes no value.
fn write_without_room() -> Result<(), Failure> {
    let mut rest: &mut [u8] = &mut [];
    match into_writer(&1u8, &mut rest) {
        Err(ser::Error::Io(error)) => expect(error.kind() == ErrorKind::WriteZero),
        _ => Err(Failure::Wrong),
    }
}

// Each error is made from those below it.
fn convert_errors() -> Result<(), Failure> {
    let broken = io::Error::from(ErrorKind::BrokenPipe);
    let below: ll::Error<io::Error> = ll::Error::from(broken);
    let read: de::Error<io::Error> = de::Error::from(below);
    expect(matches!(&read, de::Error::Io(error) if error.kind() == ErrorKind::BrokenPipe))?;
    let below: ll::Error<io::Error> = ll::Error::Syntax(1);
    let read: de::Error<io::Error> = de::Error::from(below);
    expect(matches!(&read, de::Error::Syntax(1)))?;
    let read: de::Error<io::Error> = de::Error::semantic(Some(2), Kind::Float);
    expect(matches!(&read, de::Error::Semantic(Some(2), Kind::Float)))?;
    let full = io::Error::from(ErrorKind::WriteZero);
    let written: ser::Error<io::Error> = ser::Error::from(full);
    expect(matches!(&written, ser::Error::Io(error) if error.kind() == ErrorKind::WriteZero))?;
    expect(value::Error::from(AllocError) == value::Error::Memory)
}
