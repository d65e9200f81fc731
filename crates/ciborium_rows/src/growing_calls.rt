//! Calls that take memory, each made once, with what it was lent looked at afterwards.

use crate::outcome::{
    Failure, expect, expect_all, is_written_as, judge_read, judge_tree, prepare_value,
};
use ciborium::value::{KeyOrder, Value};
use ciborium::{cbor, from_reader, into_writer_deterministic, ser};
use ciborium_examples::own_types::Message;
use std::alloc::{AllocError, Global};
use std::collections::BTreeMap;

// {"a": 1, "b": [2, 3]}, with open containers.
const OPEN_MAP: &[u8] = b"\xbf\x61\x61\x01\x61\x62\x9f\x02\x03\xff\xff";

// The same with definite containers.
const DEFINITE_MAP: &[u8] = b"\xa2\x61\x61\x01\x61\x62\x82\x02\x03";

// [{"version": 2, "body": "a"}]
const MESSAGES: &[u8] = b"\x81\xa2\x67version\x02\x64body\x61\x61";

// {"b": [2, 3], "a": 1}, open.
const FALLING_KEYS: &[u8] = b"\xbf\x61\x62\x9f\x02\x03\xff\x61\x61\x01\xff";

// {1: 2, 1: 3}, open.
const KEY_TWICE: &[u8] = b"\xbf\x01\x02\x01\x03\xff";

// {"Fun": true, "Amt": -2}
const LITERAL: &[u8] = b"\xa2\x63Fun\xf5\x63Amt\x21";

/// Reads a `Value`, all of its bytes.
///
/// # Errors
///
/// Why the answer is not the right value.
pub fn read_value(alloc: Global) -> Result<(), Failure> {
    let mut reader = OPEN_MAP;
    let value: Value = from_reader(alloc, &mut reader).map_err(judge_read)?;
    expect(reader.is_empty())?;
    expect(is_written_as(&value, DEFINITE_MAP))
}

/// Clones a `Value`, which stays as it was.
///
/// # Errors
///
/// Why the answer is not the right value.
pub fn clone_value(alloc: Global) -> Result<(), Failure> {
    let value = prepare_value(alloc, OPEN_MAP)?;
    let copied = match value.clone() {
        Ok(copy) => judge_copy(copy, &value),
        Err(_) => Err(Failure::Memory),
    };
    expect(is_written_as(&value, DEFINITE_MAP)).and(copied)
}

// Fails unless the copy is the value, and written as it is to be.
fn judge_copy(copy: Value, value: &Value) -> Result<(), Failure> {
    expect_all(&[is_written_as(&copy, DEFINITE_MAP), copy == *value])
}

/// Makes a text.
///
/// # Errors
///
/// Why the answer is not the right value.
pub fn make_text(alloc: Global) -> Result<(), Failure> {
    match Value::from_text(alloc, "text") {
        Ok(value) => expect(value.as_text() == Some("text")),
        Err(_) => Err(Failure::Memory),
    }
}

/// Makes the tree of messages, which stay as they were.
///
/// # Errors
///
/// Why the answer is not the right value.
pub fn make_tree(alloc: Global) -> Result<(), Failure> {
    let messages = prepare_messages(alloc)?;
    let answer = Value::serialized(alloc, &messages);
    expect(is_written_as(&messages, MESSAGES))?;
    let value = answer.map_err(judge_tree)?;
    expect(is_written_as(&value, MESSAGES))
}

// [{"version": 2, "body": "a"}]
fn prepare_messages(alloc: Global) -> Result<Vec<Message>, AllocError> {
    let body = String::from_str(alloc, "a")?;
    Ok(vec![in alloc; Message { version: 2, body }]?)
}

/// Reads a `Value` as a `Value`; it stays as it was.
///
/// # Errors
///
/// Why the answer is not the right value.
pub fn read_as_value(alloc: Global) -> Result<(), Failure> {
    let value = prepare_value(alloc, OPEN_MAP)?;
    let copied = match value.deserialized::<Value>(alloc) {
        Ok(copy) => judge_copy(copy, &value),
        Err(error) => Err(judge_tree(error)),
    };
    expect(is_written_as(&value, DEFINITE_MAP)).and(copied)
}

/// Reads a map in which a key stands twice: the last one counts.
///
/// # Errors
///
/// Why the answer is not the right value.
pub fn read_map(alloc: Global) -> Result<(), Failure> {
    let mut reader = KEY_TWICE;
    let map: BTreeMap<u8, u8> = from_reader(alloc, &mut reader).map_err(judge_read)?;
    expect(reader.is_empty())?;
    expect(map.len() == 1 && map.get(&1) == Some(&3))
}

/// Writes the deterministic form of a value, which stays as it was. Where an allocation fails,
/// nothing goes out.
///
/// # Errors
///
/// Why the answer is not the right value.
pub fn write_form(alloc: Global) -> Result<(), Failure> {
    let value = prepare_value(alloc, FALLING_KEYS)?;
    let mut buffer = [0u8; DEFINITE_MAP.len()];
    let mut writer: &mut [u8] = &mut buffer;
    let answer = into_writer_deterministic(alloc, &value, KeyOrder::Bytewise, &mut writer);
    let left = writer.len();
    match answer {
        Ok(()) => expect(left == 0 && buffer.as_slice() == DEFINITE_MAP),
        Err(ser::Error::Memory) => {
            expect(left == DEFINITE_MAP.len())?;
            Err(Failure::Memory)
        }
        Err(_) => Err(Failure::Wrong),
    }
}

/// Makes a tree that is written out.
///
/// # Errors
///
/// Why the answer is not the right value.
pub fn make_literal(alloc: Global) -> Result<(), Failure> {
    let value = cbor!(alloc, {"Fun" => true, "Amt" => -2}).map_err(judge_tree)?;
    expect(is_written_as(&value, LITERAL))
}
