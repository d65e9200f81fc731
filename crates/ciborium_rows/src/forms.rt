//! Deterministic forms of values, by either order of keys (RFC 8949, section 4.2).

use crate::pieces::{decode_pieces, parse_number};
use crate::refusals::describe_write;
use crate::writes::read_whole;
use ciborium::de::from_reader_deterministic_with_order;
use ciborium::ser::{Error, into_writer, into_writer_deterministic, write_deterministic_value};
use ciborium::value::{KeyOrder, Kind, Value};
use std::alloc::{AllocError, Global};
use std::io;

/// `HEX`: the encoding of the deterministic form of the value, or why it has none, where the form
/// that is made in place, what is written, what is judged and what the reader of this order accepts
/// agree; else `differs`.
///
/// # Errors
///
/// `AllocError` where an allocation fails.
pub fn answer_form(
    alloc: Global,
    rest: &str,
    order: KeyOrder,
) -> Result<Option<String>, AllocError> {
    let Some(bytes) = decode_pieces(alloc, rest)? else {
        return Ok(None);
    };
    let Some(value) = read_whole::<Value>(alloc, &bytes) else {
        return Ok(None);
    };
    Ok(Some(show_form(alloc, value, order)?))
}

// The encoding of the form, or why there is none.
fn show_form(alloc: Global, mut value: Value, order: KeyOrder) -> Result<String, AllocError> {
    let mut written = Vec::new(alloc);
    let answer = into_writer_deterministic(alloc, &value, order, &mut written);
    if !is_written_without_copy(alloc, &value, order, &written)? {
        return String::from_str(alloc, "differs");
    }
    let before = encode(alloc, &value)?;
    let was_own = value.is_deterministic(order);
    match (value.make_deterministic(order), answer) {
        (Ok(()), Ok(())) => {
            let is_kept = was_own == (before == written);
            if is_kept && is_form(alloc, &value, order, &written)? {
                hex::encode(alloc, &written)
            } else {
                String::from_str(alloc, "differs")
            }
        }
        (Err(kind), Err(error)) => {
            if written.is_empty() && !was_own && is_refused_with(&error, kind) {
                describe_write(alloc, error)
            } else {
                String::from_str(alloc, "differs")
            }
        }
        _ => String::from_str(alloc, "differs"),
    }
}

// Whether the call that copies no value which is its own form writes just these bytes.
fn is_written_without_copy(
    alloc: Global,
    value: &Value,
    order: KeyOrder,
    bytes: &[u8],
) -> Result<bool, AllocError> {
    let mut written = Vec::new(alloc);
    match write_deterministic_value(alloc, value, order, &mut written) {
        Err(Error::Memory) => Err(AllocError),
        _ => Ok(written.as_slice() == bytes),
    }
}

// Whether the value is its own form, with this encoding, which the reader of this order accepts.
fn is_form(
    alloc: Global,
    value: &Value,
    order: KeyOrder,
    bytes: &[u8],
) -> Result<bool, AllocError> {
    let encoding = encode(alloc, value)?;
    Ok(
        value.is_deterministic(order)
            && encoding.as_slice() == bytes
            && is_accepted(alloc, value, order, bytes),
    )
}

// Whether the reader of this order makes the value of just these bytes.
fn is_accepted(alloc: Global, value: &Value, order: KeyOrder, bytes: &[u8]) -> bool {
    let mut reader = bytes;
    match from_reader_deterministic_with_order(alloc, &mut reader, usize::MAX, order) {
        Ok(read) => read == *value && reader.is_empty(),
        Err(_) => false,
    }
}

// Whether writing was refused with this kind.
fn is_refused_with(error: &Error<io::Error>, kind: Kind) -> bool {
    match error {
        Error::Value(found) => *found == kind,
        Error::Io(_) | Error::Memory => false,
    }
}

fn encode(alloc: Global, value: &Value) -> Result<Vec<u8>, AllocError> {
    let mut bytes = Vec::new(alloc);
    match into_writer(value, &mut bytes) {
        Ok(()) => Ok(bytes),
        Err(_) => Err(AllocError),
    }
}

/// `N`: `rises` where the form of a map of so many pairs, whose keys are the numbers that fall to
/// 0, has the keys that rise from 0; else `differs`.
///
/// # Errors
///
/// `AllocError` where an allocation fails.
pub fn answer_falling(
    alloc: Global,
    rest: &str,
    order: KeyOrder,
) -> Result<Option<String>, AllocError> {
    let Some(count) = parse_number(rest) else {
        return Ok(None);
    };
    let mut pairs = Vec::new(alloc);
    for behind in 1..count.saturating_add(1) {
        let key = count.saturating_sub(behind) as u64;
        pairs.push((Value::from(key), Value::Null))?;
    }
    let mut map = Value::Map(pairs);
    let made = map.make_deterministic(order);
    let text = if made.is_ok() && counts_up(&map) {
        "rises"
    } else {
        "differs"
    };
    Ok(Some(String::from_str(alloc, text)?))
}

// Whether the keys of a map are the numbers from 0 on.
fn counts_up(map: &Value) -> bool {
    let Value::Map(pairs) = map else {
        return false;
    };
    for (index, pair) in pairs.iter().enumerate() {
        if pair.0 != Value::from(index as u64) {
            return false;
        }
    }
    true
}
