//! Calls on values that take no memory: accessors, conversions and orders.

use crate::outcome::{Failure, expect, expect_all};
use ciborium::value::canonical::{
    cmp_bytewise, cmp_keys, cmp_value, cmp_value_counted, encoded_size,
};
use ciborium::value::{CanonicalValue, Integer, KeyOrder, Value};
use std::alloc::Global;
use std::cmp::Ordering;

/// What each of `[1, h'01', "a", true, null, 1(0), [], {}]` holds.
///
/// # Errors
///
/// `Wrong` where an accessor answers something else.
pub fn look_into(values: &Value) -> Result<(), Failure> {
    let Some([number, bytes, text, truth, null, tagged, array, map]) = values
        .as_array()
        .map(|items| items.as_slice())
    else {
        return Err(Failure::Wrong);
    };
    look_into_plain_values(number, truth, null)?;
    look_into_tag(tagged)?;
    expect_all(&[
        values.is_array(),
        !values.is_map(),
        bytes.is_bytes(),
        bytes.as_bytes().map(Vec::len) == Some(1),
        text.is_text(),
        text.as_text() == Some("a"),
        array.as_array().map(Vec::len) == Some(0),
        array.as_map().is_none(),
        map.is_map(),
        map.as_map().map(Vec::len) == Some(0),
    ])
}

// What 1(0) holds.
fn look_into_tag(tagged: &Value) -> Result<(), Failure> {
    let zero = Value::from(0u8);
    let is_right = tagged.is_tag() && tagged.as_tag() == Some((1, &zero));
    expect(is_right)
}

// What 1, true and null hold.
fn look_into_plain_values(number: &Value, truth: &Value, null: &Value) -> Result<(), Failure> {
    expect_all(&[
        number.is_integer(),
        number.as_integer() == Some(Integer::from(1u8)),
        truth.is_bool(),
        truth.as_bool() == Some(true),
        null.is_null(),
        null.as_bool().is_none(),
    ])
}

/// The orders of a value and itself, and of its items.
///
/// # Errors
///
/// `Wrong` where an order is another.
pub fn compare_values(value: &Value) -> Result<(), Failure> {
    let (order, visits) = cmp_value_counted(value, value);
    let Some([number, bytes, ..]) = value.as_array().map(|items| items.as_slice()) else {
        return Err(Failure::Wrong);
    };
    expect_all(&[
        value == value,
        value.cmp(value) == Ordering::Equal,
        cmp_value(value, value) == Ordering::Equal,
        order == Ordering::Equal,
        visits >= 20,
        number < bytes,
        number.cmp(bytes) == Ordering::Less,
        cmp_value(bytes, number) == Ordering::Greater,
        cmp_bytewise(bytes, number) == Ordering::Greater,
        cmp_bytewise(value, value) == Ordering::Equal,
        cmp_keys(KeyOrder::Bytewise, number, bytes) == Ordering::Less,
        encoded_size(number) == 1,
        number.is_deterministic(KeyOrder::Bytewise),
    ])
}

/// Values that are made of what is handed over: plain ones, a text, bytes, a list and pairs.
///
/// # Errors
///
/// `Wrong` where a value holds something else.
pub fn make_values(alloc: Global, text: String, bytes: Vec<u8>) -> Result<(), Failure> {
    make_strings(text, bytes)?;
    make_plain_values()?;
    make_containers(alloc)?;
    make_canonical_values()
}

// Values of numbers and of true.
fn make_plain_values() -> Result<(), Failure> {
    expect_all(&[
        is_number(Value::from(u64::MAX), Integer::from(u64::MAX)),
        is_number(Value::from(-7i64), Integer::from(-7i8)),
        is_true(Value::from(true)),
        is_no_text(Value::from(true)),
    ])
}

fn is_number(value: Value, number: Integer) -> bool {
    value.into_integer() == Ok(number)
}

fn is_true(value: Value) -> bool {
    value.into_bool() == Ok(true)
}

// Whether this is `true`, and is given back where a text is asked for.
fn is_no_text(value: Value) -> bool {
    value.into_text() == Err(Value::Bool(true))
}

// Values of a text and of bytes.
fn make_strings(text: String, bytes: Vec<u8>) -> Result<(), Failure> {
    expect_all(&[
        is_letter(Value::from(text)),
        is_one_byte(Value::from(bytes)),
    ])
}

fn is_letter(text: Value) -> bool {
    text.as_text() == Some("a")
}

fn is_one_byte(bytes: Value) -> bool {
    bytes.as_bytes().map(Vec::as_slice) == Some(&[1])
}

// Values of a list and of pairs.
fn make_containers(alloc: Global) -> Result<(), Failure> {
    let values: Vec<Value> = Vec::new(alloc);
    let pairs: Vec<(Value, Value)> = Vec::new(alloc);
    expect_all(&[
        is_empty_array(Value::from(values)),
        is_empty_map(Value::from(pairs)),
    ])
}

fn is_empty_array(array: Value) -> bool {
    array.as_array().map(Vec::len) == Some(0)
}

fn is_empty_map(map: Value) -> bool {
    map.as_map().map(Vec::len) == Some(0)
}

// Values that are canonical ones.
fn make_canonical_values() -> Result<(), Failure> {
    let ten = CanonicalValue::from(Value::from(10u8));
    let below = CanonicalValue::from(Value::from(-1i8));
    expect_all(&[
        ten < below,
        ten.cmp(&below) == Ordering::Less,
        ten != below,
        is_number(Value::from(ten), Integer::from(10u8)),
    ])
}

/// Takes `[1, h'01', "a", true, null, 1(0), [], {}]` apart, item by item.
///
/// # Errors
///
/// `Wrong` where an item is another.
pub fn take_apart(values: Value) -> Result<(), Failure> {
    let Ok(items) = values.into_array() else {
        return Err(Failure::Wrong);
    };
    for item in items {
        take_item(item)?;
    }
    Ok(())
}

// Takes the content out of an item, after it was lent to be changed.
fn take_item(item: Value) -> Result<(), Failure> {
    match item {
        Value::Integer(_) => expect(is_number(item, Integer::from(1u8))),
        Value::Bytes(_) => take_bytes(item),
        Value::Text(_) => take_text(item),
        Value::Bool(_) => expect(is_true(item)),
        Value::Null => expect(item.into_bool() == Err(Value::Null)),
        Value::Tag(_, _) => take_tag(item),
        Value::Array(_) => take_array(item),
        Value::Map(_) => take_map(item),
    }
}

fn take_bytes(mut bytes: Value) -> Result<(), Failure> {
    expect(bytes.as_bytes_mut().is_some())?;
    expect(bytes.into_bytes().is_ok_and(|held| held.len() == 1))
}

fn take_text(mut text: Value) -> Result<(), Failure> {
    expect(text.as_text_mut().is_some())?;
    expect(text.into_text().is_ok_and(|held| held.len() == 1))
}

fn take_tag(mut tagged: Value) -> Result<(), Failure> {
    expect(tagged.as_tag_mut().is_some())?;
    expect(tagged.into_tag().is_ok_and(|held| held.0 == 1))
}

fn take_array(mut array: Value) -> Result<(), Failure> {
    expect(array.as_array_mut().is_some())?;
    expect(array.into_array().is_ok_and(|held| held.is_empty()))
}

fn take_map(mut map: Value) -> Result<(), Failure> {
    expect(map.as_map_mut().is_some())?;
    expect(map.into_map().is_ok_and(|held| held.is_empty()))
}
