//! Deterministic forms of values, and their two orders of keys (RFC 8949, section 4.2).
use crate::expectations::{expect, expect_all, expect_bytes};
use ciborium::value::canonical::{
    cmp_bytewise, cmp_bytewise_counted, cmp_keys, cmp_value, encoded_size,
};
use ciborium::value::{BytewiseValue, CanonicalValue, KeyOrder, Kind, Value};
use ciborium::{from_reader, into_writer};
use std::alloc::Global;
use std::cmp::Ordering;
use std::collections::BTreeMap;
use std::test::Fail;

// The value of these digits.
fn value_of(alloc: Global, digits: &str) -> Result<Value, Fail> {
    let bytes = hex::decode(alloc, digits)?;
    Ok(from_reader(alloc, &mut bytes.as_slice())?)
}

// The encoding of the form of the value of these digits, or why it has none. The form is its own.
fn form_of(alloc: Global, digits: &str, order: KeyOrder) -> Result<Result<Vec<u8>, Kind>, Fail> {
    let mut value = value_of(alloc, digits)?;
    if let Err(kind) = value.make_deterministic(order) {
        return Ok(Err(kind));
    }
    expect(value.is_deterministic(order), digits)?;
    let mut bytes = Vec::new(alloc);
    into_writer(&value, &mut bytes)?;
    Ok(Ok(bytes))
}

// Fails unless the form of the first has the second as its encoding.
fn expect_form(alloc: Global, digits: &str, order: KeyOrder, form: &str) -> Result<(), Fail> {
    expect_bytes(alloc, form_of(alloc, digits, order)?.ok(), form)
}

// {"a": 1, 1000: 0}, whose keys stand in the order of their sizes.
const BY_SIZE: &str = "a26161011903e800";

// {1000: 0, "a": 1}, whose keys stand bytewise.
const BYTEWISE: &str = "a21903e800616101";

#[test]
fn keys_stand_in_the_order_that_is_asked_for(rt: HostRuntime) -> Result<(), Fail> {
    for digits in [BY_SIZE, BYTEWISE] {
        expect_form(rt.alloc(), digits, KeyOrder::LengthFirst, BY_SIZE)?;
        expect_form(rt.alloc(), digits, KeyOrder::Bytewise, BYTEWISE)?;
    }
    let value = value_of(rt.alloc(), BYTEWISE)?;
    expect_all(&[
        value.is_deterministic(KeyOrder::Bytewise),
        !value.is_deterministic(KeyOrder::LengthFirst),
    ])
}

// {{2: 0, 1: 0}: 0, {1: 0, 0: 0}: 0}: once the pairs of each key are in order, the second comes
// first, by its key 0.
#[test]
fn inner_maps_come_before_the_keys_they_stand_in(rt: HostRuntime) -> Result<(), Fail> {
    let digits = "a2a20200010000a20100000000";
    let form = "a2a20000010000a20100020000";
    expect_form(rt.alloc(), digits, KeyOrder::LengthFirst, form)?;
    expect_form(rt.alloc(), digits, KeyOrder::Bytewise, form)
}

// {2(h'01'): 0, 1: 0}, whose keys are both 1.
#[test]
fn equal_keys_have_no_form(rt: HostRuntime) -> Result<(), Fail> {
    let mut map = duplicate_by_folding(rt.alloc())?;
    expect_all(&[
        map.make_deterministic(KeyOrder::LengthFirst) == Err(Kind::DuplicateKey),
        map.make_deterministic(KeyOrder::Bytewise) == Err(Kind::DuplicateKey),
    ])
}

// The tag is made by hand, since reading folds it.
fn duplicate_by_folding(alloc: Global) -> Result<Value, Fail> {
    let bytes = Value::Bytes(hex::decode(alloc, "01")?);
    let tag = Value::Tag(2, Box::new(alloc, bytes)?);
    let mut pairs = Vec::new(alloc);
    pairs.push((tag, Value::from(0u8)))?;
    pairs.push((Value::from(1u8), Value::from(0u8)))?;
    Ok(Value::Map(pairs))
}

// A bignum of more than 64 bits loses its leading zeros.
#[test]
fn leading_zeros_are_taken(rt: HostRuntime) -> Result<(), Fail> {
    let bytes = Value::Bytes(hex::decode(rt.alloc(), "000000010000000000000000")?);
    let mut tag = Value::Tag(2, Box::new(rt.alloc(), bytes)?);
    expect(
        !tag.is_deterministic(KeyOrder::LengthFirst),
        "zeros stand there",
    )?;
    expect(
        tag.make_deterministic(KeyOrder::LengthFirst).is_ok(),
        "a form",
    )?;
    let mut written = Vec::new(rt.alloc());
    into_writer(&tag, &mut written)?;
    expect_bytes(rt.alloc(), Some(written), "c249010000000000000000")
}

// 1000 and "a": three bytes from 19, and two from 61.
#[test]
fn orders_differ(rt: HostRuntime) -> Result<(), Fail> {
    let number = Value::from(1000u16);
    let text = Value::from_text(rt.alloc(), "a")?;
    let (order, visits) = cmp_bytewise_counted(&number, &text);
    expect_all(&[
        cmp_bytewise(&number, &text) == Ordering::Less,
        cmp_value(&number, &text) == Ordering::Greater,
        cmp_keys(KeyOrder::Bytewise, &number, &text) == Ordering::Less,
        cmp_keys(KeyOrder::LengthFirst, &number, &text) == Ordering::Greater,
        order == Ordering::Less && visits == 2,
        encoded_size(&number) == 3,
        encoded_size(&text) == 2,
        BytewiseValue::from(number) < BytewiseValue::from(text),
    ])
}

// {"a": 1, 1000: 0} as a map by either order, written again.
#[test]
fn maps_are_keyed_by_either_order(rt: HostRuntime) -> Result<(), Fail> {
    let bytes = hex::decode(rt.alloc(), BY_SIZE)?;
    let by_size: BTreeMap<CanonicalValue, u8> = from_reader(rt.alloc(), &mut bytes.as_slice())?;
    let bytewise: BTreeMap<BytewiseValue, u8> = from_reader(rt.alloc(), &mut bytes.as_slice())?;
    let mut written = Vec::new(rt.alloc());
    into_writer(&by_size, &mut written)?;
    expect_bytes(rt.alloc(), Some(written), BY_SIZE)?;
    let mut written = Vec::new(rt.alloc());
    into_writer(&bytewise, &mut written)?;
    expect_bytes(rt.alloc(), Some(written), BYTEWISE)
}

// A copy of a bytewise value is the value, and each is a value again.
#[test]
fn bytewise_values_are_values(rt: HostRuntime) -> Result<(), Fail> {
    let value = value_of(rt.alloc(), BY_SIZE)?;
    let wrapped = BytewiseValue::from(value.clone()?);
    let copy = wrapped.clone()?;
    expect_all(&[copy == wrapped, Value::from(copy) == value])
}
