//! Values of each variant: orders, accessors, conversions, what is lent, and copies.
use crate::expectations::{expect, expect_all, expect_same, is_ok_of};
use ciborium::value::{Integer, Value};
use ciborium_value::stack::{NewFrame, Stack};
use std::alloc::{AllocError, Global};
use std::cmp::Ordering;
use std::test::Fail;

fn array(alloc: Global, numbers: &[u8]) -> Result<Value, AllocError> {
    let mut values = Vec::new(alloc);
    for number in numbers {
        values.push(Value::from(*number))?;
    }
    Ok(Value::from(values))
}

fn tagged(alloc: Global, tag: u64, content: Value) -> Result<Value, AllocError> {
    Ok(Value::Tag(tag, Box::new(alloc, content)?))
}

// values in their order
fn ascending(alloc: Global) -> Result<Vec<Value>, AllocError> {
    let mut values = Vec::new(alloc);
    push(&mut values, Ok(Value::from(1000u16)))?;
    push(&mut values, Value::from_bytes(alloc, &[]))?;
    push(&mut values, Value::from_text(alloc, ""))?;
    push(&mut values, Ok(Value::Bool(false)))?;
    push(&mut values, Ok(Value::Null))?;
    push(&mut values, tagged(alloc, 1, Value::Null))?;
    push(&mut values, tagged(alloc, 2, Value::from(0u8)))?;
    push(&mut values, array(alloc, &[1, 2]))?;
    push(&mut values, array(alloc, &[2]))?;
    push(&mut values, Ok(Value::Map(Vec::new(alloc))))?;
    Ok(values)
}

fn push(values: &mut Vec<Value>, value: Result<Value, AllocError>) -> Result<(), AllocError> {
    values.push(value?)?;
    Ok(())
}

#[test]
fn order_by_variant_and_content(rt: HostRuntime) -> Result<(), Fail> {
    let values = ascending(rt.alloc())?;
    for (place, value) in values.iter().enumerate() {
        for (other_place, other) in values.iter().enumerate() {
            let order = place.cmp(&other_place);
            expect(compares_as(value, other, order), "another order")?;
        }
    }
    Ok(())
}

// Whether both orders of the values, the one of equality too, are this one.
fn compares_as(value: &Value, other: &Value, order: Ordering) -> bool {
    value.cmp(other) == order && (value == other) == (order == Ordering::Equal)
}

// one value of each variant, in the order of declaration
fn each_variant(alloc: Global) -> Result<Vec<Value>, AllocError> {
    let mut values = Vec::new(alloc);
    push(&mut values, Ok(Value::from(-7i8)))?;
    push(&mut values, Value::from_bytes(alloc, &[1, 2]))?;
    push(&mut values, Value::from_text(alloc, "a"))?;
    push(&mut values, Ok(Value::Bool(true)))?;
    push(&mut values, Ok(Value::Null))?;
    push(&mut values, tagged(alloc, 61, Value::Null))?;
    push(&mut values, array(alloc, &[1, 2]))?;
    push(&mut values, one_pair(alloc))?;
    Ok(values)
}

// {null: true}
fn one_pair(alloc: Global) -> Result<Value, AllocError> {
    Value::from_pairs(alloc, &[(Value::Null, Value::Bool(true))])
}

// which of the accessors that only read answer, in the order of the variants
fn read_by(value: &Value) -> [bool; 8] {
    [
        value.as_integer().is_some(),
        value.as_bytes().is_some(),
        value.as_text().is_some(),
        value.as_bool().is_some(),
        value.is_null(),
        value.as_tag().is_some(),
        value.as_array().is_some(),
        value.as_map().is_some(),
    ]
}

fn is_by(value: &Value) -> [bool; 8] {
    [
        value.is_integer(),
        value.is_bytes(),
        value.is_text(),
        value.is_bool(),
        value.is_null(),
        value.is_tag(),
        value.is_array(),
        value.is_map(),
    ]
}

// the variants of an integer, a bool and null lend nothing
fn lent_by(value: &mut Value) -> [bool; 8] {
    [
        false,
        value.as_bytes_mut().is_some(),
        value.as_text_mut().is_some(),
        false,
        false,
        value.as_tag_mut().is_some(),
        value.as_array_mut().is_some(),
        value.as_map_mut().is_some(),
    ]
}

#[test]
fn accessors_answer_by_variant(rt: HostRuntime) -> Result<(), Fail> {
    for (place, mut value) in each_variant(rt.alloc())?.into_iter().enumerate() {
        let lending = if lends(&value) { place } else { 8 };
        let answers = [
            is_alone(is_by(&value), place),
            is_alone(read_by(&value), place),
            is_alone(lent_by(&mut value), lending),
        ];
        expect_all(&answers)?;
    }
    Ok(())
}

// Whether values of this variant lend their content to be changed.
fn lends(value: &Value) -> bool {
    !matches!(value, Value::Integer(_) | Value::Bool(_) | Value::Null)
}

// Whether the accessor at this place answered, and no other one.
fn is_alone(answered: [bool; 8], place: usize) -> bool {
    for (other, is_answer) in answered.iter().enumerate() {
        if *is_answer != (other == place) {
            return false;
        }
    }
    true
}

// What the `into_` call for this variant answers, as a value again. Null has no such call.
fn converted(value: Value, variant: usize) -> Result<Value, Value> {
    match variant {
        0 => Ok(Value::from(value.into_integer()?)),
        1 => Ok(Value::from(value.into_bytes()?)),
        2 => Ok(Value::from(value.into_text()?)),
        3 => Ok(Value::from(value.into_bool()?)),
        4 => Err(value),
        5 => {
            let (tag, content) = value.into_tag()?;
            Ok(Value::Tag(tag, content))
        }
        6 => Ok(Value::from(value.into_array()?)),
        _ => Ok(Value::from(value.into_map()?)),
    }
}

#[test]
fn conversions_answer_by_variant(rt: HostRuntime) -> Result<(), Fail> {
    for (place, value) in each_variant(rt.alloc())?.iter().enumerate() {
        for variant in 0..8 {
            let answer = converted(value.clone()?, variant);
            let converts = variant == place && variant != 4;
            expect(is_given_back(answer, value, converts), "another value")?;
        }
    }
    Ok(())
}

// Whether the answer is the value, converted or not.
fn is_given_back(answer: Result<Value, Value>, value: &Value, converts: bool) -> bool {
    match answer {
        Ok(same) => converts && same == *value,
        Err(same) => !converts && same == *value,
    }
}

#[test]
fn contents_of_one(rt: HostRuntime) -> Result<(), Fail> {
    let alloc = rt.alloc();
    let seven = Integer::from(7u8);
    expect_all(&[
        Value::from(seven).as_integer() == Some(seven),
        Value::from(true).as_bool() == Some(true),
        holds_text(Value::from_text(alloc, "a"), "a"),
        holds_text(Value::from_char(alloc, '\u{fc}'), "\u{fc}"),
        holds_tag(tagged(alloc, 61, Value::Null), 61, Value::Null),
    ])
}

#[test]
fn contents_of_many(rt: HostRuntime) -> Result<(), Fail> {
    let alloc = rt.alloc();
    expect_all(&[
        holds_bytes(Value::from_bytes(alloc, &[1, 2]), &[1, 2]),
        holds_null(Value::from_values(alloc, &[Value::Null])),
        holds_null_and_true(one_pair(alloc)),
    ])
}

fn holds_bytes(answer: Result<Value, AllocError>, bytes: &[u8]) -> bool {
    match answer {
        Ok(value) => value.as_bytes().map(Vec::as_slice) == Some(bytes),
        Err(AllocError) => false,
    }
}

// Whether this is [null].
fn holds_null(answer: Result<Value, AllocError>) -> bool {
    match answer {
        Ok(array) => matches!(array.as_array().map(Vec::as_slice), Some([Value::Null])),
        Err(AllocError) => false,
    }
}

// Whether this is {null: true}.
fn holds_null_and_true(answer: Result<Value, AllocError>) -> bool {
    match answer {
        Ok(map) => matches!(
            map.as_map().map(Vec::as_slice),
            Some([(Value::Null, Value::Bool(true))])
        ),
        Err(AllocError) => false,
    }
}

fn holds_text(answer: Result<Value, AllocError>, text: &str) -> bool {
    match answer {
        Ok(value) => value.as_text() == Some(text),
        Err(AllocError) => false,
    }
}

fn holds_tag(answer: Result<Value, AllocError>, tag: u64, content: Value) -> bool {
    match answer {
        Ok(value) => is_tag_over(&value, tag, content),
        Err(AllocError) => false,
    }
}

fn is_tag_over(value: &Value, tag: u64, content: Value) -> bool {
    value.as_tag() == Some((tag, &content))
}

// A tag 61 over the byte 68 stays a tag, with what was written into it.
#[test]
fn writes_into_a_tag(rt: HostRuntime) -> Result<(), Fail> {
    let alloc = rt.alloc();
    let mut tag = tagged(alloc, 61, Value::from_bytes(alloc, &[0x68])?)?;
    let number = empty_under_tag(&mut tag);
    let is_emptied = is_tag_over(&tag, 61, Value::Bytes(Vec::new(alloc)));
    let before = replace_tag(&mut tag, 62);
    expect_all(&[
        number == Some(61),
        is_emptied,
        before == Some(61),
        is_tag_over(&tag, 62, Value::Null),
    ])
}

// Empties the bytes under a tag, whose number is the answer.
fn empty_under_tag(tag: &mut Value) -> Option<u64> {
    let (number, content) = tag.as_tag_mut()?;
    content.as_bytes_mut()?.clear();
    Some(*number)
}

// Makes a tag one of this number over null. Its number before is the answer.
fn replace_tag(tag: &mut Value, number: u64) -> Option<u64> {
    let (place, content) = tag.as_tag_mut()?;
    *content = Value::Null;
    Some(std::mem::replace(place, number))
}

#[test]
fn writes_into_strings_and_lists(rt: HostRuntime) -> Result<(), Fail> {
    let alloc = rt.alloc();
    writes_into_a_text(alloc)?;
    writes_into_an_array(alloc)?;
    let mut pairs = one_pair(alloc)?;
    let lent = pairs.as_map_mut().map(Vec::clear);
    expect(lent.is_some(), "no map")?;
    expect_same(pairs, Value::Map(Vec::new(alloc)), "other pairs")
}

fn writes_into_a_text(alloc: Global) -> Result<(), Fail> {
    let mut text = Value::Text(String::new(alloc));
    text.as_text_mut().ok_or("a text")?.push('b')?;
    expect(text.as_text() == Some("b"), "another text")
}

fn writes_into_an_array(alloc: Global) -> Result<(), Fail> {
    let expected = Value::from_values(alloc, &[Value::Null])?;
    let mut values = Value::Array(Vec::new(alloc));
    values.as_array_mut().ok_or("an array")?.push(Value::Null)?;
    expect_same(values, expected, "other values")
}

#[test]
fn numbers(rt: HostRuntime) {
    let five = Value::Integer(Integer::from(5u8));
    let values = [
        Value::from(5u8),
        Value::from(5u16),
        Value::from(5u32),
        Value::from(5u64),
        Value::from(5i8),
        Value::from(5i16),
        Value::from(5i32),
        Value::from(5i64),
        Value::from(Integer::from(5u8)),
    ];
    for value in &values {
        assert_eq!(rt; *value, five);
    }
}

// RFC 8949, section 3.4.3: a bignum's bytes have no leading zeros.
#[test]
fn large_numbers(rt: HostRuntime) -> Result<(), Fail> {
    let alloc = rt.alloc();
    let all = [0xffu8; 16];
    let mut low = all;
    low[0] = 0x7f;
    let nine = [1u8, 0, 0, 0, 0, 0, 0, 0, 0];
    let greatest = Value::from_u128(alloc, u128::MAX);
    expect_bignum(alloc, greatest, 2, &all)?;
    expect_bignum(alloc, Value::from_u128(alloc, 1 << 64), 2, &nine)?;
    expect_bignum(alloc, Value::from_i128(alloc, i128::MAX), 2, &low)?;
    expect_bignum(alloc, Value::from_i128(alloc, i128::MIN), 3, &low)
}

fn bignum(alloc: Global, tag: u64, bytes: &[u8]) -> Result<Value, AllocError> {
    tagged(alloc, tag, Value::from_bytes(alloc, bytes)?)
}

// Fails unless the answer is these bytes under this tag.
fn expect_bignum(
    alloc: Global,
    answer: Result<Value, AllocError>,
    tag: u64,
    bytes: &[u8],
) -> Result<(), Fail> {
    match bignum(alloc, tag, bytes) {
        Ok(expected) => expect(is_ok_of(answer, expected), "another bignum"),
        Err(error) => Err(Fail::from(error)),
    }
}

#[test]
fn small_numbers(rt: HostRuntime) -> Result<(), Fail> {
    let alloc = rt.alloc();
    expect_all(&[
        is_ok_of(
            Value::from_u128(alloc, (1 << 64) - 1),
            Value::from(u64::MAX),
        ),
        holds_number(Value::from_i128(alloc, -5), -5),
        holds_number(Value::from_i128(alloc, -(1 << 64)), -(1 << 64)),
    ])
}

fn holds_number(answer: Result<Value, AllocError>, number: i128) -> bool {
    match answer {
        Ok(value) => value.as_integer().map(i128::from) == Some(number),
        Err(AllocError) => false,
    }
}

// Where an allocation fails at any place, the answer is the error, and what was to be copied stays.
#[test]
fn copies(rt: HostRuntime) -> Result<(), Fail> {
    let alloc = rt.alloc();
    let same = each_variant(alloc)?;
    let source = each_variant(alloc)?;
    let is_copied = is_refused_or_array(Value::from_values(alloc, &source), &same);
    let stays = source == same;
    let value = Value::Array(source);
    let copy: Result<Value, AllocError> = value.clone();
    let is_cloned = is_refused_or_array(copy, &same);
    expect_all(&[is_copied, stays, is_cloned, value.as_array() == Some(&same)])
}

// Whether an allocation failed, or the answer is an array of these values.
fn is_refused_or_array(answer: Result<Value, AllocError>, values: &Vec<Value>) -> bool {
    match answer {
        Ok(array) => array.as_array() == Some(values),
        Err(AllocError) => true,
    }
}

#[test]
fn a_key_waits_behind_the_key_before_it(rt: HostRuntime) -> Result<(), Fail> {
    let mut stack = Stack::new(rt.alloc());
    stack.begin_frame(NewFrame::Map { behind: Some(1) })?;
    let is_first_waiting = stack.waiting_keys().is_some();
    stack.place(Value::from(1u8))?;
    let is_key_waiting = stack.waiting_keys().is_some();
    stack.place(Value::Null)?;
    stack.place(Value::from(2u8))?;
    expect_all(&[!is_first_waiting, !is_key_waiting, waits_with_two(&stack)])
}

// Whether the key 2 waits behind the key 1.
fn waits_with_two(stack: &Stack) -> bool {
    match stack.waiting_keys() {
        Some((before, key)) => {
            before.as_integer() == Some(Integer::from(1u8))
                && key.as_integer() == Some(Integer::from(2u8))
        }
        None => false,
    }
}
