//! Values written in their deterministic forms, in either order of keys (RFC 8949, section 4.2).
use crate::expectations::{expect, expect_bytes, expect_same, expect_written};
use ciborium::laws::form_is_read_back;
use ciborium::ser::{Error, Serialize};
use ciborium::tag::Required;
use ciborium::value::{KeyOrder, Kind, Value};
use ciborium::{cbor, into_writer_deterministic};
use ciborium_examples::own_types::{Figure, Message};
use ciborium_examples::round_trips::{
    message_through_form, through_form, through_own_form, through_sorted_form,
};
use std::alloc::Global;
use std::collections::BTreeMap;
use std::io;
use std::test::Fail;

// {1000: 0, "a": 1}, whose keys rise bytewise (section 4.2.1), and {"a": 1, 1000: 0}, with the
// shorter key first (section 4.2.3).
const BYTEWISE: &str = "a21903e800616101";

const LENGTH_FIRST: &str = "a26161011903e800";

#[test]
fn keys_are_sorted_in_the_order_that_is_named(rt: HostRuntime) -> Result<(), Fail> {
    form_is_read_back();
    let value = cbor!(rt.alloc(), {"a" => 1, 1000 => 0})?;
    expect_form(rt.alloc(), &value, KeyOrder::Bytewise, BYTEWISE)?;
    expect_form(rt.alloc(), &value, KeyOrder::LengthFirst, LENGTH_FIRST)
}

// Fails unless the value is written and read so in this order.
fn expect_form<T: Serialize>(
    alloc: Global,
    value: &T,
    order: KeyOrder,
    digits: &str,
) -> Result<(), Fail> {
    let mut bytes = Vec::new(alloc);
    into_writer_deterministic(alloc, value, order, &mut bytes)?;
    expect_bytes(alloc, Some(bytes), digits)?;
    let Some(form) = through_form(alloc, value, order) else {
        return Err(Fail::new(digits));
    };
    expect_written(alloc, Ok::<Value, Error<io::Error>>(form), digits)
}

// The keys are tag 2 over h'01', which folds to 1 (section 3.4.3), and 1.
#[test]
fn equal_keys_are_refused(rt: HostRuntime) -> Result<(), Fail> {
    let alloc = rt.alloc();
    let folding = Value::Tag(2, Box::new(alloc, Value::from_bytes(alloc, &[1])?)?);
    let mut pairs = Vec::new(alloc);
    pairs.push((folding, Value::Null))?;
    pairs.push((Value::from(1u8), Value::Null))?;
    let value = Value::Map(pairs);
    expect_duplicate(alloc, &value, KeyOrder::Bytewise)?;
    expect_duplicate(alloc, &value, KeyOrder::LengthFirst)
}

// Fails unless the value is refused for its keys, and nothing is written behind what was there.
fn expect_duplicate(alloc: Global, value: &Value, order: KeyOrder) -> Result<(), Fail> {
    let mut bytes = hex::decode(alloc, "00")?;
    match into_writer_deterministic(alloc, value, order, &mut bytes) {
        Err(Error::Value(Kind::DuplicateKey)) => expect_bytes(alloc, Some(bytes), "00"),
        _ => Err(Fail::new("equal keys")),
    }
}

// {"body": "süß", "version": 255}
const MESSAGE: &str = "a264626f64796573c3bcc39f6776657273696f6e18ff";

#[test]
fn the_fields_of_a_struct_are_sorted(rt: HostRuntime) -> Result<(), Fail> {
    let body = String::from_str(rt.alloc(), "süß")?;
    let message = Message { version: 255, body };
    expect_form(rt.alloc(), &message, KeyOrder::Bytewise, MESSAGE)?;
    expect_form(rt.alloc(), &message, KeyOrder::LengthFirst, MESSAGE)?;
    let Some(again) = message_through_form(rt.alloc(), &message, KeyOrder::Bytewise) else {
        return Err(Fail::new(MESSAGE));
    };
    expect_same(again, message, "read as a message")
}

#[test]
fn what_is_its_own_form_comes_back(rt: HostRuntime) -> Result<(), Fail> {
    let again = through_own_form(rt.alloc(), &Figure::Circle(255), KeyOrder::Bytewise);
    expect_same(again, Some(Figure::Circle(255)), "a circle")
}

// [{"c": 255, "bb": 1}], whose keys stand in the other order in the map.
const AGES: &str = "81a2616318ff62626201";

#[test]
fn maps_in_a_list_come_back_from_their_form(rt: HostRuntime) -> Result<(), Fail> {
    let alloc = rt.alloc();
    let mut ages: BTreeMap<String, u64> = BTreeMap::new(alloc);
    ages.insert(String::from_str(alloc, "bb")?, 1)?;
    ages.insert(String::from_str(alloc, "c")?, 255)?;
    let list = vec![in alloc; ages]?;
    expect_form(alloc, &list, KeyOrder::Bytewise, AGES)?;
    expect_form(alloc, &list, KeyOrder::LengthFirst, AGES)?;
    let again = through_sorted_form(alloc, &list, KeyOrder::Bytewise);
    expect_same(again, Some(list), "read as a list of maps")
}

// 2({"c": null, "bb": true}): the tag of a bignum folds over byte strings alone.
const FLAGS: &str = "c2a26163f6626262f5";

#[test]
fn a_map_under_a_tag_comes_back_from_its_form(rt: HostRuntime) -> Result<(), Fail> {
    let alloc = rt.alloc();
    let mut flags: BTreeMap<String, Option<bool>> = BTreeMap::new(alloc);
    flags.insert(String::from_str(alloc, "bb")?, Some(true))?;
    flags.insert(String::from_str(alloc, "c")?, None)?;
    let tagged = Required::<BTreeMap<String, Option<bool>>, 2>(flags);
    expect_form(alloc, &tagged, KeyOrder::Bytewise, FLAGS)?;
    let again = through_sorted_form(alloc, &tagged, KeyOrder::LengthFirst);
    expect_same(again, Some(tagged), "read under the tag")
}

#[test]
fn a_beginning_of_the_form_goes_out(rt: HostRuntime) -> Result<(), Fail> {
    let value = cbor!(rt.alloc(), {"a" => 1, 1000 => 0})?;
    let mut room = [0u8; 5];
    let mut writer: &mut [u8] = &mut room;
    match into_writer_deterministic(rt.alloc(), &value, KeyOrder::Bytewise, &mut writer) {
        Err(Error::Io(error)) => expect(error.kind() == io::ErrorKind::WriteZero, "the error")?,
        _ => return Err(Fail::new("a writer with room for five bytes")),
    }
    expect(room == [0xa2, 0x19, 0x03, 0xe8, 0x00], "a beginning")
}
