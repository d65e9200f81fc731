//! Values from slices, and into vectors.
use crate::expectations::{
    expect, expect_bytes, expect_same, expect_text, expect_written, is_refused, is_there,
};
use ciborium::de::{self, Deserialize};
use ciborium::laws::{one_encoding, saved_is_loaded, store_is_deterministic};
use ciborium::tag::Required;
use ciborium::value::{BytewiseValue, KeyOrder, Kind, Value};
use ciborium::{
    cbor, from_slice, from_slice_deterministic, from_slice_with_recursion_limit,
    into_writer_deterministic, to_vec,
};
use ciborium_examples::own_types::{Figure, Message};
use ciborium_examples::round_trips::through_vec;
use ciborium_examples::slice_callers::{
    both_values, is_item, load_message, load_pair, load_value, split_value,
};
use std::alloc::Global;
use std::collections::BTreeMap;
use std::io::{self, ErrorKind};
use std::test::Fail;

// Reads all of the bytes that these hex digits name.
fn read<T: Deserialize>(
    alloc: Global,
    digits: &str,
) -> Result<Result<T, de::Error<io::Error>>, Fail> {
    let bytes = hex::decode(alloc, digits)?;
    Ok(from_slice(alloc, &bytes))
}

#[test]
fn all_of_the_bytes_are_one_item(rt: HostRuntime) -> Result<(), Fail> {
    let alloc = rt.alloc();
    expect_written(alloc, read::<Value>(alloc, "83010200")?, "83010200")?;
    // What a tuple does not need is passed over, but within its array alone.
    let pair = read::<(u8, u8)>(alloc, "83010200")??;
    expect_same(pair, (1, 2), "the first two")?;
    let words = "at byte 3: bytes behind the item";
    match read::<(u8, u8)>(alloc, "82010200")? {
        Ok(_) => Err(Fail::new(words)),
        Err(error) => expect_text(alloc, error, words),
    }
}

#[test]
fn bytes_behind_the_item(rt: HostRuntime) -> Result<(), Fail> {
    match read::<Value>(rt.alloc(), "0001")? {
        Err(de::Error::Semantic(Some(1), Kind::TrailingData)) => Ok(()),
        _ => Err(Fail::new("bytes behind the item")),
    }
}

#[test]
fn no_bytes(rt: HostRuntime) -> Result<(), Fail> {
    match read::<Value>(rt.alloc(), "")? {
        Err(de::Error::Io(error)) => expect(error.kind() == ErrorKind::UnexpectedEof, "the end"),
        _ => Err(Fail::new("the end")),
    }
}

#[test]
fn an_array_that_is_too_short(rt: HostRuntime) -> Result<(), Fail> {
    match read::<(u8, u8)>(rt.alloc(), "8101")? {
        Err(de::Error::Semantic(None, Kind::Length)) => Ok(()),
        _ => Err(Fail::new("an array of one")),
    }
}

// An array within an array, so many of them, and in the innermost the number 0.
fn nested(alloc: Global, levels: usize) -> Result<Vec<u8>, Fail> {
    let mut bytes = Vec::new(alloc);
    for _ in 0..levels {
        bytes.push(0x81)?;
    }
    bytes.push(0)?;
    Ok(bytes)
}

#[test]
fn levels_are_counted(rt: HostRuntime) -> Result<(), Fail> {
    let alloc = rt.alloc();
    let fits = nested(alloc, 256)?;
    expect(load_value(alloc, &fits).is_ok(), "256 levels")?;
    let deep = nested(alloc, 257)?;
    expect(!is_item(alloc, &deep)?, "257 levels")?;
    match from_slice::<Value>(alloc, &deep) {
        Err(de::Error::RecursionLimitExceeded) => {}
        _ => return Err(Fail::new("257 levels")),
    }
    let read: Value = from_slice_with_recursion_limit(alloc, &deep, 257)?;
    expect(to_vec(alloc, &read)? == deep, "within 257 levels")
}

#[test]
fn slices_are_loaded(rt: HostRuntime) -> Result<(), Fail> {
    let alloc = rt.alloc();
    expect(is_item(alloc, &[0x9f, 0x01, 0xff])?, "an open array")?;
    expect(
        !is_item(alloc, &[0x9f, 0x01])?,
        "an array without its break",
    )?;
    let (number, text) = load_pair(alloc, &[0x9f, 0x07, 0x61, 0x61, 0xff])?;
    expect(number == 7 && text.as_str() == "a", "a pair")?;
    let bytes = hex::decode(alloc, "a26776657273696f6e0264626f64796161")?;
    let message = load_message(alloc, &bytes)?;
    expect(
        message.version == 2 && message.body.as_str() == "a",
        "a message",
    )?;
    expect(is_refused(load_message(alloc, &[0x81, 0x02])), "an array")
}

#[test]
fn values_in_a_row(rt: HostRuntime) -> Result<(), Fail> {
    let alloc = rt.alloc();
    let bytes = [0x82, 0x01, 0x02, 0xa0];
    let Some((first, rest)) = split_value(alloc, &bytes) else {
        return Err(Fail::new("an array at the front"));
    };
    expect(rest == &[0xa0u8][..], "another rest")?;
    expect_bytes(alloc, to_vec(alloc, &first).ok(), "820102")?;
    let (_, second) = both_values(alloc, &bytes).ok_or("an array and a map")?;
    expect_bytes(alloc, to_vec(alloc, &second).ok(), "a0")?;
    expect(!is_there(both_values(alloc, &bytes[..3])), "an array alone")
}

// The bytes of RFC 8949, appendix A, for [1, 2, 3] and {"a": 1, "b": [2, 3]}.
#[test]
fn bytes_of_values(rt: HostRuntime) -> Result<(), Fail> {
    let alloc = rt.alloc();
    expect_bytes(alloc, to_vec(alloc, &(1u8, 2u8, 3u8)).ok(), "83010203")?;
    let map = cbor!(alloc, {"a" => 1, "b" => [2, 3]})?;
    expect_bytes(alloc, to_vec(alloc, &map).ok(), "a26161016162820203")?;
    expect_bytes(alloc, to_vec(alloc, &Required::<u64, 1>(7)).ok(), "c107")
}

#[test]
fn what_is_kept_in_a_vector_comes_back(rt: HostRuntime) -> Result<(), Fail> {
    let alloc = rt.alloc();
    let body = String::from_str(alloc, "süß")?;
    let message = Message { version: 255, body };
    expect_same(through_vec(alloc, &message)?, message, "a message")?;
    expect_same(
        through_vec(alloc, &Figure::Circle(255))?,
        Figure::Circle(255),
        "a circle",
    )
}

#[test]
fn what_was_saved_is_loaded(rt: HostRuntime) -> Result<(), Fail> {
    let alloc = rt.alloc();
    let pair = (500u16, true);
    let mut saved = Vec::new(alloc);
    into_writer_deterministic(alloc, &pair, KeyOrder::Bytewise, &mut saved)?;
    let again = from_slice_deterministic::<(u16, bool)>(alloc, &saved, KeyOrder::Bytewise, 1)?;
    one_encoding::<(u16, bool)>();
    saved_is_loaded::<(u16, bool)>();
    expect_same(again, pair, "the pair")
}

#[test]
fn another_encoding_is_not_loaded(rt: HostRuntime) -> Result<(), Fail> {
    let alloc = rt.alloc();
    // 500 and true, and a third item that the tuple does not need.
    let longer: &[u8] = &[0x83, 0x19, 0x01, 0xf4, 0xf5, 0x00];
    match from_slice_deterministic::<(u16, bool)>(alloc, longer, KeyOrder::LengthFirst, 9) {
        Err(de::Error::Semantic(Some(0), Kind::NotDeterministic)) => Ok(()),
        _ => Err(Fail::new("another encoding")),
    }
}

#[test]
fn a_bytewise_store_is_deterministic(rt: HostRuntime) -> Result<(), Fail> {
    let mut store = BTreeMap::new(rt.alloc());
    store.insert(BytewiseValue::from(Value::from(10u8)), Value::Null)?;
    store.insert(BytewiseValue::from(Value::from(-1i8)), Value::Null)?;
    expect(store_is_deterministic(&store) == 2, "two entries")
}
