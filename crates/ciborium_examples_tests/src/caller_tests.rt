//! The callers with contracts are run.
use crate::expectations::{expect, expect_all, expect_bytes, expect_same, is_refused, is_there};
use ciborium::laws::{
    equal_contents_equal_bytes, read_back_is_written_again, sources_agree, value_is_read,
    value_is_read_deterministically, written_is_read_back,
};
use ciborium::ser::Serialize;
use ciborium::tag::{Accepted, Captured, Required};
use ciborium::value::{CanonicalValue, KeyOrder, Kind, Value};
use ciborium::{de, from_reader, into_writer};
use ciborium_examples::callers::{
    bytes_of, bytes_of_message, only_item, read_behind, read_value, save, version, write_value,
};
use ciborium_examples::key_types::Release;
use ciborium_examples::own_callers::{
    bytes_of_circle, bytes_of_moment, read_figure, read_message, read_moment,
};
use ciborium_examples::own_types::{Figure, Message, Moment, Span};
use ciborium_examples::round_trips::bytes_of_both;
use ciborium_examples::sequence_callers::{read_both, write_both};
use ciborium_examples::struct_types::Reply;
use ciborium_examples::tag_types::bytes_under_a_tag;
use ciborium_examples::variant_types::{Letter, Remark};
use std::alloc::Global;
use std::collections::BTreeMap;
use std::test::Fail;

// The bytes of one item, and bytes that are none.
const ITEM: &str = "83010203";

const NO_ITEMS: [&str; 3] = ["820161ff", "8301020304", ""];

#[test]
fn only_items(rt: HostRuntime) -> Result<(), Fail> {
    for text in NO_ITEMS {
        let bytes = hex::decode(rt.alloc(), text)?;
        expect(!is_there(only_item(rt.alloc(), &bytes)), text)?;
    }
    let bytes = hex::decode(rt.alloc(), ITEM)?;
    expect_bytes(rt.alloc(), rewrite_item(rt.alloc(), &bytes), ITEM)
}

// The bytes of the item that the bytes are.
fn rewrite_item(alloc: Global, bytes: &[u8]) -> Option<Vec<u8>> {
    match only_item(alloc, bytes) {
        Some(value) => bytes_of(alloc, &value),
        None => None,
    }
}

// Messages, and the versions that they name: {"a": 1, "version": 2}, {"version": 256},
// {"version": "2"}, {h'76657273696f6e': 2}, {} and [2].
const MESSAGES: [(&str, Option<u8>); 6] = [
    ("a26161016776657273696f6e02", Some(2)),
    ("a16776657273696f6e190100", None),
    ("a16776657273696f6e6132", None),
    ("a14776657273696f6e02", None),
    ("a0", None),
    ("8102", None),
];

#[test]
fn versions(rt: HostRuntime) -> Result<(), Fail> {
    for (text, expected) in MESSAGES {
        let bytes = hex::decode(rt.alloc(), text)?;
        expect(version_of(rt.alloc(), &bytes)? == expected, text)?;
    }
    Ok(())
}

// The version that the message of these bytes names.
fn version_of(alloc: Global, bytes: &[u8]) -> Result<Option<u8>, Fail> {
    match only_item(alloc, bytes) {
        Some(message) => Ok(version(&message)),
        None => Err(Fail::new("no item")),
    }
}

// A number that ends at the greatest offset, and bytes that no offset counts.
#[test]
fn what_follows_is_not_counted(rt: HostRuntime) -> Result<(), Fail> {
    let alloc = rt.alloc();
    let bytes = hex::decode(alloc, "050000")?;
    let mut rest = bytes.as_slice();
    let number = read_behind::<u8, _>(alloc, &mut rest, usize::MAX - 1)?;
    let mut all = bytes.as_slice();
    let is_too_long = match read_behind::<u8, _>(alloc, &mut all, usize::MAX) {
        Ok(_) => false,
        Err(error) => matches!(error, de::Error::TooLong),
    };
    expect_all(&[number == 5, rest.len() == 2, is_too_long])
}

#[test]
fn messages_are_read_by_names(rt: HostRuntime) -> Result<(), Fail> {
    let alloc = rt.alloc();
    let no_body = hex::decode(alloc, "a2416318ff6776657273696f6e07")?;
    let is_read = is_refused(read_message(alloc, &mut no_body.as_slice()));
    expect(is_read, "no body")?;
    let bytes = hex::decode(alloc, "a36163f56776657273696f6e0764626f6479626869")?;
    let mut rest = bytes.as_slice();
    let message = read_message(alloc, &mut rest)?;
    sources_agree::<Message>();
    expect_all(&[
        message.version == 7,
        message.body.as_str() == "hi",
        rest.is_empty(),
    ])
}

#[test]
fn bytes_of_messages_and_numbers_under_a_tag(rt: HostRuntime) -> Result<(), Fail> {
    let alloc = rt.alloc();
    expect_bytes(alloc, bytes_under_a_tag(alloc, 2), "d8ff02")?;
    let body = String::from_str(alloc, "a")?;
    let message = Message { version: 2, body };
    let bytes = bytes_of_message(alloc, &message);
    expect_bytes(alloc, bytes, "a26776657273696f6e0264626f64796161")
}

#[test]
fn figures_are_read_back(rt: HostRuntime) -> Result<(), Fail> {
    let alloc = rt.alloc();
    let circle = bytes_of_circle(alloc, 7).ok_or("no bytes")?;
    let figure = read_figure(alloc, &mut circle.as_slice())?;
    expect_same(figure, Figure::Circle(7), "another figure")?;
    sources_agree::<Figure>();
    sources_agree::<Required<Figure, 6>>();
    expect_bytes(alloc, Some(circle), "a166436972636c6507")
}

#[test]
fn moments_are_read_back(rt: HostRuntime) -> Result<(), Fail> {
    let alloc = rt.alloc();
    let moment = Moment {
        seconds: 1363896240,
    };
    let bytes = bytes_of_moment(alloc, &moment).ok_or("no bytes")?;
    let read = read_moment(alloc, &mut bytes.as_slice())?;
    expect(read.seconds == 1363896240, "another moment")?;
    expect_bytes(alloc, Some(bytes), "c11a514b67b0")
}

// Bytes, and whether they are a sequence of two items that are values.
const PAIRS: [(&str, bool); 5] = [
    ("f7181a", true),
    ("820102a0", true),
    ("01", false),
    ("010203", false),
    ("0118", false),
];

#[test]
fn sequences_of_two(rt: HostRuntime) -> Result<(), Fail> {
    for (text, is_pair) in PAIRS {
        let bytes = hex::decode(rt.alloc(), text)?;
        let pair = read_both(rt.alloc(), &mut bytes.as_slice());
        expect(is_there(pair) == is_pair, text)?;
    }
    Ok(())
}

#[test]
fn a_sequence_is_read_back(rt: HostRuntime) -> Result<(), Fail> {
    let alloc = rt.alloc();
    let bytes = write_pair(alloc, 7u8, Value::Bool(true)).ok_or("no bytes")?;
    expect_bytes(alloc, rewrite_pair(alloc, &bytes), "07f5")?;
    expect_bytes(alloc, Some(bytes), "07f5")
}

// The bytes of two values in a row.
fn write_pair<T: Serialize + Drop, U: Serialize + Drop>(
    alloc: Global,
    first: T,
    second: U,
) -> Option<Vec<u8>> {
    let mut bytes = Vec::new(alloc);
    write_both(&first, &second, &mut bytes).ok()?;
    Some(bytes)
}

// The bytes of the two values that the bytes are.
fn rewrite_pair(alloc: Global, bytes: &[u8]) -> Option<Vec<u8>> {
    let mut rest = bytes;
    let (first, second) = read_both(alloc, &mut rest)?;
    write_pair(alloc, first, second)
}

// The library reads as `only_item` does with every clause of reading a `Value`.
#[test]
fn a_value_is_read_with_every_clause(rt: HostRuntime) -> Result<(), Fail> {
    let items = vec![in rt.alloc(); Value::from(1u8)]?;
    let mut reader: &[u8] = &[0x9f, 0x01, 0xff, 0x02];
    let value = read_value(rt.alloc(), &mut reader, 1)?;
    expect_same(value, Value::from(items), "another value")?;
    sources_agree::<Value>();
    written_is_read_back::<Vec<(u8, Option<String>)>>();
    written_is_read_back::<BTreeMap<String, Vec<i64>>>();
    written_is_read_back::<Required<Vec<Captured<String>>, 7>>();
    written_is_read_back::<Option<Accepted<u32, 8>>>();
    written_is_read_back::<Vec<Message>>();
    written_is_read_back::<Reply>();
    written_is_read_back::<Span>();
    written_is_read_back::<Figure>();
    sources_agree::<Span>();
    expect(reader == &[2u8][..], "another rest")
}

// An open array and a definite one, each before 2: the deterministic spelling has the second alone.
#[test]
fn values_are_read_as_promised(rt: HostRuntime) -> Result<(), Fail> {
    let alloc = rt.alloc();
    let mut open: &[u8] = &[0x9f, 0xff, 0x02];
    let value = value_is_read(alloc, &mut open, 1)?;
    expect_same(value, Value::Array(Vec::new(alloc)), "another value")?;
    let mut definite: &[u8] = &[0x80, 0x02];
    let value = value_is_read_deterministically(alloc, &mut definite, 1, KeyOrder::Bytewise)?;
    expect_same(value, Value::Array(Vec::new(alloc)), "another value")?;
    let mut again: &[u8] = &[0x9f, 0xff];
    let answer = value_is_read_deterministically(alloc, &mut again, 1, KeyOrder::Bytewise);
    let is_open = match answer {
        Ok(_) => false,
        Err(error) => matches!(error, de::Error::Semantic(Some(0), Kind::Open)),
    };
    expect_all(&[open == &[2u8][..], definite == &[2u8][..], is_open])
}

// A text and its copy, and two moments, are written alike.
#[test]
fn equal_contents_have_equal_bytes(rt: HostRuntime) -> Result<(), Fail> {
    let alloc = rt.alloc();
    let text = String::from_str(alloc, "a")?;
    let copy = text.clone()?;
    let (first, second) = bytes_of_both(alloc, &text, &copy).ok_or("no bytes")?;
    expect_bytes(alloc, Some(first), "6161")?;
    expect_bytes(alloc, Some(second), "6161")?;
    let moment = Moment { seconds: 7 };
    let same = Moment { seconds: 7 };
    let (first, second) = bytes_of_both(alloc, &moment, &same).ok_or("no bytes")?;
    equal_contents_equal_bytes::<BTreeMap<String, Vec<Option<i64>>>>();
    equal_contents_equal_bytes::<Required<Vec<Captured<Value>>, 7>>();
    read_back_is_written_again::<Vec<Message>>();
    read_back_is_written_again::<(Reply, Figure, Span)>();
    read_back_is_written_again::<BTreeMap<Release, Letter>>();
    expect_same(first, second, "other bytes")
}

// Keys in canonical order (RFC 8949, section 4.2.3): 10, -1, false, 100, "z", [-1], "aa", [100].
const KEYS: [(&str, u8); 8] = [
    ("f4", 2),
    ("8120", 5),
    ("20", 1),
    ("0a", 0),
    ("1864", 3),
    ("811864", 7),
    ("617a", 4),
    ("626161", 6),
];

#[test]
fn a_store_has_rising_keys(rt: HostRuntime) -> Result<(), Fail> {
    let mut store = BTreeMap::new(rt.alloc());
    for (text, number) in KEYS {
        let bytes = hex::decode(rt.alloc(), text)?;
        insert(rt.alloc(), &mut store, &bytes, number)?;
    }
    let mut bytes = Vec::new(rt.alloc());
    save(&store, &mut bytes)?;
    let expected = "a80a002001f402186403617a048120056261610681186407";
    expect_bytes(rt.alloc(), Some(bytes), expected)
}

// Puts a number behind the key of these bytes.
fn insert(
    alloc: Global,
    store: &mut BTreeMap<CanonicalValue, Value>,
    bytes: &[u8],
    number: u8,
) -> Result<(), Fail> {
    let key = only_item(alloc, bytes).ok_or("no item")?;
    let before = store.insert(CanonicalValue::from(key), Value::from(number))?;
    expect(!is_there(before), "a key twice")
}

// What is written stands behind what the writer holds.
#[test]
fn a_writer_keeps_what_it_holds(rt: HostRuntime) -> Result<(), Fail> {
    let mut out = hex::decode(rt.alloc(), "01")?;
    put(Value::Null, &mut out)?;
    put(Value::Bool(true), &mut out)?;
    expect_bytes(rt.alloc(), Some(out), "01f6f5")
}

// Writes a value behind these bytes.
fn put(value: Value, bytes: &mut Vec<u8>) -> Result<(), Fail> {
    Ok(write_value(&value, bytes)?)
}

// Remarks without and with a text: "Silent", {"Spoken": "a"}.
const REMARKS: [&str; 2] = ["6653696c656e74", "a16653706f6b656e6161"];

#[test]
fn remarks(rt: HostRuntime) -> Result<(), Fail> {
    for text in REMARKS {
        let bytes = hex::decode(rt.alloc(), text)?;
        let mut reader: &[u8] = &bytes;
        let remark: Remark = from_reader(rt.alloc(), &mut reader)?;
        let mut written = Vec::new(rt.alloc());
        into_writer(&remark, &mut written)?;
        expect(written.as_slice() == bytes.as_slice(), text)?;
    }
    Ok(())
}
