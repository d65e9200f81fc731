//! What is written and read again is the value: from bytes, over a tree, and as a store.
use crate::expectations::{expect, expect_bytes, expect_same, expect_written};
use ciborium::de::Error;
use ciborium::laws::loaded_as_saved;
use ciborium::value::{CanonicalValue, KeyOrder, Kind, Value};
use ciborium::{
    from_reader, from_reader_deterministic, from_reader_deterministic_with_order, into_writer,
};
use ciborium_examples::own_types::{Figure, Message};
use ciborium_examples::round_trips::{
    copy_deterministic, through_bytes, through_store, through_tree,
};
use ciborium_examples::struct_types::{Notice, Reply};
use std::alloc::Global;
use std::collections::BTreeMap;
use std::io;
use std::test::Fail;

#[test]
fn messages_come_back(rt: HostRuntime) -> Result<(), Fail> {
    let body = String::from_str(rt.alloc(), "süß")?;
    let message = Message { version: 255, body };
    let found = through_bytes(rt.alloc(), &message);
    let Some(again) = found else {
        return Err(Fail::new("from bytes"));
    };
    expect(again == message, "from bytes")?;
    let again = through_tree(rt.alloc(), &message)?;
    expect_same(again, message, "over a tree")
}

#[test]
fn figures_come_back(rt: HostRuntime) -> Result<(), Fail> {
    let again = through_bytes(rt.alloc(), &Figure::Circle(255));
    expect_same(again, Some(Figure::Circle(255)), "a circle from bytes")?;
    let again = through_tree(rt.alloc(), &Figure::Point)?;
    expect_same(again, Figure::Point, "a point over a tree")
}

#[test]
fn replies_come_back(rt: HostRuntime) -> Result<(), Fail> {
    let title = String::from_str(rt.alloc(), "")?;
    let reply = Reply {
        title,
        number: 200,
        text: None,
    };
    let again = through_tree(rt.alloc(), &reply)?;
    expect_same(again, reply, "over a tree")
}

// {"title": "a"} and {"title": "a", "urgent": true}
#[test]
fn notices_come_back(rt: HostRuntime) -> Result<(), Fail> {
    expect_notice(rt.alloc(), false, "a1657469746c656161")?;
    expect_notice(rt.alloc(), true, "a2657469746c65616166757267656e74f5")
}

fn expect_notice(alloc: Global, urgent: bool, written: &str) -> Result<(), Fail> {
    let title = String::from_str(alloc, "a")?;
    let notice = Notice { title, urgent };
    let mut bytes = Vec::new(alloc);
    into_writer(&notice, &mut bytes)?;
    expect_bytes(alloc, Some(bytes), written)?;
    let Some(again) = through_bytes(alloc, &notice) else {
        return Err(Fail::new(written));
    };
    expect_same(again, notice, written)
}

#[test]
fn an_empty_store_comes_back(rt: HostRuntime) -> Result<(), Fail> {
    loaded_as_saved::<BTreeMap<CanonicalValue, Value>>();
    let store = BTreeMap::new(rt.alloc());
    let Some(again) = through_store(rt.alloc(), &store) else {
        return Err(Fail::new("an empty store"));
    };
    expect_same(again, store, "an empty store")
}

// The keys 10, -1, 100, "z", "aa" and [100] in canonical order (RFC 8949, section 4.2.3).
const STORE: &str = "a60a002001186402617a0362616104811864a10506";

#[test]
fn a_store_is_loaded_as_it_was_saved(rt: HostRuntime) -> Result<(), Fail> {
    let saved = hex::decode(rt.alloc(), STORE)?;
    let store = load(rt.alloc(), &saved)?;
    let mut bytes = Vec::new(rt.alloc());
    into_writer(&store, &mut bytes)?;
    expect(bytes == saved, "saved again")?;
    let mut copied = Vec::new(rt.alloc());
    let mut reader: &[u8] = &saved;
    let answer = copy_deterministic(rt.alloc(), &mut reader, &mut copied);
    expect(answer.is_some() && copied == saved, "copied")?;
    let mut reader: &[u8] = &saved;
    let same: BTreeMap<CanonicalValue, Value> = from_reader(rt.alloc(), &mut reader)?;
    expect_same(store, same, "read as a store")
}

fn load(alloc: Global, bytes: &[u8]) -> Result<BTreeMap<CanonicalValue, Value>, Fail> {
    let mut reader = bytes;
    let value = from_reader_deterministic(alloc, &mut reader, 256)?;
    Ok(value.deserialized(alloc)?)
}

// {1000: 0, "a": 1}, whose keys rise bytewise (RFC 8949, section 4.2.1), and {"a": 1, 1000: 0},
// with the shorter key first (section 4.2.3).
const BYTEWISE: &str = "a21903e800616101";

const LENGTH_FIRST: &str = "a26161011903e800";

#[test]
fn keys_rise_in_the_order_that_is_named(rt: HostRuntime) -> Result<(), Fail> {
    let alloc = rt.alloc();
    expect_written(
        alloc,
        read_by(alloc, BYTEWISE, KeyOrder::Bytewise)?,
        BYTEWISE,
    )?;
    expect_written(
        alloc,
        read_by(alloc, LENGTH_FIRST, KeyOrder::LengthFirst)?,
        LENGTH_FIRST,
    )?;
    // "a" stands at offset 5, and 1000 at offset 4.
    expect_disorder(read_by(alloc, BYTEWISE, KeyOrder::LengthFirst)?, 5)?;
    expect_disorder(read_by(alloc, LENGTH_FIRST, KeyOrder::Bytewise)?, 4)
}

fn read_by(
    alloc: Global,
    digits: &str,
    order: KeyOrder,
) -> Result<Result<Value, Error<io::Error>>, Fail> {
    let bytes = hex::decode(alloc, digits)?;
    let mut reader: &[u8] = &bytes;
    Ok(from_reader_deterministic_with_order(alloc, &mut reader, 256, order))
}

fn expect_disorder(answer: Result<Value, Error<io::Error>>, offset: usize) -> Result<(), Fail> {
    match answer {
        Err(Error::Semantic(Some(found), Kind::KeyOrder)) => {
            expect_same(found, offset, "the offset of a key")
        }
        _ => Err(Fail::new("a key out of order")),
    }
}
