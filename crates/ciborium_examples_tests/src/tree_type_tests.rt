//! A type that holds itself is read from bytes and from a tree, and written.
use crate::expectations::{expect, expect_bytes, is_refused};
use ciborium::de::Error;
use ciborium::value::{Kind, Value};
use ciborium::{from_reader, into_writer};
use ciborium_examples::tree_types::NumberTree;
use std::alloc::Global;
use std::io;
use std::test::Fail;

// Trees, and what is written for them: 255, [], [1, [2, [], 3]], and an open list of an open one.
const TREES: [(&str, &str); 4] = [
    ("18ff", "18ff"),
    ("80", "80"),
    ("820183028003", "820183028003"),
    ("9f019f02ffff", "82018102"),
];

#[test]
fn trees_are_written_as_read(rt: HostRuntime) -> Result<(), Fail> {
    for (given, written) in TREES {
        let bytes = hex::decode(rt.alloc(), given)?;
        let tree = read(rt.alloc(), &bytes)?;
        expect_bytes(rt.alloc(), Some(write(rt.alloc(), &tree)?), written)?;
        let value = read_value(rt.alloc(), &bytes)?;
        let same: NumberTree = value.deserialized(rt.alloc())?;
        expect(same == tree, given)?;
    }
    Ok(())
}

// 256, -1, "a", null, [1, [h'']], a map and a tag.
const OTHERS: [&str; 7] = ["190100", "20", "6161", "f6", "82018140", "a10102", "c101"];

#[test]
fn other_items_are_refused(rt: HostRuntime) -> Result<(), Fail> {
    for given in OTHERS {
        let bytes = hex::decode(rt.alloc(), given)?;
        let answer = read(rt.alloc(), &bytes);
        expect(
            matches!(answer, Err(Error::Semantic(None, Kind::Other))),
            given,
        )?;
        let value = read_value(rt.alloc(), &bytes)?;
        expect(
            is_refused(value.deserialized::<NumberTree>(rt.alloc())),
            given,
        )?;
    }
    Ok(())
}

#[test]
fn trees_nest_to_the_limit(rt: HostRuntime) -> Result<(), Fail> {
    let deep = nested(rt.alloc(), 256)?;
    let tree = read(rt.alloc(), &deep)?;
    expect(write(rt.alloc(), &tree)? == deep, "256 levels")?;
    let answer = read(rt.alloc(), &nested(rt.alloc(), 257)?);
    expect(
        matches!(answer, Err(Error::RecursionLimitExceeded)),
        "257 levels",
    )
}

// So many lists of one part, one in the other, round 0.
fn nested(alloc: Global, levels: usize) -> Result<Vec<u8>, Fail> {
    let mut bytes = Vec::new(alloc);
    for _ in 0..levels {
        bytes.push(0x81)?;
    }
    bytes.push(0)?;
    Ok(bytes)
}

fn read(alloc: Global, bytes: &[u8]) -> Result<NumberTree, Error<io::Error>> {
    let mut reader = bytes;
    from_reader(alloc, &mut reader)
}

fn read_value(alloc: Global, bytes: &[u8]) -> Result<Value, Error<io::Error>> {
    let mut reader = bytes;
    from_reader(alloc, &mut reader)
}

fn write(alloc: Global, tree: &NumberTree) -> Result<Vec<u8>, Fail> {
    let mut bytes = Vec::new(alloc);
    into_writer(tree, &mut bytes)?;
    Ok(bytes)
}
