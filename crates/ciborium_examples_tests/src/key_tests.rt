//! Maps by keys of every kind are read and written: the entries stand in the order of their keys,
//! and of equal keys the last value counts.
use crate::expectations::expect_bytes;
use ciborium::de::Deserialize;
use ciborium::ser::Serialize;
use ciborium::tag::{Accepted, Captured, Required};
use ciborium::value::Value;
use ciborium::{from_reader, into_writer};
use ciborium_examples::key_types::Release;
use ciborium_examples::variant_types::Letter;
use std::alloc::Global;
use std::collections::BTreeMap;
use std::test::Fail;

// {{"version": 2, "name": "a"}: 1, {"version": 1, "name": "b"}: 2, {"version": 1, "name": "a"}: 3,
// {"version": 2, "name": "a"}: 4}
const RELEASES: &str = "a4a26776657273696f6e02646e616d65616101a26776657273696f6e01646e616d65616202\
    a26776657273696f6e01646e616d65616103a26776657273696f6e02646e616d65616104";

const RELEASES_IN_ORDER: &str = "a3a26776657273696f6e01646e616d65616103\
    a26776657273696f6e01646e616d65616202a26776657273696f6e02646e616d65616104";

#[test]
fn structs_are_keys(rt: HostRuntime) -> Result<(), Fail> {
    expect_rewritten::<BTreeMap<Release, u8>>(rt.alloc(), RELEASES, RELEASES_IN_ORDER)
}

// {{"B": 2}: 1, "A": 2, {"B": 1}: 3}
const LETTERS: &str = "a3a161420201614102a161420103";

const LETTERS_IN_ORDER: &str = "a3614102a161420103a161420201";

#[test]
fn enums_are_keys(rt: HostRuntime) -> Result<(), Fail> {
    expect_rewritten::<BTreeMap<Letter, u8>>(rt.alloc(), LETTERS, LETTERS_IN_ORDER)
}

// {1(5): 1, 5: 2, 1(4): 3}; a key without a tag comes first.
#[test]
fn captured_tags_are_keys(rt: HostRuntime) -> Result<(), Fail> {
    let keys = "a3c105010502c10403";
    expect_rewritten::<BTreeMap<Captured<u8>, u8>>(rt.alloc(), keys, "a30502c10403c10501")
}

// {1(5): 1, 1(4): 2}
#[test]
fn required_tags_are_keys(rt: HostRuntime) -> Result<(), Fail> {
    let keys = "a2c10501c10402";
    expect_rewritten::<BTreeMap<Required<u8, 1>, u8>>(rt.alloc(), keys, "a2c10402c10501")
}

// {5: 1, 1(4): 2, 1(5): 3}; with its tag and without it a key is the same.
#[test]
fn accepted_tags_are_keys(rt: HostRuntime) -> Result<(), Fail> {
    let keys = "a30501c10402c10503";
    expect_rewritten::<BTreeMap<Accepted<u8, 1>, u8>>(rt.alloc(), keys, "a2c10402c10503")
}

// {{1: 2}: 1, {1: 1}: 2, {}: 3}
#[test]
fn maps_are_keys(rt: HostRuntime) -> Result<(), Fail> {
    let keys = "a3a1010201a1010102a003";
    expect_rewritten::<BTreeMap<BTreeMap<u8, u8>, u8>>(rt.alloc(), keys, "a3a003a1010102a1010201")
}

// Fails unless what is read of these bytes, and of the tree that they are, is written so.
fn expect_rewritten<T: Deserialize + Serialize>(
    alloc: Global,
    given: &str,
    written: &str,
) -> Result<(), Fail> {
    let bytes = hex::decode(alloc, given)?;
    let mut reader = bytes.as_slice();
    let value: T = from_reader(alloc, &mut reader)?;
    let mut out = Vec::new(alloc);
    into_writer(&value, &mut out)?;
    expect_bytes(alloc, Some(out), written)?;
    expect_rewritten_tree::<T>(alloc, &bytes, written)
}

// Fails unless what is read of the tree of these bytes is written so.
fn expect_rewritten_tree<T: Deserialize + Serialize>(
    alloc: Global,
    bytes: &[u8],
    written: &str,
) -> Result<(), Fail> {
    let mut reader = bytes;
    let tree: Value = from_reader(alloc, &mut reader)?;
    let value: T = tree.deserialized(alloc)?;
    let mut out = Vec::new(alloc);
    into_writer(&value, &mut out)?;
    expect_bytes(alloc, Some(out), written)
}
