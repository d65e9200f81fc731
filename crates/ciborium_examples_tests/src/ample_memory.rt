//! Each call that makes a value, and may answer `Memory`, answers the value where no growth is
//! refused. Those that read bytes, or write, are lines of the program `ciborium_rows`.
use crate::expectations::expect_written;
use ciborium::cbor;
use ciborium::value::{CanonicalValue, Error, Value};
use std::alloc::{AllocError, Global};
use std::test::Fail;

#[test]
fn answers_with_ample_memory(rt: HostRuntime) -> Result<(), Fail> {
    let alloc = rt.alloc();
    makes_strings(alloc)?;
    makes_bignums(alloc)?;
    makes_pairs(alloc)?;
    copies_a_pair(alloc)
}

// Fails unless values are made of texts, bytes and characters.
fn makes_strings(alloc: Global) -> Result<(), Fail> {
    expect_written(alloc, Value::from_text(alloc, "a"), "6161")?;
    expect_written(alloc, Value::from_bytes(alloc, &[1, 2]), "420102")?;
    expect_written(alloc, Value::from_char(alloc, 'a'), "6161")
}

// Fails unless values are made of great numbers.
fn makes_bignums(alloc: Global) -> Result<(), Fail> {
    let great = Value::from_u128(alloc, u128::MAX);
    expect_written(alloc, great, "c250ffffffffffffffffffffffffffffffff")?;
    let low = Value::from_i128(alloc, i128::MIN);
    expect_written(alloc, low, "c3507fffffffffffffffffffffffffffffff")
}

// [1, "a"]
const PAIR: &str = "82016161";

// Fails unless the pair is made of a tuple and of a literal.
fn makes_pairs(alloc: Global) -> Result<(), Fail> {
    expect_written(alloc, Value::serialized(alloc, &(1u8, "a")), PAIR)?;
    let literal: Result<Value, Error> = cbor!(alloc, [1, "a"]);
    expect_written(alloc, literal, PAIR)
}

// Fails unless the pair is copied, also as a canonical value.
fn copies_a_pair(alloc: Global) -> Result<(), Fail> {
    let pair = Value::serialized(alloc, &(1u8, "a"))?;
    let copy: Result<Value, AllocError> = pair.clone();
    let canonical = CanonicalValue::from(pair);
    let canonical_copy: Result<CanonicalValue, AllocError> = canonical.clone();
    expect_written(alloc, copy, PAIR)?;
    expect_written(alloc, canonical_copy, PAIR)
}
