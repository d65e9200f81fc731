//! What each error prints, written out.
use crate::expectations::{expect, expect_text};
use ciborium::value::{self, Kind, OutOfRange};
use ciborium::{de, from_reader, ll, ser, write_sequence};
use ciborium_examples::messages::{kind_text, read_error_text, tree_error_text, write_error_text};
use std::alloc::{AllocError, AllocFailed};
use std::io;
use std::test::Fail;

const KINDS: [(Kind, &str); 26] = [
    (Kind::Float, "a floating-point number"),
    (Kind::Simple, "an unassigned simple value"),
    (Kind::Break, "a break where an item has to stand"),
    (Kind::TooLarge, "a bignum that is too large"),
    (Kind::Integer, "not an integer"),
    (Kind::Bool, "not a boolean"),
    (Kind::Unit, "not null"),
    (Kind::Text, "not a text string"),
    (Kind::Char, "not a text string of one character"),
    (Kind::Bytes, "not a byte string"),
    (Kind::Array, "not an array"),
    (Kind::Map, "not a map"),
    (Kind::Name, "not a name"),
    (Kind::Variant, "not a variant of the enum"),
    (Kind::Range, "an integer out of the type's range"),
    (Kind::Tag, "not the required tag"),
    (Kind::Length, "an array too short for the tuple"),
    (Kind::Other, "a value that the type refuses"),
    (
        Kind::NotShortest,
        "a head longer than it has to be, or undefined in place of null",
    ),
    (
        Kind::Open,
        "an indefinite length where only definite ones are accepted",
    ),
    (
        Kind::NotFolded,
        "a bignum that fits in 64 bits, or has leading zeros",
    ),
    (Kind::KeyOrder, "a key out of order"),
    (Kind::DuplicateKey, "two equal keys in one map"),
    (Kind::UnknownField, "an unknown field"),
    (Kind::TrailingData, "bytes behind the item"),
    (
        Kind::NotDeterministic,
        "another encoding than the deterministic one of the value",
    ),
];

#[test]
fn kinds_in_words(rt: HostRuntime) -> Result<(), Fail> {
    for (kind, words) in KINDS {
        expect_text(rt.alloc(), kind, words)?;
        expect(kind_text(rt.alloc(), kind)?.as_str() == words, words)?;
    }
    expect_text(rt.alloc(), OutOfRange, "an integer out of the type's range")
}

fn failure() -> io::Error {
    io::Error::other("the disk is gone")
}

#[test]
fn errors_of_reading_in_words(rt: HostRuntime) -> Result<(), Fail> {
    let rows: [(de::Error<io::Error>, &str); 7] = [
        (de::Error::Io(failure()), "reading failed: the disk is gone"),
        (
            de::Error::Syntax(18446744073709551615),
            "at byte 18446744073709551615: not well-formed CBOR",
        ),
        (
            de::Error::semantic(Some(17), Kind::Range),
            "at byte 17: an integer out of the type's range",
        ),
        (de::Error::semantic(None, Kind::Array), "not an array"),
        (
            de::Error::RecursionLimitExceeded,
            "nested deeper than the limit",
        ),
        (de::Error::from(AllocError), "an allocation failed"),
        (
            de::Error::TooLong,
            "the item would end past usize::MAX bytes",
        ),
    ];
    for (error, words) in rows {
        expect(
            read_error_text(rt.alloc(), &error)?.as_str() == words,
            words,
        )?;
        expect_text(rt.alloc(), error, words)?;
    }
    Ok(())
}

#[test]
fn errors_of_heads_in_words(rt: HostRuntime) -> Result<(), Fail> {
    let rows: [(ll::Error<io::Error>, &str); 4] = [
        (ll::Error::Io(failure()), "reading failed: the disk is gone"),
        (ll::Error::Syntax(0), "at byte 0: not well-formed CBOR"),
        (ll::Error::from(AllocError), "an allocation failed"),
        (
            ll::Error::TooLong,
            "the item would end past usize::MAX bytes",
        ),
    ];
    for (error, words) in rows {
        expect_text(rt.alloc(), error, words)?;
    }
    Ok(())
}

#[test]
fn errors_of_writing_in_words(rt: HostRuntime) -> Result<(), Fail> {
    let rows: [(ser::Error<io::Error>, &str); 3] = [
        (
            ser::Error::Io(failure()),
            "writing failed: the disk is gone",
        ),
        (
            ser::Error::Value(Kind::DuplicateKey),
            "the value cannot be written: two equal keys in one map",
        ),
        (ser::Error::from(AllocError), "an allocation failed"),
    ];
    for (error, words) in rows {
        expect(
            write_error_text(rt.alloc(), &error)?.as_str() == words,
            words,
        )?;
        expect_text(rt.alloc(), error, words)?;
    }
    Ok(())
}

#[test]
fn errors_of_trees_in_words(rt: HostRuntime) -> Result<(), Fail> {
    let rows = [
        (
            value::Error::Custom(Kind::Char),
            "not a text string of one character",
        ),
        (value::Error::from(AllocError), "an allocation failed"),
    ];
    for (error, words) in rows {
        expect(tree_error_text(rt.alloc(), error)?.as_str() == words, words)?;
        expect_text(rt.alloc(), error, words)?;
    }
    Ok(())
}

// An error with a value that was not stored is one of memory too.
#[test]
fn values_that_were_not_stored(rt: HostRuntime) -> Result<(), Fail> {
    let alloc = rt.alloc();
    let words = "an allocation failed";
    let refused = || AllocFailed { value: 7u8 };
    expect_text::<de::Error<io::Error>>(alloc, de::Error::from(refused()), words)?;
    expect_text::<ser::Error<io::Error>>(alloc, ser::Error::from(refused()), words)?;
    expect_text::<ll::Error<io::Error>>(alloc, ll::Error::from(refused()), words)?;
    expect_text(alloc, value::Error::from(refused()), words)
}

// Reads the bytes as a list of numbers, and fails unless it is refused in these words.
fn expect_refusal(rt: &HostRuntime, bytes: &[u8], words: &str) -> Result<(), Fail> {
    let mut reader = bytes;
    match from_reader::<Vec<u8>, _>(rt.alloc(), &mut reader) {
        Ok(_) => Err(Fail::new("it is a list")),
        Err(error) => expect_text(rt.alloc(), error, words),
    }
}

#[test]
fn what_was_read_in_words(rt: HostRuntime) -> Result<(), Fail> {
    expect_refusal(&rt, &[0x82, 0x01, 0x1e], "at byte 2: not well-formed CBOR")?;
    expect_refusal(&rt, &[0xa0], "at byte 0: not an array")?;
    expect_refusal(&rt, &[0x81, 0x20], "an integer out of the type's range")?;
    expect_refusal(&rt, &[0x82, 0x01], "reading failed: unexpected end of file")
}

#[test]
fn what_was_written_in_words(rt: HostRuntime) -> Result<(), Fail> {
    let mut room = [0u8; 1];
    let mut writer = &mut room[..];
    match write_sequence(&[1u8, 2], &mut writer) {
        Ok(()) => Err(Fail::new("there is no room")),
        Err(error) => expect_text(rt.alloc(), error, "writing failed: write zero"),
    }
}
