// Values and lines that are sorted from any order.
use super::{sort_by_order, sort_values};
use crate::test_devices::run_on_text;
use ciborium_value::{KeyOrder, Value};
use std::alloc::{AllocError, Global};
use std::process::Abort;
use std::test::Fail;

#[test]
fn sorts_by_the_bytes(rt: HostRuntime) -> Result<(), Fail> {
    let alloc = rt.alloc();
    let values = vec![in alloc;
        Value::from(false),
        Value::from_text(alloc, "z")?,
        Value::from(-200i16),
        Value::from(10u8),
        Value::from(256u16),
        Value::from(10u8),
    ]?;
    let sorted = vec![in alloc;
        Value::from(10u8),
        Value::from(10u8),
        Value::from(256u16),
        Value::from(-200i16),
        Value::from_text(alloc, "z")?,
        Value::from(false),
    ]?;
    assert!(rt; sort_by_order(alloc, values, KeyOrder::Bytewise)? == sorted);
    Ok(())
}

#[test]
fn sorts_by_the_size_and_then_the_bytes(rt: HostRuntime) -> Result<(), Fail> {
    let alloc = rt.alloc();
    let values = vec![in alloc;
        Value::from(256u16),
        Value::from_text(alloc, "z")?,
        Value::from(false),
        Value::from(-200i16),
        Value::from(10u8),
        Value::from(false),
    ]?;
    let sorted = vec![in alloc;
        Value::from(10u8),
        Value::from(false),
        Value::from(false),
        Value::from(-200i16),
        Value::from_text(alloc, "z")?,
        Value::from(256u16),
    ]?;
    assert!(rt; sort_values(alloc, values)? == sorted);
    Ok(())
}

// More values than are sorted in place, from the last to the first.
#[test]
fn sorts_more_than_twenty_values(rt: HostRuntime) -> Result<(), Fail> {
    for order in [KeyOrder::LengthFirst, KeyOrder::Bytewise] {
        let mut values = Vec::new(rt.alloc());
        let mut sorted = Vec::new(rt.alloc());
        for number in 0..30u64 {
            values.push(Value::from(29 - number))?;
            sorted.push(Value::from(number))?;
        }
        assert!(rt; sort_by_order(rt.alloc(), values, order)? == sorted);
    }
    Ok(())
}

// Encodings in the bytewise order: the keys of RFC 8949, section 4.2.1, and numbers of every size.
const IN_BYTEWISE_ORDER: &[&[&str]] = &[
    &["0a", "1864", "20", "617a", "626161", "811864", "8120", "f4"],
    &[
        "00",
        "17",
        "1818",
        "190100",
        "1a00010000",
        "20",
        "3818",
        "40",
        "4100",
        "60",
        "80",
        "a0",
        "c100",
        "f6",
    ],
];

// Encodings in the canonical order: the keys of RFC 8949, section 4.2.3, and numbers, texts,
// arrays, tags and containers of one size.
const IN_ORDER: &[&[&str]] = &[
    &["0a", "20", "f4", "1864", "617a", "8120", "626161", "811864"],
    &[
        "0a", "20", "21", "22", "23", "f4", "1864", "3863", "38c7", "617a", "8120", "39012b",
        "626161", "811864",
    ],
    &[
        "0a",
        "f4",
        "38c7",
        "617a",
        "190100",
        "626161",
        "811864",
        "c26161",
        "c16461616161",
    ],
    &["38c7", "617a", "190100"],
    &["82016161", "82181860", "82601818", "82616101"],
    &["4401020304", "6461616161", "8401020304", "a201020304"],
];

// The lines from this one on and around, from last to first where they are to be turned.
fn reorder(
    alloc: Global,
    lines: &[&str],
    start: usize,
    is_turned: bool,
) -> Result<String, AllocError> {
    let mut text = String::new(alloc);
    for offset in 0..lines.len() {
        let index = start.wrapping_add(offset) % lines.len();
        let line = if is_turned {
            lines[lines.len() - 1 - index]
        } else {
            lines[index]
        };
        text.push_str(line)?;
        text.push('\n')?;
    }
    Ok(text)
}

// Holds the program, run with these words, to putting lines in order that come in any other.
fn expect_sorted(
    rt: &impl Abort,
    alloc: Global,
    words: &[&str],
    lines: &[&str],
) -> Result<(), Fail> {
    let sorted = reorder(alloc, lines, 0, false)?;
    for start in 0..lines.len() {
        for is_turned in [false, true] {
            let text = reorder(alloc, lines, start, is_turned)?;
            let ended = run_on_text(alloc, words, text.as_str())?;
            assert_eq!(rt; ended.output.as_slice(), sorted.as_bytes(), "{text}");
            assert_eq!(rt; ended.status, 0, "{text}");
        }
    }
    Ok(())
}

#[test]
fn sorts_from_any_order(rt: HostRuntime) -> Result<(), Fail> {
    for lines in IN_ORDER {
        expect_sorted(&rt, rt.alloc(), &["sort"], lines)?;
    }
    for lines in IN_BYTEWISE_ORDER {
        expect_sorted(&rt, rt.alloc(), &["sort", "--core"], lines)?;
    }
    Ok(())
}

// The keys of one list of RFC 8949 in the order of its other.
#[test]
fn sorts_each_list_into_the_other(rt: HostRuntime) -> Result<(), Fail> {
    let core = reorder(rt.alloc(), IN_BYTEWISE_ORDER[0], 0, false)?;
    let length_first = reorder(rt.alloc(), IN_ORDER[0], 0, false)?;
    let ended = run_on_text(rt.alloc(), &["sort"], core.as_str())?;
    assert_eq!(rt; ended.output.as_slice(), length_first.as_bytes());
    let ended = run_on_text(rt.alloc(), &["sort", "--core"], length_first.as_str())?;
    assert_eq!(rt; ended.output.as_slice(), core.as_bytes());
    Ok(())
}

// More lines than a sort takes in place.
#[test]
fn sorts_many_lines(rt: HostRuntime) -> Result<(), Fail> {
    let mut text = String::new(rt.alloc());
    let mut sorted = String::new(rt.alloc());
    for number in 0..1000u64 {
        let scattered = number * 7 % 1000;
        writeln!(text, "1a0001{scattered:04}")?;
        writeln!(sorted, "1a0001{number:04}")?;
    }
    for words in [["sort"].as_slice(), ["sort", "--core"].as_slice()] {
        let ended = run_on_text(rt.alloc(), words, text.as_str())?;
        assert_eq!(rt; ended.status, 0);
        assert_eq!(rt; ended.output.as_slice(), sorted.as_bytes());
    }
    Ok(())
}
