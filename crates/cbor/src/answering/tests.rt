// The answers to a line, where memory is ample.
use super::{answer_canon, answer_encoding, answer_line, answer_line_det, answer_seq};
use crate::buffers::Buffers;
use ciborium_value::KeyOrder;
use std::process::Abort;
use std::test::Fail;

// Holds an answer to whether the line is as it is asked for, and to its text.
fn expect_answer(
    rt: &impl Abort,
    is_ok: bool,
    buffers: &Buffers,
    expected: (bool, &str),
    line: &str,
) {
    assert_eq!(rt; is_ok, expected.0, "{line}");
    assert_eq!(rt; buffers.text.as_slice(), expected.1.as_bytes(), "{line}");
}

// A line, a limit, and the answer.
const ITEMS: &[(&str, usize, &str)] = &[
    ("1800", 256, "ok 00"),
    ("9F02ff", 1, "ok 8102"),
    ("zz", 256, "hex"),
    ("0001", 256, "trailing 1"),
    ("8180", 1, "nesting"),
    ("", 256, "io"),
    ("1e", 256, "syntax 0"),
    ("f93c00", 256, "semantic 0 float"),
    ("5bffffffffffffffff", 256, "toolong"),
];

#[test]
fn answers_lines(rt: HostRuntime) -> Result<(), Fail> {
    for &(line, limit, expected) in ITEMS {
        let answer = answer_line(rt.alloc(), line.as_bytes(), limit)?;
        assert_eq!(rt; answer.as_str(), expected, "{line}");
    }
    Ok(())
}

// A line, a limit, and the answer.
const DETERMINISTIC: &[(&str, usize, &str)] = &[
    ("a201020203", 1, "ok a201020203"),
    ("1800", 256, "semantic 0 notshortest"),
    ("9f01ff", 256, "semantic 0 open"),
    ("c24101", 256, "semantic 0 notfolded"),
    ("a202030102", 256, "semantic 3 keyorder"),
    ("0", 256, "hex"),
    // The keys 1000 and "a": length-first two bytes before three.
    ("a26161011903e800", 1, "ok a26161011903e800"),
    ("a21903e800616101", 1, "semantic 5 keyorder"),
];

#[test]
fn answers_deterministic_lines(rt: HostRuntime) -> Result<(), Fail> {
    for &(line, limit, expected) in DETERMINISTIC {
        let answer = answer_line_det(rt.alloc(), line.as_bytes(), limit)?;
        assert_eq!(rt; answer.as_str(), expected, "{line}");
    }
    Ok(())
}

// A line, the order of keys, a limit, and the answer.
const FORMS: &[(&str, KeyOrder, usize, (bool, &str))] = &[
    (
        "a21903e800616101",
        KeyOrder::LengthFirst,
        1,
        (true, "ok a26161011903e800"),
    ),
    (
        "a26161011903e800",
        KeyOrder::Bytewise,
        1,
        (true, "ok a21903e800616101"),
    ),
    // The inner maps come first: by them the outer keys are told apart.
    (
        "a2a20200010000a20100000000",
        KeyOrder::LengthFirst,
        256,
        (true, "ok a2a20000010000a20100020000"),
    ),
    ("bfff", KeyOrder::Bytewise, 1, (true, "ok a0")),
    (
        "a2c24101000101",
        KeyOrder::Bytewise,
        256,
        (false, "duplicate"),
    ),
    (
        "c35f5080000000000000000000000000000000ff",
        KeyOrder::LengthFirst,
        256,
        (false, "toolarge"),
    ),
    ("8180", KeyOrder::LengthFirst, 1, (false, "nesting")),
    ("0001", KeyOrder::Bytewise, 256, (false, "trailing 1")),
    ("zz", KeyOrder::LengthFirst, 256, (false, "hex")),
];

#[test]
fn answers_with_deterministic_encodings(rt: HostRuntime) -> Result<(), Fail> {
    let mut buffers = Buffers::new(rt.alloc());
    for &(line, order, limit, expected) in FORMS {
        let is_ok = answer_canon(rt.alloc(), line.as_bytes(), order, limit, &mut buffers)?;
        expect_answer(&rt, is_ok, &buffers, expected, line);
    }
    Ok(())
}

const SEQUENCES: &[(&str, &str)] = &[
    ("01026161", "ok 01 02 6161"),
    ("", "ok"),
    ("f71801", "ok f6 01"),
    ("0118", "item 2: io"),
    ("01ff", "item 2: semantic 0 break"),
    ("1e", "item 1: syntax 0"),
    ("zz", "hex"),
];

#[test]
fn answers_sequences(rt: HostRuntime) -> Result<(), Fail> {
    for &(line, expected) in SEQUENCES {
        let answer = answer_seq(rt.alloc(), line.as_bytes())?;
        assert_eq!(rt; answer.as_str(), expected, "{line}");
    }
    Ok(())
}

// A line of notation, a limit, whether it is one, and the answer (RFC 8949, appendix A).
const NOTATION: &[(&str, usize, (bool, &str))] = &[
    ("23", 256, (true, "17")),
    ("24", 256, (true, "1818")),
    ("1000000000000", 256, (true, "1b000000e8d4a51000")),
    ("18446744073709551615", 256, (true, "1bffffffffffffffff")),
    (
        "18446744073709551616",
        256,
        (true, "c249010000000000000000"),
    ),
    ("-18446744073709551616", 256, (true, "3bffffffffffffffff")),
    (
        "-18446744073709551617",
        256,
        (true, "c349010000000000000000"),
    ),
    ("-1000", 256, (true, "3903e7")),
    ("0x1f", 256, (true, "181f")),
    ("true", 256, (true, "f5")),
    ("undefined", 256, (true, "f6")),
    ("\"\\\"\\\\\"", 256, (true, "62225c")),
    ("\"\\u6c34\"", 256, (true, "63e6b0b4")),
    ("\"\\ud800\\udd51\"", 256, (true, "64f0908591")),
    ("\"\u{fc}\"", 256, (true, "62c3bc")),
    ("h'01 02 03 04'", 256, (true, "4401020304")),
    ("b64'AQIDBA=='", 256, (true, "4401020304")),
    ("1(1363896240)", 256, (true, "c11a514b67b0")),
    ("24(h'6449455446')", 256, (true, "d818456449455446")),
    ("[1, [2, 3], [4, 5]]", 2, (true, "8301820203820405")),
    (
        "{\"a\": 1, \"b\": [2, 3]}",
        256,
        (true, "a26161016162820203"),
    ),
    (
        "[\"a\",/ x /{\"b\":\"c\"}] # y",
        256,
        (true, "826161a161626163"),
    ),
    ("{2: 0, 1: 0, 2: 0}", 256, (true, "a3020001000200")),
    ("[[]]", 1, (false, "nested too deep at byte 1")),
    ("[1, ]", 256, (false, "expected an item at byte 4")),
];

#[test]
fn answers_notation_with_encodings(rt: HostRuntime) -> Result<(), Fail> {
    let mut buffers = Buffers::new(rt.alloc());
    for &(line, limit, expected) in NOTATION {
        let is_ok = answer_encoding(rt.alloc(), line.as_bytes(), limit, &mut buffers)?;
        expect_answer(&rt, is_ok, &buffers, expected, line);
    }
    Ok(())
}
