// Notation that shows the very heads of items, and why others are refused.
use super::{push_exact, write_exact};
use crate::digits::decode_line;
use std::process::Abort;
use std::test::Fail;

// The hex of some bytes, whether they are one item, and the notation or why they are none.
const ANSWERS: &[(&str, bool, &str)] = &[
    // Numbers, and heads that are not the shortest.
    ("00", true, "0"),
    ("17", true, "23"),
    ("1818", true, "24"),
    ("1903e8", true, "1000"),
    ("1bffffffffffffffff", true, "18446744073709551615"),
    ("20", true, "-1"),
    ("3863", true, "-100"),
    ("3bffffffffffffffff", true, "-18446744073709551616"),
    ("1800", true, "0_0"),
    ("190001", true, "1_1"),
    ("1a00000001", true, "1_2"),
    ("1b0000000000000001", true, "1_3"),
    ("1817", true, "23_0"),
    ("1900ff", true, "255_1"),
    ("190100", true, "256"),
    ("1a0000ffff", true, "65535_2"),
    ("1a00010000", true, "65536"),
    ("1b00000000ffffffff", true, "4294967295_3"),
    ("1b0000000100000000", true, "4294967296"),
    ("3800", true, "-1_0"),
    // Strings.
    ("40", true, "h''"),
    ("4401020304", true, "h'01020304'"),
    ("5801ff", true, "h'ff'_0"),
    ("60", true, "\"\""),
    ("6449455446", true, "\"IETF\""),
    ("62225c", true, "\"\\\"\\\\\""),
    ("62c3bc", true, "\"\u{fc}\""),
    ("7a0000000161", true, "\"a\"_2"),
    ("5f42010243030405ff", true, "(_ h'0102', h'030405')"),
    (
        "7f657374726561646d696e67ff",
        true,
        "(_ \"strea\", \"ming\")",
    ),
    ("7f78016160ff", true, "(_ \"a\"_0, \"\")"),
    ("5fff", true, "''_"),
    ("7fff", true, "\"\"_"),
    ("5f40ff", true, "(_ h'')"),
    // Arrays and maps.
    ("80", true, "[]"),
    ("83010203", true, "[1, 2, 3]"),
    ("8301820203820405", true, "[1, [2, 3], [4, 5]]"),
    ("a0", true, "{}"),
    ("a201020304", true, "{1: 2, 3: 4}"),
    ("a26161016162820203", true, "{\"a\": 1, \"b\": [2, 3]}"),
    ("980101", true, "[_0 1]"),
    ("9a000000020102", true, "[_2 1, 2]"),
    ("9800", true, "[_0 ]"),
    ("b8010203", true, "{_0 2: 3}"),
    ("b90000", true, "{_1 }"),
    ("9fff", true, "[_ ]"),
    ("bfff", true, "{_ }"),
    ("9f018202039f0405ffff", true, "[_ 1, [2, 3], [_ 4, 5]]"),
    ("9f01820203820405ff", true, "[_ 1, [2, 3], [4, 5]]"),
    ("83018202039f0405ff", true, "[1, [2, 3], [_ 4, 5]]"),
    ("83019f0203ff820405", true, "[1, [_ 2, 3], [4, 5]]"),
    (
        "bf61610161629f0203ffff",
        true,
        "{_ \"a\": 1, \"b\": [_ 2, 3]}",
    ),
    ("826161bf61626163ff", true, "[\"a\", {_ \"b\": \"c\"}]"),
    (
        "bf6346756ef563416d7421ff",
        true,
        "{_ \"Fun\": true, \"Amt\": -2}",
    ),
    // Tags, simple values and floats.
    ("c11a514b67b0", true, "1(1363896240)"),
    ("d80100", true, "1_0(0)"),
    ("d9000100", true, "1_1(0)"),
    ("d818456449455446", true, "24(h'6449455446')"),
    ("c249010000000000000000", true, "2(h'010000000000000000')"),
    ("f4", true, "false"),
    ("f5", true, "true"),
    ("f6", true, "null"),
    ("f7", true, "undefined"),
    ("f0", true, "simple(16)"),
    ("f863", true, "simple(99)"),
    ("f8ff", true, "simple(255)"),
    ("f93c00", true, "float'3c00'"),
    ("fa47c35000", true, "float'47c35000'"),
    ("fb3ff199999999999a", true, "float'3ff199999999999a'"),
    ("c1fb41d452d9ec200000", true, "1(float'41d452d9ec200000')"),
    (
        "9f1800d80180bf5f41014102fff7ffff",
        true,
        "[_ 0_0, 1_0([]), {_ (_ h'01', h'02'): undefined}]",
    ),
    // What is no item.
    ("", false, "incomplete"),
    ("82", false, "incomplete"),
    ("9f01", false, "incomplete"),
    ("6261", false, "incomplete"),
    ("5f00", false, "malformed at 1"),
    ("1c", false, "malformed at 0"),
    ("ff", false, "malformed at 0"),
    ("61ff", false, "malformed at 0"),
    ("bf01ff", false, "malformed at 2"),
    ("bb8000000000000000", false, "incomplete"),
    ("7a00000001", false, "incomplete"),
    ("0102ff", false, "trailing 2"),
];

#[test]
fn shows_very_heads(rt: HostRuntime) -> Result<(), Fail> {
    let mut bytes = Vec::new(rt.alloc());
    let mut text = Vec::new(rt.alloc());
    for &(line, is_item, answer) in ANSWERS {
        assert!(rt; decode_line(line.as_bytes(), &mut bytes).is_ok(), "{line}");
        assert_eq!(rt;
            write_exact(rt.alloc(), &bytes, &mut text)?,
            is_item,
            "{line}"
        );
        assert_eq!(rt; text.as_slice(), answer.as_bytes(), "{line}");
    }
    Ok(())
}

#[test]
fn shows_as_many_levels_as_are_kept(rt: HostRuntime) -> Result<(), Fail> {
    let mut text = Vec::new(rt.alloc());
    let mut bytes = vec![in rt.alloc(); 0x81; 256]?;
    bytes.push(0x00)?;
    assert!(rt; write_exact(rt.alloc(), &bytes, &mut text)?);
    assert_eq!(rt; text.len(), 513);
    bytes.as_mut_slice()[256] = 0x81;
    bytes.push(0x00)?;
    assert!(rt; !write_exact(rt.alloc(), &bytes, &mut text)?);
    assert_eq!(rt; text.as_slice(), b"too deep at 256".as_slice());
    Ok(())
}

#[test]
fn shows_the_item_at_the_front(rt: HostRuntime) -> Result<(), Fail> {
    let mut text = Vec::new(rt.alloc());
    text.extend_from_slice(b"0: ")?;
    assert!(rt;
        matches!(
            push_exact(rt.alloc(), b"\x18\x00\x01\x02", &mut text),
            Ok(2)
        )
    );
    assert_eq!(rt; text.as_slice(), b"0: 0_0".as_slice());
    Ok(())
}
