// The values of lines of notation, and why others are refused.
use super::read_notation;
use std::test::Fail;

// A line, a limit, and the notation of its value.
const VALUES: &[(&str, usize, &str)] = &[
    ("[1,/ two /2] # three", 1, "[1, 2]"),
    ("{\"\\u00e9\":h'0A ff'}", 256, "{\"\u{e9}\": h'0aff'}"),
    ("18446744073709551616", 0, "2(h'010000000000000000')"),
];

#[test]
fn reads_values(rt: HostRuntime) -> Result<(), Fail> {
    let mut text = Vec::new(rt.alloc());
    for &(line, limit, expected) in VALUES {
        let Some(value) = read_notation(rt.alloc(), line.as_bytes(), limit, &mut text)? else {
            panic!(rt; "{line}")
        };
        let shown = format!(in rt.alloc(); "{value}")?;
        assert_eq!(rt; shown.as_str(), expected, "{line}");
    }
    Ok(())
}

// A line, a limit, and why it is refused.
const REFUSALS: &[(&[u8], usize, &str)] = &[
    (b"", 256, "expected an item at byte 0"),
    (b"[1, ]", 256, "expected an item at byte 4"),
    (b"[1 2]", 256, "expected `,` or `]` at byte 3"),
    (b"{1: 2", 256, "expected `,` or `}` at byte 5"),
    (b"{1 2}", 256, "expected `:` at byte 3"),
    (b"1(2]", 256, "expected `)` at byte 3"),
    (b"1 2", 256, "expected the end of the text at byte 2"),
    (b"h'0'", 256, "expected a digit at byte 3"),
    (
        b"\"\\ud834\"",
        256,
        "expected a character, an escape or `\"` at byte 1",
    ),
    (b"/ x", 256, "a comment that does not end at byte 3"),
    (b"[1e5]", 256, "a floating-point number at byte 1"),
    (b"simple(3)", 256, "a simple value at byte 0"),
    (
        b"340282366920938463463374607431768211456",
        256,
        "a number that is too large at byte 0",
    ),
    (b"[{}]", 1, "nested too deep at byte 1"),
    (b"\"a\xff\"", 256, "not UTF-8 at byte 2"),
    (b"\xc3", 256, "not UTF-8 at byte 0"),
    (b"\"\xc3\xbc\xe2\x82", 256, "not UTF-8 at byte 3"),
    (b"\x80 [", 256, "not UTF-8 at byte 0"),
];

#[test]
fn refuses_other_lines(rt: HostRuntime) -> Result<(), Fail> {
    let mut text = Vec::new(rt.alloc());
    for &(line, limit, expected) in REFUSALS {
        let found = read_notation(rt.alloc(), line, limit, &mut text)?;
        assert!(rt; found.is_none(), "{expected}");
        assert_eq!(rt; text.as_slice(), expected.as_bytes(), "{expected}");
    }
    Ok(())
}
