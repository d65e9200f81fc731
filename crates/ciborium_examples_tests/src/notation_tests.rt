//! Values that are shown, and texts that are read.
use ciborium::value::{NotationError, NotationFault, Value};
use ciborium::{cbor, to_vec};
use ciborium_examples::notation_callers::{
    describe, describe_over_lines, print_and_read, print_lines_and_read, tell,
};
use std::test::Fail;

#[test]
fn a_value_is_shown(rt: HostRuntime) -> Result<(), Fail> {
    let value = cbor!(rt.alloc(), {"a" => [1, -2, null], 3 => {}})?;
    assert_eq!(rt;
        describe(rt.alloc(), &value)?.as_str(),
        "{\"a\": [1, -2, null], 3: {}}"
    );
    assert_eq!(rt;
        tell(rt.alloc(), &value)?.as_str(),
        "read {\"a\": [1, -2, null], 3: {}}\n"
    );
    let lines = "{\n  \"a\": [\n    1,\n    -2,\n    null\n  ],\n  3: {}\n}";
    assert_eq!(rt; describe_over_lines(rt.alloc(), &value)?.as_str(), lines);
    Ok(())
}

// Texts, and what is printed of their values, or of the error.
const TEXTS: &[(&str, &str)] = &[
    ("0", "0"),
    ("  -10 ", "-10"),
    ("0x1f", "31"),
    ("-0b101", "-5"),
    ("0o17", "15"),
    ("18446744073709551616", "2(h'010000000000000000')"),
    ("-18446744073709551617", "3(h'010000000000000000')"),
    ("-18446744073709551616", "-18446744073709551616"),
    (
        "340282366920938463463374607431768211456",
        "a number that is too large at byte 0",
    ),
    (
        "\"a\\u00fc\\ud834\\udd1e\\n\\/\"",
        "\"a\u{fc}\u{1d11e}\\n/\"",
    ),
    ("h'0A f f'", "h'0aff'"),
    ("b64'Cv8='", "h'0aff'"),
    ("b64'Cv8'", "h'0aff'"),
    (
        "[1, [], {}, / x / {1: 2, 1: 3}] # end",
        "[1, [], {}, {1: 2, 1: 3}]",
    ),
    ("1(2(undefined))", "1(2(null))"),
    ("[1, ]", "expected an item at byte 4"),
    ("[1 2]", "expected `,` or `]` at byte 3"),
    ("{1 2}", "expected `:` at byte 3"),
    ("{1: 2", "expected `,` or `}` at byte 5"),
    ("1(2]", "expected `)` at byte 3"),
    ("1 2", "expected the end of the text at byte 2"),
    ("\"\u{6c34}\" 2", "expected the end of the text at byte 6"),
    ("1.5", "a floating-point number at byte 0"),
    ("[1e5]", "a floating-point number at byte 1"),
    ("-Infinity", "a floating-point number at byte 0"),
    ("simple(3)", "a simple value at byte 0"),
    (
        "\"\\ud834\"",
        "expected a character, an escape or `\"` at byte 1",
    ),
    ("/ x", "a comment that does not end at byte 3"),
    ("", "expected an item at byte 0"),
    ("h'0'", "expected a digit at byte 3"),
    ("007", "expected the end of the text at byte 1"),
];

#[test]
fn texts_are_read(rt: HostRuntime) -> Result<(), Fail> {
    for &(text, wanted) in TEXTS {
        let shown = match Value::from_notation(rt.alloc(), text) {
            Ok(value) => format!(in rt.alloc(); "{value}")?,
            Err(error) => format!(in rt.alloc(); "{error}")?,
        };
        assert_eq!(rt; shown.as_str(), wanted, "{text}");
    }
    Ok(())
}

// Encodings, and the notation of their items: what RFC 8949, appendix A, has but for floats, simple
// values and indefinite lengths.
const EXAMPLES: &[(&str, &str)] = &[
    ("00", "0"),
    ("01", "1"),
    ("0a", "10"),
    ("17", "23"),
    ("1818", "24"),
    ("1819", "25"),
    ("1864", "100"),
    ("1903e8", "1000"),
    ("1a000f4240", "1000000"),
    ("1b000000e8d4a51000", "1000000000000"),
    ("1bffffffffffffffff", "18446744073709551615"),
    ("c249010000000000000000", "18446744073709551616"),
    ("3bffffffffffffffff", "-18446744073709551616"),
    ("c349010000000000000000", "-18446744073709551617"),
    ("20", "-1"),
    ("29", "-10"),
    ("3863", "-100"),
    ("3903e7", "-1000"),
    ("f4", "false"),
    ("f5", "true"),
    ("f6", "null"),
    (
        "c074323031332d30332d32315432303a30343a30305a",
        "0(\"2013-03-21T20:04:00Z\")",
    ),
    ("c11a514b67b0", "1(1363896240)"),
    ("d74401020304", "23(h'01020304')"),
    ("d818456449455446", "24(h'6449455446')"),
    (
        "d82076687474703a2f2f7777772e6578616d706c652e636f6d",
        "32(\"http://www.example.com\")",
    ),
    ("40", "h''"),
    ("4401020304", "h'01020304'"),
    ("60", "\"\""),
    ("6161", "\"a\""),
    ("6449455446", "\"IETF\""),
    ("62225c", "\"\\\"\\\\\""),
    ("62c3bc", "\"\\u00fc\""),
    ("63e6b0b4", "\"\\u6c34\""),
    ("64f0908591", "\"\\ud800\\udd51\""),
    ("80", "[]"),
    ("83010203", "[1, 2, 3]"),
    ("8301820203820405", "[1, [2, 3], [4, 5]]"),
    (
        "98190102030405060708090a0b0c0d0e0f101112131415161718181819",
        "[1, 2, 3, 4, 5, 6, 7, 8, 9, 10, 11, 12, 13, 14, 15, 16, 17, 18, 19, 20, 21, \
         22, 23, 24, 25]",
    ),
    ("a0", "{}"),
    ("a201020304", "{1: 2, 3: 4}"),
    ("a26161016162820203", "{\"a\": 1, \"b\": [2, 3]}"),
    ("826161a161626163", "[\"a\", {\"b\": \"c\"}]"),
    (
        "a56161614161626142616361436164614461656145",
        "{\"a\": \"A\", \"b\": \"B\", \"c\": \"C\", \"d\": \"D\", \"e\": \"E\"}",
    ),
];

#[test]
fn examples_are_read_both_ways(rt: HostRuntime) -> Result<(), Fail> {
    let alloc = rt.alloc();
    for &(digits, text) in EXAMPLES {
        let Ok(value) = Value::from_notation(alloc, text) else {
            panic!(rt; "{text}")
        };
        let Ok(bytes) = to_vec(alloc, &value) else {
            panic!(rt; "{text}")
        };
        assert_eq!(rt; hex::encode(alloc, &bytes)?.as_str(), digits, "{text}");
        let Ok(again) = Value::from_notation(alloc, describe(alloc, &value)?.as_str()) else {
            panic!(rt; "{text}")
        };
        assert!(rt; again == value, "{text}");
    }
    Ok(())
}

#[test]
fn what_is_printed_is_read(rt: HostRuntime) -> Result<(), Fail> {
    let alloc = rt.alloc();
    let value = cbor!(alloc, {"a\n\u{1d11e}\\" => [1, -2, null, []], [true] => {"" => false}})?;
    assert!(rt; print_and_read(alloc, &value, 3).is_ok_and(|again| again == value));
    assert!(rt; print_lines_and_read(alloc, &value, 3).is_ok_and(|again| again == value));
    Ok(())
}

#[test]
fn a_text_nests_no_deeper_than_the_limit(rt: HostRuntime) -> Result<(), Fail> {
    let deep = Value::from_notation_with_limit(rt.alloc(), "[1(2(3))]", 3);
    assert!(rt; deep.is_ok());
    let deeper = Value::from_notation_with_limit(rt.alloc(), "[1(2([]))]", 3);
    assert_eq!(rt; deeper, Err(NotationError::At(5, NotationFault::TooDeep)));
    Ok(())
}
