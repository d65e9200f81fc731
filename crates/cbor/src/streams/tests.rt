// Streams of items, how each kind is shown, where they end, and faults.
use super::show_items;
use crate::fault::Fault;
use crate::reading::{Layout, Showing, Spelling};
use crate::test_devices::{Asker, Device, Mended, Source, Tally, Viewer};
use ciborium::de::RECURSION_LIMIT;
use ciborium_value::KeyOrder;
use std::alloc::Global;
use std::cell::Cell;
use std::io::{ErrorKind, Read, Write};
use std::process::Abort;
use std::test::Fail;

const SHOWINGS: [Showing; 3] = [
    Showing::Encoding(Spelling::Any),
    Showing::Notation(Layout::OneLine),
    Showing::Notation(Layout::Indented),
];

// An item, and its line in each showing.
const ITEMS: &[(&[u8], [&str; 3])] = &[
    (b"\x18\x18", ["1818\n", "24\n", "24\n"]),
    (b"\x19\x00\x17", ["17\n", "23\n", "23\n"]),
    (b"\x29", ["29\n", "-10\n", "-10\n"]),
    (b"\x42\x01\xab", ["4201ab\n", "h'01ab'\n", "h'01ab'\n"]),
    (
        b"\x5f\x41\x01\x41\xab\xff",
        ["4201ab\n", "h'01ab'\n", "h'01ab'\n"],
    ),
    (
        b"\x63a\"\n",
        ["6361220a\n", "\"a\\\"\\n\"\n", "\"a\\\"\\n\"\n"],
    ),
    (b"\x7f\x61a\x61b\xff", ["626162\n", "\"ab\"\n", "\"ab\"\n"]),
    (b"\xf4", ["f4\n", "false\n", "false\n"]),
    (b"\xf5", ["f5\n", "true\n", "true\n"]),
    (b"\xf7", ["f6\n", "null\n", "null\n"]),
    (b"\xc1\x00", ["c100\n", "1(0)\n", "1(0)\n"]),
    (b"\xc2\x42\x01\x00", ["190100\n", "256\n", "256\n"]),
    (b"\x80", ["80\n", "[]\n", "[]\n"]),
    (
        b"\x82\x01\x9f\x02\x20\xff",
        [
            "8201820220\n",
            "[1, [2, -1]]\n",
            "[\n  1,\n  [\n    2,\n    -1\n  ]\n]\n",
        ],
    ),
    (b"\xbf\xff", ["a0\n", "{}\n", "{}\n"]),
    (
        b"\xa2\x61a\x01\x61b\x81\xf6",
        [
            "a2616101616281f6\n",
            "{\"a\": 1, \"b\": [null]}\n",
            "{\n  \"a\": 1,\n  \"b\": [\n    null\n  ]\n}\n",
        ],
    ),
];

// Holds what is shown of an input to whether it is a sequence of items, and to the text.
fn expect_shown<R: Read>(
    rt: &impl Abort,
    alloc: Global,
    input: &mut R,
    showing: Showing,
    limit: usize,
    expected: (bool, &[u8]),
) {
    let mut output = Vec::new(alloc);
    let shown = show_items(alloc, input, b"", showing, limit, &mut output);
    assert_eq!(rt; output.as_slice(), expected.1);
    assert!(rt; matches!(shown, Ok(is_sequence) if is_sequence == expected.0));
}

#[test]
fn shows_each_kind_of_item(rt: HostRuntime) -> Result<(), Fail> {
    for (place, showing) in SHOWINGS.iter().enumerate() {
        let mut bytes = Vec::new(rt.alloc());
        let mut text = Vec::new(rt.alloc());
        for (item, lines) in ITEMS {
            bytes.extend_from_slice(item)?;
            text.extend_from_slice(lines[place].as_bytes())?;
        }
        for most in [1, 3, usize::MAX] {
            let mut source = Source::new(&bytes, most, None);
            let expected = (true, text.as_slice());
            expect_shown(
                &rt,
                rt.alloc(),
                &mut source,
                *showing,
                RECURSION_LIMIT,
                expected,
            );
        }
    }
    Ok(())
}

// A sequence that ends anywhere: each item that is whole is shown, and behind them the one that is
// cut short is named.
#[test]
fn tells_the_end_from_a_cut(rt: HostRuntime) -> Result<(), Fail> {
    let mut bytes = Vec::new(rt.alloc());
    let mut text = Vec::new(rt.alloc());
    for (index, (item, lines)) in ITEMS.iter().enumerate() {
        let start = bytes.len();
        bytes.extend_from_slice(item)?;
        for end in start..bytes.len() {
            let shown = text.len();
            if end > start {
                write!(text, "item {}: io\n", index + 1)?;
            }
            let mut source = Source::new(&bytes[..end], 2, None);
            let expected = (end == start, text.as_slice());
            expect_shown(
                &rt,
                rt.alloc(),
                &mut source,
                Showing::Encoding(Spelling::Any),
                RECURSION_LIMIT,
                expected,
            );
            text.truncate(shown);
        }
        text.extend_from_slice(lines[0].as_bytes())?;
    }
    Ok(())
}

// A sequence, a limit, and what is shown of its items, of which one is refused.
const REFUSED: &[(&[u8], usize, &str)] = &[
    (b"\x01\x61a\x1e\x02", 256, "1\n\"a\"\nitem 3: syntax 3\n"),
    (b"\x01\x82\x02\x1e", 256, "1\nitem 2: syntax 3\n"),
    // The offset counts the bytes of the items as they are spelled.
    (
        b"\x5f\x41\x01\x41\xab\xff\x9f\x02\xff\x82\x01\x1e",
        256,
        "h'01ab'\n[2]\nitem 3: syntax 11\n",
    ),
    (b"\x62\xc3\x28", 256, "item 1: syntax 0\n"),
    (b"\x00\xff\x00", 256, "0\nitem 2: semantic 1 break\n"),
    (b"\x81\xf9\x3c\x00", 256, "item 1: semantic 1 float\n"),
    (b"\x00\xe0", 256, "0\nitem 2: semantic 1 simple\n"),
    (
        b"\xc3\x50\x80\0\0\0\0\0\0\0\0\0\0\0\0\0\0\0",
        256,
        "item 1: semantic 0 toolarge\n",
    ),
    (
        b"\x00\x5b\xff\xff\xff\xff\xff\xff\xff\xff",
        256,
        "0\nitem 2: toolong\n",
    ),
    (b"\x80\x81\x80\x00", 1, "[]\nitem 2: nesting\n0\n"),
    (b"\x00\x80", 0, "0\nitem 2: nesting\n"),
];

#[test]
fn names_the_item_that_is_refused(rt: HostRuntime) {
    let showing = Showing::Notation(Layout::OneLine);
    for &(bytes, limit, text) in REFUSED {
        for most in [1, usize::MAX] {
            let mut source = Source::new(bytes, most, None);
            let expected = (false, text.as_bytes());
            expect_shown(&rt, rt.alloc(), &mut source, showing, limit, expected);
        }
    }
}

// A sequence, how it is shown, and the lines: behind a well-formed item that is refused the next is
// shown, and nothing behind what is none.
const GO_ON: &[(&[u8], Showing, &str)] = &[
    (
        b"\x01\xf9\x3c\x00\x02",
        Showing::Notation(Layout::OneLine),
        "1\nitem 2: semantic 1 float\n2\n",
    ),
    (
        b"\x00\xf8\x63\x61a",
        Showing::Encoding(Spelling::Any),
        "00\nitem 2: semantic 1 simple\n6161\n",
    ),
    (
        b"\x01\x82\x00\x18\x01\x02",
        Showing::Encoding(Spelling::Deterministic(KeyOrder::LengthFirst)),
        "01\nitem 2: semantic 3 notshortest\n02\n",
    ),
    (
        b"\xa2\x61b\x00\x61a\x00\x03",
        Showing::Encoding(Spelling::Deterministic(KeyOrder::Bytewise)),
        "item 1: semantic 4 keyorder\n03\n",
    ),
    (
        b"\xa2\x01\x00\x01\x00\x18\x03",
        Showing::Form(KeyOrder::LengthFirst),
        "item 1: duplicate\n03\n",
    ),
    // What follows the float inside its item is passed over.
    (
        b"\x84\xf9\x3c\x00\x43\x01\x02\x03\x7f\x61a\xff\xbf\xff\x05",
        Showing::Notation(Layout::OneLine),
        "item 1: semantic 1 float\n5\n",
    ),
    (
        b"\xfa\0\0\0\0\xf8\x63\x20",
        Showing::Notation(Layout::OneLine),
        "item 1: semantic 0 float\nitem 2: semantic 5 simple\n-1\n",
    ),
    (
        b"\xf9\x3c\x00\x82\x01",
        Showing::Notation(Layout::OneLine),
        "item 1: semantic 0 float\nitem 2: io\n",
    ),
    (
        b"\xf9\x3c\x00\x1e\x00",
        Showing::Notation(Layout::OneLine),
        "item 1: semantic 0 float\nitem 2: syntax 3\n",
    ),
    // What stands behind a float, in one item, is no item.
    (
        b"\x82\xf9\x3c\x00\x1e\x00",
        Showing::Notation(Layout::OneLine),
        "item 1: semantic 1 float\n",
    ),
    (
        b"\x81\xff\x00",
        Showing::Notation(Layout::OneLine),
        "item 1: semantic 1 break\n",
    ),
];

#[test]
fn goes_on_behind_a_refused_item(rt: HostRuntime) {
    for &(bytes, showing, text) in GO_ON {
        for most in [1, 2, usize::MAX] {
            let mut source = Source::new(bytes, most, None);
            let expected = (false, text.as_bytes());
            expect_shown(&rt, rt.alloc(), &mut source, showing, 256, expected);
        }
    }
}

// The float stands behind 5,000 bytes of its item, which no buffer holds whole behind the first.
#[test]
fn goes_on_behind_the_buffer(rt: HostRuntime) -> Result<(), Fail> {
    let mut bytes = Vec::new(rt.alloc());
    for head in [b"\x59\x13\x85".as_slice(), b"\x82\x59\x13\x85"] {
        bytes.extend_from_slice(head)?;
        bytes.extend_from_slice(&[0; 4997])?;
    }
    bytes.extend_from_slice(b"\xf9\x3c\x00\x05")?;
    for most in [1, 3000, usize::MAX] {
        let mut source = Source::new(&bytes, most, None);
        let mut output = Vec::new(rt.alloc());
        let showing = Showing::Encoding(Spelling::Any);
        let shown = show_items(rt.alloc(), &mut source, b"", showing, 256, &mut output);
        assert!(rt; matches!(shown, Ok(false)));
        assert!(rt;
            output
                .as_slice()
                .ends_with(b"00\nitem 2: semantic 10001 float\n05\n"),
            "{most}"
        );
    }
    Ok(())
}

// An item of 257 levels ends the stream where it is refused, and not where the limit allows it.
#[test]
fn ends_at_an_item_that_is_too_deep(rt: HostRuntime) -> Result<(), Fail> {
    for (inner, limit, text) in [
        (b"\x00".as_slice(), 256, "item 1: nesting\n"),
        (b"\x00", 257, "]\n1\n"),
        (b"\xe0", 257, "item 1: semantic 257 simple\n"),
    ] {
        let mut bytes = Vec::new(rt.alloc());
        bytes.extend_from_slice(&[0x81; 257])?;
        bytes.extend_from_slice(inner)?;
        bytes.extend_from_slice(b"\x01")?;
        for most in [1, usize::MAX] {
            let mut source = Source::new(&bytes, most, None);
            let mut output = Vec::new(rt.alloc());
            let showing = Showing::Notation(Layout::OneLine);
            let shown = show_items(rt.alloc(), &mut source, b"", showing, limit, &mut output);
            assert!(rt; matches!(shown, Ok(all) if all != text.starts_with("item")));
            assert!(rt; output.as_slice().ends_with(text.as_bytes()), "{most}");
            assert_eq!(rt;
                output.starts_with(b"item"),
                text.starts_with("item"),
                "{most}"
            );
        }
    }
    Ok(())
}

// Two items of 5,000 bytes stand before the one that is refused, so that no buffer holds all three,
// whatever spellings are taken.
#[test]
fn counts_offsets_past_the_buffer(rt: HostRuntime) -> Result<(), Fail> {
    let mut bytes = Vec::new(rt.alloc());
    for _ in 0..2 {
        bytes.extend_from_slice(b"\x59\x13\x85")?;
        bytes.extend_from_slice(&[0; 4997])?;
    }
    bytes.extend_from_slice(b"\x82\x01\x1e")?;
    for showing in [
        Showing::Encoding(Spelling::Any),
        Showing::Encoding(Spelling::Deterministic(KeyOrder::LengthFirst)),
        Showing::Encoding(Spelling::Deterministic(KeyOrder::Bytewise)),
        Showing::Form(KeyOrder::Bytewise),
    ] {
        for most in [1, 3000, usize::MAX] {
            let mut source = Source::new(&bytes, most, None);
            let mut output = Vec::new(rt.alloc());
            let shown = show_items(rt.alloc(), &mut source, b"", showing, 256, &mut output);
            assert!(rt; matches!(shown, Ok(false)));
            assert!(rt;
                output.as_slice().ends_with(b"00\nitem 3: syntax 10002\n"),
                "{most}"
            );
        }
    }
    Ok(())
}

// Each item is shown, and its line flushed, before the device is asked for the next; and behind the
// one that is refused it is not asked again.
#[test]
fn shows_before_it_asks(rt: HostRuntime) {
    expect_seen(&rt, rt.alloc(), &["\x01", "aa", "\x1e", " "], (3, 3));
}

// So it is where the device gives the head of an item behind another.
#[test]
fn shows_before_it_asks_for_the_rest(rt: HostRuntime) {
    expect_seen(&rt, rt.alloc(), &["\x01a", "aa", "a\x1e", " "], (3, 4));
}

// Holds what the device gives, and the lines that are seen of it, to these numbers.
fn expect_seen(rt: &impl Abort, alloc: Global, given: &[&str], expected: (usize, usize)) {
    let seen = Cell::new(0);
    let mut input = Asker::new(given, &seen);
    let mut output = Viewer::new(&seen);
    let ended = show_items(
        alloc,
        &mut input,
        b"",
        Showing::Encoding(Spelling::Any),
        256,
        &mut output,
    );
    assert!(rt; matches!(ended, Ok(false)));
    assert_eq!(rt; (input.given(), seen.get()), expected);
}

// How often an item stands in a row, how many bytes the device gives at once, and how often the
// lines are written, and flushed. At most 32 KiB wait.
const ROWS: [(&[u8], usize, usize, usize, usize); 7] = [
    (b"\x01", 0, 1, 0, 0),
    (b"\x01", 5000, usize::MAX, 1, 1),
    (b"\x01", 5000, 1, 5000, 5000),
    (b"\x61a", 5000, 3, 3334, 3334),
    (b"\x82\xf6\x20", 3000, usize::MAX, 2, 2),
    (b"\xf6", 8192, usize::MAX, 3, 2),
    (b"\x01", 20_000, usize::MAX, 3, 3),
];

#[test]
fn writes_the_lines_of_a_read_at_once(rt: HostRuntime) -> Result<(), Fail> {
    for (item, count, most, writes, flushes) in ROWS {
        let mut bytes = Vec::new(rt.alloc());
        for _ in 0..count {
            bytes.extend_from_slice(item)?;
        }
        let mut source = Source::new(&bytes, most, None);
        let mut output = Tally::new();
        let showing = Showing::Notation(Layout::OneLine);
        let shown = show_items(rt.alloc(), &mut source, b"", showing, 256, &mut output);
        assert!(rt; matches!(shown, Ok(true)));
        assert_eq!(rt; output.calls(), (writes, flushes), "{count} {most}");
    }
    Ok(())
}

// A line that is too long to wait comes behind those that wait.
#[test]
fn keeps_the_order_of_a_long_line(rt: HostRuntime) -> Result<(), Fail> {
    let mut bytes = Vec::new(rt.alloc());
    let mut text = Vec::new(rt.alloc());
    for (head, line) in [
        ("\x01", "01\n"),
        ("\x59\x4e\x20", "594e20"),
        ("\x02", "\n02\n"),
    ] {
        bytes.extend_from_slice(head.as_bytes())?;
        text.extend_from_slice(line.as_bytes())?;
        for _ in 0..if head.len() > 1 { 20_000 } else { 0 } {
            bytes.extend_from_slice(b"z")?;
            text.extend_from_slice(b"7a")?;
        }
    }
    for most in [1, usize::MAX] {
        let mut source = Source::new(&bytes, most, None);
        let expected = (true, text.as_slice());
        expect_shown(
            &rt,
            rt.alloc(),
            &mut source,
            Showing::Encoding(Spelling::Any),
            256,
            expected,
        );
    }
    Ok(())
}

// The bytes before a fault of the device, the fault, those behind it, and what is shown where the
// device was only interrupted.
const FAULTS: &[(&[u8], ErrorKind, &[u8], Option<&str>)] = &[
    (
        b"\x01\x82\x02",
        ErrorKind::Interrupted,
        b"\x03",
        Some("01\n820203\n"),
    ),
    (b"\x01", ErrorKind::Interrupted, b"", Some("01\n")),
    (b"", ErrorKind::Interrupted, b"\x01", Some("01\n")),
    (b"\x01\x82\x02", ErrorKind::Other, b"\x03", None),
    (b"\x01\x82\x02", ErrorKind::Other, b"", None),
    (b"\x01\x82\x02", ErrorKind::UnexpectedEof, b"\x03", None),
    (b"\x01", ErrorKind::Other, b"\x03", None),
    (b"\x01", ErrorKind::UnexpectedEof, b"", None),
];

#[test]
fn tells_a_fault_of_the_input(rt: HostRuntime) {
    for &(before, kind, after, text) in FAULTS {
        let mut input = Mended::new(before, kind, after);
        let mut output = Vec::new(rt.alloc());
        let shown = show_items(
            rt.alloc(),
            &mut input,
            b"",
            Showing::Encoding(Spelling::Any),
            256,
            &mut output,
        );
        match text {
            Some(text) => {
                assert!(rt; matches!(shown, Ok(true)));
                assert_eq!(rt; output.as_slice(), text.as_bytes());
            }
            None => assert!(rt; matches!(shown, Err(Fault::Input))),
        }
    }
}

// Wherever the output has no more room, and where it is flushed.
#[test]
fn tells_a_fault_of_the_output(rt: HostRuntime) {
    let text = b"01\n6161\nitem 3: syntax 3\n";
    for room in 0..=text.len() {
        let mut input = Source::new(b"\x01\x61a\x1e", usize::MAX, None);
        let mut output = Device::new(rt.alloc(), room, room == text.len());
        let shown = show_items(
            rt.alloc(),
            &mut input,
            b"",
            Showing::Encoding(Spelling::Any),
            256,
            &mut output,
        );
        assert!(rt; matches!(shown, Err(Fault::Output)), "{room}");
        let held = if room == text.len() { 8 } else { room };
        assert_eq!(rt; output.held(), &text[..held], "{room}");
    }
}
