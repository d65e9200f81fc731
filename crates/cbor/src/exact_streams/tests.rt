// Streams whose items are shown by their very heads, where they end, and faults.
use super::show_exactly;
use crate::fault::Fault;
use crate::test_devices::{Asker, Device, Source, Viewer};
use std::alloc::Global;
use std::cell::Cell;
use std::io::{ErrorKind, Read};
use std::process::Abort;
use std::test::Fail;

// Holds what is shown of an input to whether it is a sequence of items, and to the text.
fn expect_shown<R: Read>(
    rt: &impl Abort,
    alloc: Global,
    input: &mut R,
    place: &[u8],
    expected: (bool, &[u8]),
) {
    let mut output = Vec::new(alloc);
    let shown = show_exactly(alloc, input, place, &mut output);
    assert_eq!(rt; output.as_slice(), expected.1);
    assert!(rt; matches!(shown, Ok(is_sequence) if is_sequence == expected.0));
}

// A sequence, whether it is one, and what is shown of it.
const STREAMS: &[(&[u8], bool, &str)] = &[
    (b"", true, ""),
    (b"\x18\x01\xf9\x3c\x00", true, "1_0\nfloat'3c00'\n"),
    (
        b"\x9f\x01\x9f\xff\xff\xf8\x63",
        true,
        "[_ 1, [_ ]]\nsimple(99)\n",
    ),
    // No meaning is asked.
    (
        b"\xa2\x01\x00\x01\x00\xc2\x00\xf7",
        true,
        "{1: 0, 1: 0}\n2(0)\nundefined\n",
    ),
    (
        b"\x5f\x41\x01\x41\xab\xff\x82\x01\x1e\x00",
        false,
        "(_ h'01', h'ab')\nfile: item 2: malformed at 8\n",
    ),
    (b"\x00\x81\xff", false, "0\nfile: item 2: malformed at 2\n"),
    (b"\x62\xc3\x28", false, "file: item 1: malformed at 0\n"),
    (
        b"\x01\x02\x82\x03",
        false,
        "1\n2\nfile: item 3: incomplete\n",
    ),
    (b"\xfa\x00", false, "file: item 1: incomplete\n"),
];

#[test]
fn shows_items_until_one_is_none(rt: HostRuntime) {
    for &(bytes, is_sequence, text) in STREAMS {
        for most in [1, 2, usize::MAX] {
            let mut source = Source::new(bytes, most, None);
            let expected = (is_sequence, text.as_bytes());
            expect_shown(&rt, rt.alloc(), &mut source, b"file: ", expected);
        }
    }
}

// Two strings of 5,000 bytes stand before what is malformed, so that no buffer holds the second.
#[test]
fn shows_an_item_past_the_buffer(rt: HostRuntime) -> Result<(), Fail> {
    let mut bytes = Vec::new(rt.alloc());
    let mut text = Vec::new(rt.alloc());
    for _ in 0..2 {
        bytes.extend_from_slice(b"\x59\x13\x85")?;
        text.extend_from_slice(b"h'")?;
        for _ in 0..4997 {
            bytes.push(0xa7)?;
            text.extend_from_slice(b"a7")?;
        }
        text.extend_from_slice(b"'\n")?;
    }
    bytes.extend_from_slice(b"\xf6\x82\x01\x1e")?;
    text.extend_from_slice(b"null\nitem 4: malformed at 10003\n")?;
    for most in [1, 3000, usize::MAX] {
        let mut source = Source::new(&bytes, most, None);
        expect_shown(&rt, rt.alloc(), &mut source, b"", (false, text.as_slice()));
    }
    Ok(())
}

// An item of 257 levels is none, wherever it stands.
#[test]
fn ends_at_an_item_that_is_too_deep(rt: HostRuntime) -> Result<(), Fail> {
    let mut bytes = Vec::new(rt.alloc());
    bytes.extend_from_slice(b"\x05\x06")?;
    bytes.extend_from_slice(&[0x81; 257])?;
    bytes.extend_from_slice(b"\x00\x01")?;
    for most in [1, usize::MAX] {
        let mut source = Source::new(&bytes, most, None);
        let expected = (false, b"5\n6\nitem 3: too deep at 258\n".as_slice());
        expect_shown(&rt, rt.alloc(), &mut source, b"", expected);
    }
    Ok(())
}

// Each item is shown, and its line flushed, before the device is asked for more; and behind what is
// no item it is not asked again.
#[test]
fn shows_before_it_asks(rt: HostRuntime) {
    for (given, expected) in [
        (["\x01", "aa", "\x1e", " "], (3, 3)),
        (["\x01a", "aa", "a\x1e", " "], (3, 4)),
    ] {
        let seen = Cell::new(0);
        let mut input = Asker::new(&given, &seen);
        let mut output = Viewer::new(&seen);
        let ended = show_exactly(rt.alloc(), &mut input, b"", &mut output);
        assert!(rt; matches!(ended, Ok(false)));
        assert_eq!(rt; (input.given(), seen.get()), expected);
    }
}

#[test]
fn tells_the_first_fault(rt: HostRuntime) {
    let mut source = Source::new(b"\x01\x82", 1, Some(ErrorKind::Other));
    let mut output = Vec::new(rt.alloc());
    let ended = show_exactly(rt.alloc(), &mut source, b"", &mut output);
    assert!(rt; matches!(ended, Err(Fault::Input)));
    assert_eq!(rt; output.as_slice(), b"1\n".as_slice());
    let mut source = Source::new(b"\x01\x02", 2, None);
    let mut device = Device::new(rt.alloc(), 2, false);
    let ended = show_exactly(rt.alloc(), &mut source, b"", &mut device);
    assert!(rt; matches!(ended, Err(Fault::Output)));
    assert_eq!(rt; device.held(), b"1\n".as_slice());
}
