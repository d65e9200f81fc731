// Dumps of inputs as bytes, and faults.
use super::dump_input;
use crate::fault::Fault;
use crate::test_devices::{Device, Mended, Source};
use std::io::ErrorKind;
use std::test::Fail;

// An input, whether it is one item, and what is written for it (RFC 8949, section 3, and its
// appendices A and F).
const INPUTS: &[(&[u8], bool, &str)] = &[
    (
        b"\xbf\x61a\xfb\x3f\xf1\x99\x99\x99\x99\x99\x9a\x61b\x7f\x62\xc3\xbc\x61\x22\xff\xff",
        true,
        "0: bf  map of indefinite length\n\
         1:   6161  text of 1 \"a\"\n\
         3:   fb3ff199999999999a  float of 8 bytes\n\
         12:   6162  text of 1 \"b\"\n\
         14:   7f  text of indefinite length\n\
         15:     62c3bc  text of 2 \"\u{fc}\"\n\
         18:     6122  text of 1 \"\\\"\"\n\
         20:     ff  break\n\
         21:   ff  break\n",
    ),
    (b"\xf6", true, "0: f6  null\n"),
    // A line feed and a digit are bytes like others, here 10 and -17.
    (
        b"\x82\n0",
        true,
        "0: 82  array of 2\n1:   0a  unsigned 10\n2:   30  negative -17\n",
    ),
    (b"00", false, "0: 30  negative -17\ntrailing 1\n"),
    // Cut short in the payload of a text, in the bytes of a head, and before a break.
    (
        b"\x82\x01\x62a",
        false,
        "0: 82  array of 2\n1:   01  unsigned 1\nincomplete\n",
    ),
    (b"\x81\x19\x01", false, "0: 81  array of 1\nincomplete\n"),
    (
        b"\x9f\x00",
        false,
        "0: 9f  array of indefinite length\n1:   00  unsigned 0\nincomplete\n",
    ),
    (b"", false, "incomplete\n"),
    // Bytes behind an item, whatever they are.
    (
        b"\x81\xf5\x00\x1c\n",
        false,
        "0: 81  array of 1\n1:   f5  true\ntrailing 3\n",
    ),
    // A reserved head, a break out of place, a chunk of another kind, and no UTF-8.
    (
        b"\x83\x01\x1c\x02",
        false,
        "0: 83  array of 3\n1:   01  unsigned 1\nmalformed at 2\n",
    ),
    (b"\x81\xff", false, "0: 81  array of 1\nmalformed at 1\n"),
    (
        b"\x5f\x41\x00\x61a\xff",
        false,
        "0: 5f  bytes of indefinite length\n1:   4100  bytes of 1\nmalformed at 3\n",
    ),
    (b"\xc1\x62\xc3\x28", false, "0: c1  tag 1\nmalformed at 1\n"),
];

// However many bytes a read gives; a signal interrupts the first.
#[test]
fn dumps_bytes(rt: HostRuntime) {
    for &(bytes, is_item, text) in INPUTS {
        for most in [1, 3, usize::MAX] {
            let mut source = Source::new(bytes, most, None);
            let mut output = Vec::new(rt.alloc());
            let dumped = dump_input(rt.alloc(), &mut source, &mut output);
            assert!(rt; matches!(dumped, Ok(found) if found == is_item), "{text}");
            assert_eq!(rt; output.as_slice(), text.as_bytes(), "{text}");
        }
    }
}

// The bytes before a fault of the device, the fault, those behind it, and what is written where the
// device was only interrupted.
const FAULTS: &[(&[u8], ErrorKind, &[u8], Option<&str>)] = &[
    (
        b"\x81",
        ErrorKind::Interrupted,
        b"\x00",
        Some("0: 81  array of 1\n1:   00  unsigned 0\n"),
    ),
    (
        b"\x00",
        ErrorKind::Interrupted,
        b"",
        Some("0: 00  unsigned 0\n"),
    ),
    (b"\x81", ErrorKind::Other, b"\x00", None),
    (b"\x00", ErrorKind::Other, b"", None),
    (b"\x00", ErrorKind::UnexpectedEof, b"", None),
    (b"", ErrorKind::OutOfMemory, b"\x00", None),
];

// Nothing is written where the input fails.
#[test]
fn tells_a_fault_of_the_input(rt: HostRuntime) {
    for &(before, kind, after, text) in FAULTS {
        let mut input = Mended::new(before, kind, after);
        let mut output = Vec::new(rt.alloc());
        let dumped = dump_input(rt.alloc(), &mut input, &mut output);
        match text {
            Some(text) => {
                assert!(rt; matches!(dumped, Ok(true)));
                assert_eq!(rt; output.as_slice(), text.as_bytes());
            }
            None => {
                assert!(rt; matches!(dumped, Err(Fault::Input)));
                assert!(rt; output.is_empty());
            }
        }
    }
}

// Wherever the output has no more room.
#[test]
fn tells_a_fault_of_the_output(rt: HostRuntime) {
    let text = b"0: 81  array of 1\nincomplete\n";
    for room in 0..text.len() {
        let mut input = Source::new(b"\x81", usize::MAX, None);
        let mut output = Device::new(rt.alloc(), room, false);
        let dumped = dump_input(rt.alloc(), &mut input, &mut output);
        assert!(rt; matches!(dumped, Err(Fault::Output)), "{room}");
        assert_eq!(rt; output.held(), &text[..room], "{room}");
    }
}

// A byte string of 20,000 bytes, which no one read gives, and one byte behind it.
#[test]
fn dumps_what_is_longer_than_a_block(rt: HostRuntime) -> Result<(), Fail> {
    let mut bytes = Vec::new(rt.alloc());
    let mut text = Vec::new(rt.alloc());
    bytes.extend_from_slice(b"\x59\x4e\x20")?;
    text.extend_from_slice(b"0: 594e20")?;
    for _ in 0..20_000 {
        bytes.push(0xa7)?;
        text.extend_from_slice(b"a7")?;
    }
    bytes.push(0x00)?;
    text.extend_from_slice(b"  bytes of 20000\ntrailing 1\n")?;
    let mut source = Source::new(&bytes, usize::MAX, None);
    let mut output = Vec::new(rt.alloc());
    let dumped = dump_input(rt.alloc(), &mut source, &mut output);
    assert!(rt; matches!(dumped, Ok(false)));
    assert_eq!(rt; output.as_slice(), text.as_slice());
    Ok(())
}
