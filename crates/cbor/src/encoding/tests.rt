// The encodings of lines of notation as bytes, up to the first line that is refused.
use super::encode_lines;
use crate::test_devices::{Device, Source};
use std::test::Fail;

// The input, a limit, the bytes, and the message.
const RUNS: &[(&[u8], usize, &[u8], &[u8])] = &[
    (b"", 256, b"", b""),
    (b"1\n", 256, b"\x01", b""),
    (
        b"24\r\n[1, h'02']\n\"a\"",
        256,
        b"\x18\x18\x82\x01\x41\x02\x61a",
        b"",
    ),
    (
        b"1\n\n2\n",
        256,
        b"\x01",
        b"line 2: expected an item at byte 0\n",
    ),
    (
        b"1\n2\n\"\xff\"\n4\n",
        256,
        b"\x01\x02",
        b"line 3: not UTF-8 at byte 1\n",
    ),
    (
        b"[]\n[[]]\n",
        1,
        b"\x80",
        b"line 2: nested too deep at byte 1\n",
    ),
];

#[test]
fn encodes_lines(rt: HostRuntime) -> Result<(), Fail> {
    for &(input, limit, bytes, told) in RUNS {
        for most in [1, usize::MAX] {
            let mut source = Source::new(input, most, None);
            let mut device = Device::new(rt.alloc(), usize::MAX, false);
            let mut message = Vec::new(rt.alloc());
            let encoded = encode_lines(rt.alloc(), &mut source, limit, &mut message, &mut device);
            assert!(rt; matches!(encoded, Ok(all) if all == told.is_empty()));
            assert_eq!(rt; device.held(), bytes);
            assert_eq!(rt; message.as_slice(), told);
        }
    }
    Ok(())
}
