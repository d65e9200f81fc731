// Dumps of items and of what is none.
use super::write_dump;
use crate::digits::decode_line;
use std::process::Abort;
use std::test::Fail;

// The hex of some bytes, and their dump, which says whether they are one item.
const DUMPS: &[(&str, bool, &str)] = &[
    (
        "83010203",
        true,
        "0: 83  array of 3\n1:   01  unsigned 1\n2:   02  unsigned 2\n3:   03  unsigned 3\n",
    ),
    (
        "a26161016162820203",
        true,
        "0: a2  map of 2\n1:   6161  text of 1 \"a\"\n3:   01  unsigned 1\n\
         4:   6162  text of 1 \"b\"\n6:   82  array of 2\n7:     02  unsigned 2\n\
         8:     03  unsigned 3\n",
    ),
    (
        "5f42010243030405ff",
        true,
        "0: 5f  bytes of indefinite length\n1:   420102  bytes of 2\n\
         4:   43030405  bytes of 3\n8:   ff  break\n",
    ),
    (
        "7f657374726561646d696e67ff",
        true,
        "0: 7f  text of indefinite length\n1:   657374726561  text of 5 \"strea\"\n\
         7:   646d696e67  text of 4 \"ming\"\n12:   ff  break\n",
    ),
    (
        "bf61610161629f0203ffff",
        true,
        "0: bf  map of indefinite length\n1:   6161  text of 1 \"a\"\n3:   01  unsigned 1\n\
         4:   6162  text of 1 \"b\"\n6:   9f  array of indefinite length\n7:     02  unsigned 2\n\
         8:     03  unsigned 3\n9:     ff  break\n10:   ff  break\n",
    ),
    (
        "bf6161f93c00ff",
        true,
        "0: bf  map of indefinite length\n1:   6161  text of 1 \"a\"\n\
         3:   f93c00  float of 2 bytes\n6:   ff  break\n",
    ),
    ("f93c00", true, "0: f93c00  float of 2 bytes\n"),
    ("f4", true, "0: f4  false\n"),
    ("f5", true, "0: f5  true\n"),
    ("f6", true, "0: f6  null\n"),
    ("f7", true, "0: f7  undefined\n"),
    ("f0", true, "0: f0  simple 16\n"),
    ("f8ff", true, "0: f8ff  simple 255\n"),
    (
        "c11a514b67b0",
        true,
        "0: c1  tag 1\n1:   1a514b67b0  unsigned 1363896240\n",
    ),
    ("3901f3", true, "0: 3901f3  negative -500\n"),
    (
        "3bffffffffffffffff",
        true,
        "0: 3bffffffffffffffff  negative -18446744073709551616\n",
    ),
    ("62220a", true, "0: 62220a  text of 2 \"\\\"\\n\"\n"),
    ("60", true, "0: 60  text of 0 \"\"\n"),
    ("82", false, "0: 82  array of 2\nincomplete"),
    ("", false, "incomplete"),
    ("6261", false, "incomplete"),
    (
        "5f00",
        false,
        "0: 5f  bytes of indefinite length\nmalformed at 1",
    ),
    ("1c", false, "malformed at 0"),
    ("ff", false, "malformed at 0"),
    ("61ff", false, "malformed at 0"),
    (
        "bf01ff",
        false,
        "0: bf  map of indefinite length\n1:   01  unsigned 1\nmalformed at 2",
    ),
    ("0102ff", false, "0: 01  unsigned 1\ntrailing 2"),
];

#[test]
fn dumps_items(rt: HostRuntime) -> Result<(), Fail> {
    let mut bytes = Vec::new(rt.alloc());
    let mut text = Vec::new(rt.alloc());
    for &(line, is_item, dump) in DUMPS {
        assert!(rt; decode_line(line.as_bytes(), &mut bytes).is_ok(), "{line}");
        assert_eq!(rt;
            write_dump(rt.alloc(), &bytes, &mut text)?,
            is_item,
            "{line}"
        );
        assert_eq!(rt; text.as_slice(), dump.as_bytes(), "{line}");
    }
    Ok(())
}

#[test]
fn dumps_as_many_levels_as_are_kept(rt: HostRuntime) -> Result<(), Fail> {
    let mut text = Vec::new(rt.alloc());
    let mut bytes = vec![in rt.alloc(); 0x81; 256]?;
    bytes.push(0x00)?;
    assert!(rt; write_dump(rt.alloc(), &bytes, &mut text)?);
    bytes.as_mut_slice()[256] = 0x81;
    bytes.push(0x00)?;
    assert!(rt; !write_dump(rt.alloc(), &bytes, &mut text)?);
    assert!(rt; text.as_slice().ends_with(b"\ntoo deep at 256"));
    Ok(())
}
