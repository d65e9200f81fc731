// Lines and their answers, words that are right and wrong, limits, and faults.
use super::{refuse_words, run};
use crate::test_devices::{
    Asker, Device, Ended, Listener, SameFile, Shelf, Source, run_on, run_on_files, run_on_text,
};
use crate::topics::HELP;
use std::alloc::Global;
use std::cell::Cell;
use std::io::ErrorKind;
use std::process::Abort;
use std::test::Fail;

// The words, what is read, what is written for it, and the status.
const RUNS: &[(&[&str], &str, &str, u8)] = &[
    (
        &["read"],
        "1800\r\n6161\n1e\n\n0001\nzz\n18",
        "ok 00\nok 6161\nsyntax 0\nio\ntrailing 1\nhex\nio\n",
        1,
    ),
    (&["read", "1"], "8180", "nesting\n", 1),
    (&["read", "2"], "8180", "ok 8180\n", 0),
    (&["read", "002"], "8180", "ok 8180\n", 0),
    (&["read", "0"], "c24101", "ok 01\n", 0),
    (&["read", "0"], "80", "nesting\n", 1),
    (&["read", "10000"], "80", "ok 80\n", 0),
    (&["read", "0010000"], "80", "ok 80\n", 0),
    (
        &["read", "--det"],
        "01\n1800\n9f01ff\nc24101\na202030102\n",
        "ok 01\nsemantic 0 notshortest\nsemantic 0 open\nsemantic 0 notfolded\n\
         semantic 3 keyorder\n",
        1,
    ),
    (
        &["read", "--det", "1"],
        "c25f4101ff",
        "semantic 1 open\n",
        1,
    ),
    (&["read", "--det", "0"], "80", "nesting\n", 1),
    (&["read", "--det"], "f7", "semantic 0 notshortest\n", 1),
    (&["read", "--det"], "0102", "trailing 1\n", 1),
    (&["read", "--det"], "a201020203", "ok a201020203\n", 0),
    (
        &["read", "--det", "--core"],
        "a21903e800616101\na26161011903e800\na261610161610a\n",
        "ok a21903e800616101\nsemantic 4 keyorder\nsemantic 4 keyorder\n",
        1,
    ),
    (
        &["read", "--det"],
        "a21903e800616101\na26161011903e800\n",
        "semantic 5 keyorder\nok a26161011903e800\n",
        1,
    ),
    (
        &["read", "--det", "--core"],
        "1800\n9f01ff\nc24101\nf7\n0102\nzz\n1e\n",
        "semantic 0 notshortest\nsemantic 0 open\nsemantic 0 notfolded\n\
         semantic 0 notshortest\ntrailing 1\nhex\nsyntax 0\n",
        1,
    ),
    (
        &["read", "--det", "--core", "1"],
        "8180\na21903e800616101",
        "nesting\nok a21903e800616101\n",
        1,
    ),
    (&["read", "--det", "--core", "002"], "8180", "ok 8180\n", 0),
    (
        &["read", "--det", "3"],
        "828180f6\nzz\n1e\n",
        "ok 828180f6\nhex\nsyntax 0\n",
        1,
    ),
    (
        &["canon"],
        "a21903e800616101\na26161011903e800\na2a20200010000a20100000000\n1800\na0\nf7\n",
        "ok a26161011903e800\nok a26161011903e800\nok a2a20000010000a20100020000\nok 00\nok a0\n\
         ok f6\n",
        0,
    ),
    (
        &["canon", "--core"],
        "a21903e800616101\na26161011903e800\na2a20200010000a20100000000\n1800\na0\nf7\n",
        "ok a21903e800616101\nok a21903e800616101\nok a2a20000010000a20100020000\nok 00\nok a0\n\
         ok f6\n",
        0,
    ),
    // Indefinite lengths become definite, and bignums fold.
    (
        &["canon"],
        "bf02000100ff\n9f01bf6162006161f7ffff\n7f6161ff\nC24200ff\r\nc25fff\n",
        "ok a201000200\nok 8201a26161f6616200\nok 6161\nok 18ff\nok 00\n",
        0,
    ),
    // Keys that have one form are duplicates in one map alone.
    (
        &["canon"],
        "a2c24101000101\na101a10100\na20100180100\na18000\n82a10100a10100\n",
        "duplicate\nok a101a10100\nduplicate\nok a18000\nok 82a10100a10100\n",
        1,
    ),
    (&["canon", "--core"], "a2c24101000101\n", "duplicate\n", 1),
    // A bignum over a byte string of indefinite length is read as it stands, and only its form is
    // refused.
    (
        &["canon", "--core"],
        "c35f5080000000000000000000000000000000ff\nc35080000000000000000000000000000000\n",
        "toolarge\nsemantic 0 toolarge\n",
        1,
    ),
    (
        &["canon"],
        "zz\n0102\n18\n\n1e\nf93c00\n5bffffffffffffffff\n01",
        "hex\ntrailing 1\nio\nio\nsyntax 0\nsemantic 0 float\ntoolong\nok 01\n",
        1,
    ),
    (
        &["canon", "1"],
        "8180\na202000100",
        "nesting\nok a201000200\n",
        1,
    ),
    (&["canon", "--core", "002"], "9f80ff", "ok 8180\n", 0),
    (&["canon", "--core", "0"], "80", "nesting\n", 1),
    (&["canon"], "", "", 0),
    (
        &["seq"],
        "01026161\n\nf71801\n",
        "ok 01 02 6161\nok\nok f6 01\n",
        0,
    ),
    (
        &["seq"],
        "0118\n01ff\n1e\n80f97e00\nzz\n",
        "item 2: io\nitem 2: semantic 0 break\nitem 1: syntax 0\nitem 2: semantic 0 float\nhex\n",
        1,
    ),
    (&["seq"], "", "", 0),
    (&["seq"], "\r\n0A\r\n0", "ok\nok 0a\nhex\n", 1),
    (
        &["seq"],
        "8101c24101\n00818183ff\n01025bffffffffffffffff\n",
        "ok 8101 01\nitem 2: semantic 3 break\nitem 3: toolong\n",
        1,
    ),
    (
        &["diag"],
        "1800\n3bffffffffffffffff\nc249010000000000000000\n4401020304\n40\n6449455446\n60\n",
        "0\n-18446744073709551616\n2(h'010000000000000000')\nh'01020304'\nh''\n\"IETF\"\n\"\"\n",
        0,
    ),
    (
        &["diag"],
        "62225c\n62c3bc\n64f0908591\n650a09001f7f\nf4\nf5\nf6\nf7\n",
        "\"\\\"\\\\\"\n\"\u{fc}\"\n\"\u{10151}\"\n\
         \"\\n\\t\\u0000\\u001f\u{7f}\"\nfalse\ntrue\nnull\nnull\n",
        0,
    ),
    (
        &["diag"],
        "80\n83010203\n8301820203820405\na0\na201020304\na26161016162820203\nd74401020304\n",
        "[]\n[1, 2, 3]\n[1, [2, 3], [4, 5]]\n{}\n{1: 2, 3: 4}\n{\"a\": 1, \"b\": [2, 3]}\n\
         23(h'01020304')\n",
        0,
    ),
    // Indefinite lengths are shown as definite ones, pairs in their order, and a long bignum as its
    // tag.
    (
        &["diag"],
        "9f018202039f0405ffff\n5f42010243030405ff\n\
         a202010100\nc2510100000000000000000000000000000000\n",
        "[1, [2, 3], [4, 5]]\nh'0102030405'\n{2: 1, 1: 0}\n\
         2(h'0100000000000000000000000000000000')\n",
        0,
    ),
    (
        &["diag"],
        "zz\n0102\n18\n\n1e\nf93c00\n5bffffffffffffffff\n20",
        "hex\ntrailing 1\nio\nio\nsyntax 0\nsemantic 0 float\ntoolong\n-1\n",
        1,
    ),
    (&["diag", "1"], "8180\n8101", "nesting\n[1]\n", 1),
    (&["diag"], "", "", 0),
    (
        &["dump"],
        "8101\r\nC200\n",
        "0: 81  array of 1\n1:   01  unsigned 1\n\n0: c2  tag 2\n1:   00  unsigned 0\n\n",
        0,
    ),
    (
        &["dump"],
        "8101\nzz\n81\n0001\n5f00\nf7",
        "0: 81  array of 1\n1:   01  unsigned 1\n\nhex\n0: 81  array of 1\nincomplete\n\
         0: 00  unsigned 0\ntrailing 1\n0: 5f  bytes of indefinite length\nmalformed at 1\n\
         0: f7  undefined\n\n",
        1,
    ),
    (&["dump"], "", "", 0),
    (
        &["diag", "--exact"],
        "9F1800F93C00ff\r\nd80100\nf7",
        "[_ 0_0, float'3c00']\n1_0(0)\nundefined\n",
        0,
    ),
    (
        &["diag", "--exact"],
        "\"\"\n0102\n18\n5f00\n20",
        "hex\ntrailing 1\nincomplete\nmalformed at 1\n-1\n",
        1,
    ),
    (&["diag", "--exact"], "", "", 0),
    (
        &["diag", "--indent"],
        "01\n8301820203a1616180\na0\n1e\n",
        "1\n[\n  1,\n  [\n    2,\n    3\n  ],\n  {\n    \"a\": []\n  }\n]\n{}\nsyntax 0\n",
        1,
    ),
    (&["diag", "--indent", "0"], "80\n01", "nesting\n1\n", 1),
    (&["sort"], "190100\n617a\n38c7\n", "38c7\n617a\n190100\n", 0),
    (
        &["sort", "--core"],
        "617a\n190100\n38c7\n",
        "190100\n38c7\n617a\n",
        0,
    ),
    (&["sort"], "", "", 0),
    (&["sort", "--core"], "", "", 0),
    (
        &["sort", "--core"],
        "1818\n01\nC24101\r\n9f02ff\n01",
        "01\n01\n01\n1818\n8102\n",
        0,
    ),
    (&["sort", "--core"], "01\n1e\n", "line 2: syntax 0\n", 1),
    (&["sort"], "01\n00\n1801\n01\n", "00\n01\n01\n01\n", 0),
    (&["sort"], "C24101\r\n00\r\n", "00\n01\n", 0),
    (&["sort"], "01\n00", "00\n01\n", 0),
    (&["sort"], "01\r\n00\r", "00\n01\n", 0),
    (&["sort"], "9f02ff\n7f6161ff\nf7\n", "f6\n6161\n8102\n", 0),
    (&["sort"], "01\n1e\n", "line 2: syntax 0\n", 1),
    (&["sort"], "0\n", "line 1: hex\n", 1),
    (&["sort"], "0100\n", "line 1: trailing 1\n", 1),
    (&["sort"], "00\n\n", "line 2: io\n", 1),
    (&["sort"], "\n", "line 1: io\n", 1),
    (&["sort"], "00\nzz\n1e\n", "line 2: hex\n", 1),
    (
        &["sort"],
        "00\r\n01\r\nf93c00\r\n",
        "line 3: semantic 0 float\n",
        1,
    ),
    (&["sort"], "8101\n81ff\n", "line 2: semantic 1 break\n", 1),
    (&["sort"], "5bffffffffffffffff\n", "line 1: toolong\n", 1),
    (
        &["sort"],
        "c35080000000000000000000000000000000\n",
        "line 1: semantic 0 toolarge\n",
        1,
    ),
    (&["sort"], "f4\nf814", "line 2: syntax 0\n", 1),
    (
        &["sort"],
        "00\n00\n00\n00\n00\n00\n00\n00\n00\n82\n00\n",
        "line 10: io\n",
        1,
    ),
    (&["read"], "", "", 0),
];

// What `read` answers to a line, within 256 levels.
const READ_LINES: &[(&str, &str)] = &[
    // Items of every width, and why others are refused.
    ("1800", "ok 00"),
    ("3bffffffffffffffff", "ok 3bffffffffffffffff"),
    ("6161", "ok 6161"),
    ("1e", "syntax 0"),
    ("f93c00", "semantic 0 float"),
    ("0001", "trailing 1"),
    ("62c328", "syntax 0"),
    ("40", "ok 40"),
    ("60", "ok 60"),
    ("f4", "ok f4"),
    ("f7", "ok f6"),
    ("ff", "semantic 0 break"),
    ("f814", "syntax 0"),
    ("f820", "semantic 0 simple"),
    ("", "io"),
    ("zz", "hex"),
    ("000", "hex"),
    ("F4", "ok f4"),
    ("C24101", "ok 01"),
    ("83011f03", "syntax 2"),
    ("0102", "trailing 1"),
    ("bf61610161629f0203ffff", "ok a26161016162820203"),
    (
        "c35080000000000000000000000000000000",
        "semantic 0 toolarge",
    ),
    ("5bffffffffffffffff", "toolong"),
    // A carriage return before the line feed is dropped, and one alone; either case of hex is
    // taken.
    ("1800\r", "ok 00"),
    ("6161\r", "ok 6161"),
    ("1800\r\r", "hex"),
    ("\r", "io"),
    ("1801ff0a0bCDef", "trailing 5"),
    // The items of RFC 8949, appendix A, that hold no float and are in the one shortest definite
    // encoding.
    ("00", "ok 00"),
    ("01", "ok 01"),
    ("0a", "ok 0a"),
    ("17", "ok 17"),
    ("1818", "ok 1818"),
    ("1819", "ok 1819"),
    ("1864", "ok 1864"),
    ("1903e8", "ok 1903e8"),
    ("1a000f4240", "ok 1a000f4240"),
    ("1b000000e8d4a51000", "ok 1b000000e8d4a51000"),
    ("1bffffffffffffffff", "ok 1bffffffffffffffff"),
    ("c249010000000000000000", "ok c249010000000000000000"),
    ("3bffffffffffffffff", "ok 3bffffffffffffffff"),
    ("c349010000000000000000", "ok c349010000000000000000"),
    ("20", "ok 20"),
    ("29", "ok 29"),
    ("3863", "ok 3863"),
    ("3903e7", "ok 3903e7"),
    ("f4", "ok f4"),
    ("f5", "ok f5"),
    ("f6", "ok f6"),
    (
        "c074323031332d30332d32315432303a30343a30305a",
        "ok c074323031332d30332d32315432303a30343a30305a",
    ),
    ("c11a514b67b0", "ok c11a514b67b0"),
    ("d74401020304", "ok d74401020304"),
    ("d818456449455446", "ok d818456449455446"),
    (
        "d82076687474703a2f2f7777772e6578616d706c652e636f6d",
        "ok d82076687474703a2f2f7777772e6578616d706c652e636f6d",
    ),
    ("40", "ok 40"),
    ("4401020304", "ok 4401020304"),
    ("60", "ok 60"),
    ("6161", "ok 6161"),
    ("6449455446", "ok 6449455446"),
    ("62225c", "ok 62225c"),
    ("62c3bc", "ok 62c3bc"),
    ("63e6b0b4", "ok 63e6b0b4"),
    ("64f0908591", "ok 64f0908591"),
    ("80", "ok 80"),
    ("83010203", "ok 83010203"),
    ("8301820203820405", "ok 8301820203820405"),
    (
        "98190102030405060708090a0b0c0d0e0f101112131415161718181819",
        "ok 98190102030405060708090a0b0c0d0e0f101112131415161718181819",
    ),
    ("a0", "ok a0"),
    ("a201020304", "ok a201020304"),
    ("a26161016162820203", "ok a26161016162820203"),
    ("826161a161626163", "ok 826161a161626163"),
    (
        "a56161614161626142616361436164614461656145",
        "ok a56161614161626142616361436164614461656145",
    ),
    // The others without floats and unassigned simple values.
    ("f7", "ok f6"),
    ("5f42010243030405ff", "ok 450102030405"),
    ("7f657374726561646d696e67ff", "ok 6973747265616d696e67"),
    ("9fff", "ok 80"),
    ("9f018202039f0405ffff", "ok 8301820203820405"),
    ("9f01820203820405ff", "ok 8301820203820405"),
    ("83018202039f0405ff", "ok 8301820203820405"),
    ("83019f0203ff820405", "ok 8301820203820405"),
    (
        "9f0102030405060708090a0b0c0d0e0f101112131415161718181819ff",
        "ok 98190102030405060708090a0b0c0d0e0f101112131415161718181819",
    ),
    ("bf61610161629f0203ffff", "ok a26161016162820203"),
    ("826161bf61626163ff", "ok 826161a161626163"),
    ("bf6346756ef563416d7421ff", "ok a26346756ef563416d7421"),
    // Those with an unassigned simple value.
    ("f0", "semantic 0 simple"),
    ("f8ff", "semantic 0 simple"),
    // The last line counts without a line feed, and its carriage return is dropped.
    ("1800\r", "ok 00"),
];

// The words, an input of bytes, what is written for it, and the status.
const BYTE_RUNS: &[(&[&str], &[u8], &str, u8)] = &[
    (
        &["diag", "--binary"],
        b"\x01\x9f\x02\xff\xa1\x61a\xf5",
        "1\n[2]\n{\"a\": true}\n",
        0,
    ),
    (
        &["diag", "--binary", "--indent"],
        b"\x01\x9f\x02\xff",
        "1\n[\n  2\n]\n",
        0,
    ),
    (
        &["read", "--binary"],
        b"\x18\x01\x9f\x02\xff",
        "01\n8102\n",
        0,
    ),
    (
        &["diag", "--binary"],
        b"\xa2\x61a\x01\x61b\x82\x42\x01\x02\xf5\x1a\x51\x4b\x67\xb0\x82\x1e",
        "{\"a\": 1, \"b\": [h'0102', true]}\n1363896240\nitem 3: syntax 17\n",
        1,
    ),
    (&["read", "--binary"], b"", "", 0),
    // Only deterministic encodings are taken, with the keys of maps in either order.
    (
        &["read", "--binary", "--det"],
        b"\x01\xa2\x61a\x01\x19\x03\xe8\x00\xa2\x19\x03\xe8\x00\x61a\x01",
        "01\na26161011903e800\nitem 3: semantic 14 keyorder\n",
        1,
    ),
    (
        &["read", "--binary", "--det", "--core"],
        b"\x01\xa2\x19\x03\xe8\x00\x61a\x01\xa2\x61a\x01\x19\x03\xe8\x00",
        "01\na21903e800616101\nitem 3: semantic 13 keyorder\n",
        1,
    ),
    (
        &["read", "--binary", "--det", "1"],
        b"\x81\x00\x18\x00",
        "8100\nitem 2: semantic 2 notshortest\n",
        1,
    ),
    (
        &["read", "--binary", "--det"],
        b"\x00\x9f\xff",
        "00\nitem 2: semantic 1 open\n",
        1,
    ),
    (
        &["read", "--binary", "--det", "--core", "0"],
        b"\x00\x80",
        "00\nitem 2: nesting\n",
        1,
    ),
    (
        &["read", "--binary", "--det"],
        b"\x00\x18",
        "00\nitem 2: io\n",
        1,
    ),
    (
        &["canon", "--binary"],
        b"\x18\x01\x7f\x61a\xff\x9f\x1a\0\0\0\x02\x1e",
        "01\n6161\nitem 3: syntax 12\n",
        1,
    ),
    // The third item is refused at its second byte, and nothing behind it is shown.
    (
        &["read", "--binary"],
        b"\x01\x61a\x82\x1e\x00\x00",
        "01\n6161\nitem 3: syntax 4\n",
        1,
    ),
    (&["diag", "--binary"], b"\x01\x18", "1\nitem 2: io\n", 1),
    (
        &["diag", "--binary", "1"],
        b"\x81\x00\x81\x80",
        "[0]\nitem 2: nesting\n",
        1,
    ),
    (
        &["diag", "--binary", "--indent", "0"],
        b"\x80",
        "item 1: nesting\n",
        1,
    ),
    (
        &["read", "--binary", "1"],
        b"\x81\x80",
        "item 1: nesting\n",
        1,
    ),
    (
        &["read", "--binary"],
        b"\xff",
        "item 1: semantic 0 break\n",
        1,
    ),
    (
        &["canon", "--binary"],
        b"\xbf\x02\x00\x01\x00\xff\xa2\x19\x03\xe8\x00\x61a\x01\x18\x00\xc2\x41\x05",
        "a201000200\na26161011903e800\n00\n05\n",
        0,
    ),
    (
        &["canon", "--binary", "--core"],
        b"\xbf\x02\x00\x01\x00\xff\xa2\x61a\x01\x19\x03\xe8\x00",
        "a201000200\na21903e800616101\n",
        0,
    ),
    // Behind an item without a form, or one that is refused, the next is shown.
    (
        &["canon", "--binary"],
        b"\x01\xa2\xc2\x41\x01\x00\x01\x01\x02",
        "01\nitem 2: duplicate\n02\n",
        1,
    ),
    (
        &["canon", "--binary", "--core", "1"],
        b"\xc3\x5f\x50\x80\0\0\0\0\0\0\0\0\0\0\0\0\0\0\0\xff\x01",
        "item 1: toolarge\n01\n",
        1,
    ),
    (
        &["canon", "--binary", "1"],
        b"\xa1\x01\x80\x00",
        "item 1: nesting\n00\n",
        1,
    ),
    (
        &["canon", "--binary"],
        b"\x02\x82\x01",
        "02\nitem 2: io\n",
        1,
    ),
    (
        &["dump", "--binary"],
        b"\xa1\x61a\xf9\x3e\x00",
        "0: a1  map of 1\n1:   6161  text of 1 \"a\"\n3:   f93e00  float of 2 bytes\n",
        0,
    ),
    (
        &["dump", "--binary"],
        b"\x82\x00\x0a\n",
        "0: 82  array of 2\n1:   00  unsigned 0\n2:   0a  unsigned 10\ntrailing 1\n",
        1,
    ),
    (&["dump", "--binary"], b"", "incomplete\n", 1),
    (
        &["diag", "--binary", "--exact"],
        b"\x9f\x18\x01\xff\xf9\x3c\x00",
        "[_ 1_0]\nfloat'3c00'\n",
        0,
    ),
    (
        &["diag", "--binary", "--exact"],
        b"\x02\x82\x01",
        "2\nitem 2: incomplete\n",
        1,
    ),
    (&["--version"], b"\xff", "cbor 0.4.0\n", 0),
];

// The files of the runs below: two items; one, and then a break out of place inside an array; none;
// a map and a text; equal keys; and two that fail, before and behind an item.
const FILES: &[(&str, &[u8], Option<ErrorKind>)] = &[
    ("a.cbor", b"\x01\x9f\x02\xff", None),
    ("b.cbor", b"\x18\x03\x81\xff\x00", None),
    ("c.cbor", b"", None),
    ("300", b"\xa1\x61a\xf5\x61b", None),
    ("same", b"\x00\xa2\x01\x00\x01\x00", None),
    ("broken", b"", Some(ErrorKind::Other)),
    ("torn", b"\x05\x82", Some(ErrorKind::UnexpectedEof)),
];

// The words, what is written, what is told on the standard error, and the status. The standard
// input is an item of bytes, and another that is cut short.
const FILE_RUNS: &[(&[&str], &str, &str, u8)] = &[
    (&["diag", "--binary", "a.cbor"], "1\n[2]\n", "", 0),
    (
        &["diag", "--binary", "a.cbor", "c.cbor", "300", "a.cbor"],
        "1\n[2]\n{\"a\": true}\n\"b\"\n1\n[2]\n",
        "",
        0,
    ),
    // A word of digits is the limit right behind the flags, and nowhere else.
    (
        &["read", "--binary", "0", "a.cbor", "300"],
        "01\na.cbor: item 2: nesting\n300: item 1: nesting\n6162\n",
        "",
        1,
    ),
    (
        &["canon", "--binary", "--core", "1", "300"],
        "a16161f5\n6162\n",
        "",
        0,
    ),
    // A file that is refused does not keep the next one from being shown.
    (
        &["read", "--binary", "b.cbor", "a.cbor"],
        "03\nb.cbor: item 2: semantic 3 break\n01\n8102\n",
        "",
        1,
    ),
    // In each file offsets are counted from its first byte.
    (
        &["diag", "--binary", "b.cbor", "b.cbor"],
        "3\nb.cbor: item 2: semantic 3 break\n3\nb.cbor: item 2: semantic 3 break\n",
        "",
        1,
    ),
    (
        &["canon", "--binary", "same", "c.cbor"],
        "00\nsame: item 2: duplicate\n",
        "",
        1,
    ),
    (
        &["read", "--binary", "--det", "a.cbor", "300"],
        "01\na.cbor: item 2: semantic 1 open\na16161f5\n6162\n",
        "",
        1,
    ),
    (
        &["diag", "--binary", "a.cbor", "-", "c.cbor"],
        "1\n[2]\nh'07'\n-: item 2: io\n",
        "",
        1,
    ),
    // It is read once.
    (
        &["diag", "--binary", "--indent", "-", "-"],
        "h'07'\n-: item 2: io\n",
        "",
        1,
    ),
    (
        &["diag", "--binary", "--exact", "b.cbor", "a.cbor", "-"],
        "3_0\nb.cbor: item 2: malformed at 3\n1\n[_ 2]\nh'07'\n-: item 2: incomplete\n",
        "",
        1,
    ),
    (
        &["dump", "--binary", "c.cbor", "b.cbor"],
        "incomplete\n0: 1803  unsigned 3\ntrailing 3\n",
        "",
        1,
    ),
    // A fault ends the run, and is told with the name of the file.
    (
        &["diag", "--binary", "a.cbor", "none", "a.cbor"],
        "1\n[2]\n",
        "none: cannot be opened\n",
        3,
    ),
    (
        &["read", "--binary", "torn", "a.cbor"],
        "05\n",
        "torn: input failed\n",
        3,
    ),
    (
        &["dump", "--binary", "a.cbor", "broken"],
        "0: 01  unsigned 1\ntrailing 3\n",
        "broken: input failed\n",
        3,
    ),
    (
        &["canon", "--binary", "./300"],
        "",
        "./300: cannot be opened\n",
        3,
    ),
];

#[test]
fn shows_files(rt: HostRuntime) -> Result<(), Fail> {
    for &(words, output, errors, status) in FILE_RUNS {
        let mut input = Source::new(b"\x41\x07\x18", 2, None);
        let device = Device::new(rt.alloc(), usize::MAX, false);
        let ended = run_on_files(rt.alloc(), words, &mut input, &Shelf::new(FILES), device)?;
        expect_end(&rt, &ended, status, output.as_bytes(), errors, output);
    }
    Ok(())
}

// Files whose bytes are known are shown one after the other.
#[test]
fn shows_known_files(rt: HostRuntime) -> Result<(), Fail> {
    let mut words = Vec::new(rt.alloc());
    for text in ["diag", "--binary", "a.cbor", "b.cbor"] {
        words.push(String::from_str(rt.alloc(), text)?)?;
    }
    let mut input: &[u8] = b"";
    let mut output = Vec::new(rt.alloc());
    let mut errors = Vec::new(rt.alloc());
    let status = run(
        rt.alloc(),
        &words,
        &mut input,
        &SameFile::new(b"\x01\x80"),
        &mut output,
        &mut errors,
    );
    assert_eq!(rt; status, 0);
    assert_eq!(rt; output.as_slice(), b"1\n[]\n1\n[]\n".as_slice());
    Ok(())
}

// A fault of the output is that of no file.
#[test]
fn names_no_file_for_the_output(rt: HostRuntime) -> Result<(), Fail> {
    for (room, flush_fails) in [(3, false), (usize::MAX, true)] {
        let mut input = Source::new(b"", 1, None);
        let device = Device::new(rt.alloc(), room, flush_fails);
        let words = &["diag", "--binary", "a.cbor"];
        let ended = run_on_files(rt.alloc(), words, &mut input, &Shelf::new(FILES), device)?;
        assert_eq!(rt; ended.status, 3);
        assert_eq!(rt; ended.errors.as_slice(), b"output failed\n".as_slice());
    }
    Ok(())
}

// Holds a run to its status, and to what it wrote.
fn expect_end(rt: &impl Abort, ended: &Ended, status: u8, output: &[u8], errors: &str, what: &str) {
    assert_eq!(rt; ended.status, status, "{what}");
    assert_eq!(rt; ended.output.as_slice(), output, "{what}");
    assert_eq!(rt; ended.errors.as_slice(), errors.as_bytes(), "{what}");
}

#[test]
fn writes_what_is_meant(rt: HostRuntime) -> Result<(), Fail> {
    for &(words, input, output, status) in RUNS {
        for most in [1, 3, usize::MAX] {
            let mut source = Source::new(input.as_bytes(), most, None);
            let device = Device::new(rt.alloc(), usize::MAX, false);
            let ended = run_on(rt.alloc(), words, &mut source, device)?;
            expect_end(&rt, &ended, status, output.as_bytes(), "", input);
        }
    }
    Ok(())
}

#[test]
fn reads_each_line(rt: HostRuntime) -> Result<(), Fail> {
    let mut input = String::new(rt.alloc());
    let mut output = String::new(rt.alloc());
    for &(line, answer) in READ_LINES {
        if !input.is_empty() {
            input.push('\n')?;
        }
        input.push_str(line)?;
        output.push_str(answer)?;
        output.push('\n')?;
    }
    let ended = run_on_text(rt.alloc(), &["read"], input.as_str())?;
    expect_end(&rt, &ended, 1, output.as_bytes(), "", "lines to read");
    Ok(())
}

#[test]
fn writes_what_bytes_are(rt: HostRuntime) -> Result<(), Fail> {
    for &(words, input, output, status) in BYTE_RUNS {
        for most in [1, 3, usize::MAX] {
            let mut source = Source::new(input, most, None);
            let device = Device::new(rt.alloc(), usize::MAX, false);
            let ended = run_on(rt.alloc(), words, &mut source, device)?;
            expect_end(&rt, &ended, status, output.as_bytes(), "", output);
        }
    }
    Ok(())
}

// The words, what is read, what is written for it, what is told, and the status.
const NOTATION_RUNS: &[(&[&str], &[u8], &[u8], &str, u8)] = &[
    (
        &["encode"],
        b"[1, h'02']\r\n[1, ]\n\"\xff\"\n\n-1",
        b"82014102\nexpected an item at byte 4\nnot UTF-8 at byte 1\n\
          expected an item at byte 0\n20\n",
        "",
        1,
    ),
    (&["encode"], b"", b"", "", 0),
    (&["encode", "1"], b"[]\n1(0)\n", b"80\nc100\n", "", 0),
    (
        &["encode", "0"],
        b"1([])",
        b"nested too deep at byte 0\n",
        "",
        1,
    ),
    (&["encode", "10000"], b"[[]]", b"8180\n", "", 0),
    (
        &["encode", "--binary"],
        b"24\n[1, h'02']\n",
        b"\x18\x18\x82\x01\x41\x02",
        "",
        0,
    ),
    (
        &["encode", "--binary"],
        b"1\n1.5\n2\n",
        b"\x01",
        "line 2: a floating-point number at byte 0\n",
        1,
    ),
    (
        &["encode", "--binary", "0"],
        b"1\n[]\n",
        b"\x01",
        "line 2: nested too deep at byte 0\n",
        1,
    ),
];

#[test]
fn writes_what_notation_denotes(rt: HostRuntime) -> Result<(), Fail> {
    for &(words, input, output, errors, status) in NOTATION_RUNS {
        for most in [1, 3, usize::MAX] {
            let mut source = Source::new(input, most, None);
            let device = Device::new(rt.alloc(), usize::MAX, false);
            let ended = run_on(rt.alloc(), words, &mut source, device)?;
            expect_end(&rt, &ended, status, output, errors, "notation");
        }
    }
    Ok(())
}

// Lines as `diag` writes them, which their encodings give again.
const PRINTED: &str = "[1, {\"a\": h'0aff'}, -18446744073709551616]\n\
                       2(h'010000000000000000')\n\
                       [1(null), \"\u{e9}\\n\\\"\", [true, {}, []]]\n\
                       \"\u{10151}\"\n";

#[test]
fn gives_notation_again(rt: HostRuntime) -> Result<(), Fail> {
    let encoded = run_on_text(rt.alloc(), &["encode"], PRINTED)?;
    assert_eq!(rt; encoded.status, 0);
    let mut hex = Source::new(encoded.output.as_slice(), usize::MAX, None);
    let device = Device::new(rt.alloc(), usize::MAX, false);
    let shown = run_on(rt.alloc(), &["diag"], &mut hex, device)?;
    expect_end(&rt, &shown, 0, PRINTED.as_bytes(), "", "lines");
    let written = run_on_text(rt.alloc(), &["encode", "--binary"], PRINTED)?;
    assert_eq!(rt; written.status, 0);
    let mut bytes = Source::new(written.output.as_slice(), usize::MAX, None);
    let device = Device::new(rt.alloc(), usize::MAX, false);
    let shown = run_on(rt.alloc(), &["diag", "--binary"], &mut bytes, device)?;
    expect_end(&rt, &shown, 0, PRINTED.as_bytes(), "", "bytes");
    Ok(())
}

// How a run of `encode --binary` ends where a device fails.
#[test]
fn tells_a_fault_of_notation(rt: HostRuntime) -> Result<(), Fail> {
    let words = &["encode", "--binary"];
    let mut source = Source::new(b"1\n2\n", 2, Some(ErrorKind::Other));
    let device = Device::new(rt.alloc(), usize::MAX, false);
    let ended = run_on(rt.alloc(), words, &mut source, device)?;
    expect_end(&rt, &ended, 3, b"\x01\x02", "input failed\n", "input");
    let mut source = Source::new(b"1\n2\n1.5", usize::MAX, None);
    let device = Device::new(rt.alloc(), 1, false);
    let ended = run_on(rt.alloc(), words, &mut source, device)?;
    expect_end(&rt, &ended, 3, b"\x01", "output failed\n", "output");
    Ok(())
}

#[test]
fn tells_its_commands(rt: HostRuntime) -> Result<(), Fail> {
    for word in ["--help", "-h"] {
        let told = run_on_text(rt.alloc(), &[word], "00\n")?;
        expect_end(&rt, &told, 0, HELP.as_bytes(), "", word);
    }
    for words in [
        "  cbor read [--det [--core]] [limit] ",
        "  cbor canon [--core] [limit] ",
        "  cbor diag [--indent] [limit] ",
        "  cbor diag --exact ",
        "  cbor encode [limit] ",
        "  cbor seq ",
        "  cbor dump ",
        "  cbor sort [--core] ",
        "  cbor diag --binary [--indent] [limit] [file..]\n",
        "  cbor diag --binary --exact [file..] ",
        "  cbor read --binary [--det [--core]] [limit] [file..]\n",
        "  cbor canon --binary [--core] [limit] [file..]\n",
        "  cbor dump --binary [file..] ",
        "  cbor encode --binary [limit] ",
        "  cbor --help, -h, cbor --version ",
    ] {
        assert!(rt; HELP.contains(words), "{words}");
    }
    Ok(())
}

#[test]
fn answers_a_line_longer_than_its_buffer(rt: HostRuntime) -> Result<(), Fail> {
    let mut line = String::from_str(rt.alloc(), "5a00004e20")?;
    let mut answer = String::from_str(rt.alloc(), "ok 594e20")?;
    for _ in 0..20_000 {
        line.push_str("a7")?;
        answer.push_str("a7")?;
    }
    answer.push('\n')?;
    let ended = run_on_text(rt.alloc(), &["read"], line.as_str())?;
    expect_end(&rt, &ended, 0, answer.as_bytes(), "", "a long line");
    Ok(())
}

// Arrays around one another: each but the innermost, that one, and what ends the others.
const HEX: [&str; 3] = ["81", "80", ""];

const NOTATION: [&str; 3] = ["[", "[]", "]"];

// The words, so many nested arrays, how what is written for them begins, and the status.
const NESTED: &[(&[&str], usize, [&str; 3], &str, u8)] = &[
    (&["diag"], 256, HEX, "[[[[", 0),
    (&["diag"], 257, HEX, "nesting\n", 1),
    (&["read"], 256, HEX, "ok 8181", 0),
    (&["read"], 257, HEX, "nesting\n", 1),
    (&["canon"], 256, HEX, "ok 8181", 0),
    (&["canon"], 257, HEX, "nesting\n", 1),
    (&["seq"], 256, HEX, "ok 8181", 0),
    (&["seq"], 257, HEX, "item 1: nesting\n", 1),
    (&["sort"], 256, HEX, "8181", 0),
    (&["sort"], 257, HEX, "line 1: nesting\n", 1),
    // The stack suffices for the greatest limit.
    (&["diag", "10000"], 10_000, HEX, "[[[[", 0),
    (&["diag", "10000"], 10_001, HEX, "nesting\n", 1),
    (&["read", "10000"], 10_000, HEX, "ok 8181", 0),
    (&["read", "10000"], 10_001, HEX, "nesting\n", 1),
    (&["read", "--det", "10000"], 10_000, HEX, "ok 8181", 0),
    (&["canon", "10000"], 10_000, HEX, "ok 8181", 0),
    (&["encode", "10000"], 10_000, NOTATION, "8181", 0),
    (&["encode", "10000"], 10_001, NOTATION, "nested too deep", 1),
];

#[test]
fn allows_levels_to_the_limit(rt: HostRuntime) -> Result<(), Fail> {
    for (words, levels, [array, innermost, end], start, status) in NESTED {
        let mut line = String::new(rt.alloc());
        for _ in 1..*levels {
            line.push_str(array)?;
        }
        line.push_str(innermost)?;
        for _ in 1..*levels {
            line.push_str(end)?;
        }
        let ended = run_on_text(rt.alloc(), words, line.as_str())?;
        assert_eq!(rt; ended.status, *status, "{words:?}");
        assert!(rt; ended.output.starts_with(start.as_bytes()), "{words:?}");
    }
    Ok(())
}

// A map inside 255 arrays is the last level, and its keys are sorted.
#[test]
fn sorts_the_innermost_map(rt: HostRuntime) -> Result<(), Fail> {
    for options in [&["canon"][..], &["canon", "--core"]] {
        let mut line = String::new(rt.alloc());
        let mut answer = String::from_str(rt.alloc(), "ok ")?;
        for _ in 0..255 {
            line.push_str("81")?;
            answer.push_str("81")?;
        }
        line.push_str("a202000100")?;
        answer.push_str("a201000200\n")?;
        let ended = run_on_text(rt.alloc(), options, line.as_str())?;
        expect_end(&rt, &ended, 0, answer.as_bytes(), "", "255 arrays");
    }
    Ok(())
}

// Each line is answered before the device of the input is asked for the next one.
#[test]
fn answers_before_it_asks(rt: HostRuntime) -> Result<(), Fail> {
    for command in ["read", "seq", "canon", "diag"] {
        let words = vec![in rt.alloc(); String::from_str(rt.alloc(), command)?]?;
        let answered = Cell::new(0);
        let mut input = Asker::new(&["1800\n", "zz\n", "6161\n"], &answered);
        let mut output = Listener::new(&answered);
        let mut errors = Vec::new(rt.alloc());
        let status = run(
            rt.alloc(),
            &words,
            &mut input,
            &Shelf::new(&[]),
            &mut output,
            &mut errors,
        );
        assert_eq!(rt; status, 1, "{command}");
        assert_eq!(rt; answered.get(), 3, "{command}");
        assert!(rt; errors.is_empty(), "{command}");
    }
    Ok(())
}

const USAGE: &str = "usage: cbor read [--det] [limit] | cbor sort | cbor seq\n\
                     cbor --help tells of the other commands\n";

const WRONG_WORDS: &[&[&str]] = &[
    &[],
    &["write"],
    &["READ"],
    &["read "],
    &["read", ""],
    &["read", "10001"],
    &["read", "18446744073709551615"],
    &["read", "18446744073709551616"],
    &["read", "-1"],
    &["read", "+1"],
    &["read", "1 "],
    &["read", "\u{661}"],
    &["read", "1", "2"],
    &["read", "--det", "x"],
    &["read", "3", "--det"],
    &["read", "--det", "--det"],
    &["read", "--det", "1", "2"],
    &["read", "--core"],
    &["read", "--core", "--det"],
    &["read", "--core", "1"],
    &["read", "--det", "--core", "x"],
    &["read", "--det", "--core", ""],
    &["read", "--det", "--core", "1", "2"],
    &["read", "--det", "--core", "--core"],
    &["read", "--det", "1", "--core"],
    &["read", "--det", "--CORE"],
    &["canon", "--core", "--core"],
    &["canon", "x"],
    &["canon", "5", "6"],
    &["canon", "--core", "5", "6"],
    &["canon", "--core", "x"],
    &["canon", "5", "--core"],
    &["canon", "--det"],
    &["canon", "--det", "--core"],
    &["canon", ""],
    &["canon", "--core", ""],
    &["CANON"],
    &["canon "],
    &["canon", "10001"],
    &["read", "canon"],
    &["sort", "--core", "5"],
    &["sort", "5", "--core"],
    &["sort", "--core", "--core"],
    &["sort", "--det", "--core"],
    &["sort", "--core "],
    &["seq", "--core"],
    &["--core"],
    &["sort", "--det"],
    &["--det"],
    &["sort", "1"],
    &["seq", "1"],
    &["seq", "--det"],
    &["SEQ"],
    &["sort", "x"],
    &["sort", ""],
    &["sort", "sort"],
    &["SORT"],
    &["sort "],
    &["diag", "x"],
    &["diag", "1", "2"],
    &["diag", "--det"],
    &["diag", "--indent", "--indent"],
    &["diag", "--indent", "--binary"],
    &["diag", "1", "--indent"],
    &["diag", "--binary", "--binary"],
    &["diag", "--binary", "--binary", "a.cbor"],
    &["diag", "--binary", "10001", "a.cbor"],
    &["diag", "--binary", "-1", "a.cbor"],
    &["diag", "--binary", ""],
    &["diag", "--indent", "a.cbor"],
    &["diag", "a.cbor"],
    &["canon", "a.cbor"],
    &["dump", "a.cbor"],
    &["dump", "--binary", "1", "a.cbor"],
    &["read", "a.cbor"],
    &["read", "--det", "a.cbor"],
    &["seq", "a.cbor"],
    &["sort", "a.cbor"],
    &["a.cbor"],
    &["--help", "a.cbor"],
    &["DIAG"],
    &["dump", "1"],
    &["dump", "--binary", "1"],
    &["dump", "--binary", "--indent"],
    &["dump", "--binary", "--binary"],
    &["--binary", "dump"],
    &["DUMP"],
    &["read", "--binary", "--binary"],
    &["read", "--binary", "--core"],
    &["read", "--binary", "--core", "--det"],
    &["read", "--binary", "--det", "--det"],
    &["read", "--binary", "--indent"],
    &["read", "--det", "--binary"],
    &["read", "--det", "--core", "--binary"],
    &["read", "--indent"],
    &["canon", "--core", "--binary"],
    &["canon", "--binary", "--indent"],
    &["seq", "--binary"],
    &["sort", "--binary"],
    &["--binary"],
    &["--help", "x"],
    &["--help", "1"],
    &["-h", "1"],
    &["-h", "-h"],
    &["--help", "-h"],
    &["read", "-h"],
    &["-H"],
    &["-h "],
    &["--version", "--help"],
    &["help"],
    &[""],
];

#[test]
fn refuses_wrong_words(rt: HostRuntime) -> Result<(), Fail> {
    for words in WRONG_WORDS {
        expect_refused_words(&rt, rt.alloc(), words)?;
    }
    Ok(())
}

const WRONG_EXACT_WORDS: &[&[&str]] = &[
    &["diag", "--exact", "a.cbor"],
    &["diag", "--exact", "1"],
    &["diag", "--exact", "--indent"],
    &["diag", "--indent", "--exact"],
    &["diag", "--binary", "--exact", "1"],
    &["diag", "--binary", "--exact", "--indent"],
    &["diag", "--exact", "--binary"],
    &["diag", "--exact", "--binary", "a.cbor"],
    &["--exact"],
];

#[test]
fn refuses_wrong_words_for_very_heads(rt: HostRuntime) -> Result<(), Fail> {
    for words in WRONG_EXACT_WORDS {
        expect_refused_words(&rt, rt.alloc(), words)?;
    }
    Ok(())
}

const WRONG_ENCODE_WORDS: &[&[&str]] = &[
    &["encode", "x"],
    &["encode", "+1"],
    &["encode", "10001"],
    &["encode", "1", "2"],
    &["encode", "a.cbor"],
    &["encode", "--core"],
    &["encode", "--indent"],
    &["encode", "1", "--binary"],
    &["encode", "--binary", "a.cbor"],
    &["encode", "--binary", "1", "a.cbor"],
    &["encode", "--binary", "--binary"],
    &["ENCODE"],
];

#[test]
fn refuses_wrong_words_for_notation(rt: HostRuntime) -> Result<(), Fail> {
    for words in WRONG_ENCODE_WORDS {
        expect_refused_words(&rt, rt.alloc(), words)?;
    }
    Ok(())
}

// Words that are wrong: the usage is told, and nothing is read.
fn expect_refused_words(rt: &impl Abort, alloc: Global, words: &[&str]) -> Result<(), Fail> {
    let mut source = Source::new(b"00\n", 1, None);
    let device = Device::new(alloc, usize::MAX, false);
    let ended = run_on(alloc, words, &mut source, device)?;
    expect_end(rt, &ended, 2, b"", USAGE, "wrong words");
    assert_eq!(rt; source.reads(), 0);
    Ok(())
}

// What `main` calls for words that cannot be read.
#[test]
fn refuses_words_that_cannot_be_read(rt: HostRuntime) -> Result<(), Fail> {
    let mut errors = Vec::new(rt.alloc());
    assert_eq!(rt; refuse_words(&mut errors), 2);
    assert_eq!(rt; errors.as_slice(), USAGE.as_bytes());
    Ok(())
}

// A command, what it reads before its input fails, what it then has written, and the status.
const CUT_SHORT: [(&str, &str, &str, u8); 9] = [
    ("diag", "20\n8101\n1e", "-1\n[1]\n", 3),
    ("dump", "00\n1e", "0: 00  unsigned 0\n\n", 3),
    ("read", "01\n1e", "ok 01\n", 1),
    ("canon", "a202000100\n1e", "ok a201000200\n", 3),
    ("read", "1800\n6161\n18", "ok 00\nok 6161\n", 1),
    ("seq", "1800\n0102\n18", "ok 00\nok 01 02\n", 1),
    ("sort", "", "", 1),
    ("sort", "1800\n", "", 1),
    ("sort", "1800\n6161\n18", "", 1),
];

#[test]
fn tells_a_fault_of_the_input(rt: HostRuntime) -> Result<(), Fail> {
    for (command, input, output, status) in CUT_SHORT {
        for kind in [
            ErrorKind::Other,
            ErrorKind::UnexpectedEof,
            ErrorKind::OutOfMemory,
        ] {
            for (most, flush_fails) in [(1, false), (usize::MAX, true)] {
                let mut source = Source::new(input.as_bytes(), most, Some(kind));
                let device = Device::new(rt.alloc(), usize::MAX, flush_fails);
                let ended = run_on(rt.alloc(), &[command], &mut source, device)?;
                let output = output.as_bytes();
                expect_end(&rt, &ended, status, output, "input failed\n", input);
            }
        }
    }
    Ok(())
}

// A command, what it reads, what it would write, the status where that fails, and the room; the
// last flush fails.
const NO_ROOM: [(&str, &str, &str, u8, [usize; 4]); 8] = [
    ("diag", "8100\n820102\n", "[0]\n[1, 2]\n", 3, [0, 3, 6, 20]),
    ("dump", "00\n", "0: 00  unsigned 0\n\n", 3, [0, 3, 18, 20]),
    ("--version", "", "cbor 0.4.0\n", 1, [0, 4, 10, 20]),
    (
        "canon",
        "1800\na202000100\n",
        "ok 00\nok a201000200\n",
        3,
        [0, 6, 8, 20],
    ),
    ("read", "1800\n6161\n", "ok 00\nok 6161\n", 1, [0, 6, 8, 20]),
    ("seq", "1800\n0102\n", "ok 00\nok 01 02\n", 1, [0, 6, 8, 20]),
    ("sort", "6161\n1800\n", "00\n6161\n", 1, [0, 2, 6, 20]),
    ("sort", "6161\n18\n", "line 2: io\n", 1, [0, 2, 6, 20]),
];

#[test]
fn tells_a_fault_of_the_output(rt: HostRuntime) -> Result<(), Fail> {
    for (command, input, output, status, rooms) in NO_ROOM {
        for room in rooms {
            let mut source = Source::new(input.as_bytes(), usize::MAX, None);
            let device = Device::new(rt.alloc(), room, room == 20);
            let ended = run_on(rt.alloc(), &[command], &mut source, device)?;
            let held = ended.output.as_slice();
            assert!(rt; output.as_bytes().starts_with(held), "{room}");
            expect_end(&rt, &ended, status, held, "output failed\n", input);
        }
    }
    Ok(())
}

// Whether the input fails, in some way, or only the flush of the output; what is written, and told.
const DUMP_FAULTS: [(Option<ErrorKind>, &str, &str); 3] = [
    (Some(ErrorKind::OutOfMemory), "", "input failed\n"),
    (Some(ErrorKind::UnexpectedEof), "", "input failed\n"),
    (None, "0: 00  unsigned 0\n", "output failed\n"),
];

#[test]
fn tells_a_fault_of_a_dump(rt: HostRuntime) -> Result<(), Fail> {
    for (fault, output, errors) in DUMP_FAULTS {
        let mut source = Source::new(b"\x00", usize::MAX, fault);
        let device = Device::new(rt.alloc(), usize::MAX, true);
        let ended = run_on(rt.alloc(), &["dump", "--binary"], &mut source, device)?;
        expect_end(&rt, &ended, 3, output.as_bytes(), errors, errors);
    }
    Ok(())
}

#[test]
fn ends_where_nothing_can_be_told(rt: HostRuntime) -> Result<(), Fail> {
    let words = vec![in rt.alloc(); String::from_str(rt.alloc(), "write")?]?;
    let mut input = Source::new(b"", usize::MAX, None);
    let mut output = Device::new(rt.alloc(), usize::MAX, false);
    let mut errors = Device::new(rt.alloc(), 0, true);
    assert_eq!(rt;
        run(
            rt.alloc(),
            &words,
            &mut input,
            &Shelf::new(&[]),
            &mut output,
            &mut errors
        ),
        2
    );
    Ok(())
}

// A command, what it reads, whether its input then fails, what it writes, and the status.
const UNTOLD: [(&str, &str, Option<ErrorKind>, &str, u8); 5] = [
    ("read", "01\n1e", Some(ErrorKind::Other), "ok 01\n", 1),
    ("seq", "0102\n1e", Some(ErrorKind::Other), "ok 01 02\n", 1),
    ("sort", "01\n00\n", Some(ErrorKind::Other), "", 1),
    ("read", "01\n1e", None, "ok 01\nsyntax 0\n", 1),
    ("sort", "01\n00\n", None, "00\n01\n", 0),
];

// Runs a command whose standard error stream fails, and holds it to its status and its output.
fn expect_untold(
    rt: &impl Abort,
    alloc: Global,
    command: &str,
    input: &mut Source<'_>,
    output: &str,
    status: u8,
) -> Result<(), Fail> {
    let words = vec![in alloc; String::from_str(alloc, command)?]?;
    let mut held = Vec::new(alloc);
    let mut errors = Device::new(alloc, 0, true);
    let ended = run(
        alloc,
        &words,
        input,
        &Shelf::new(&[]),
        &mut held,
        &mut errors,
    );
    assert_eq!(rt; ended, status, "{command}");
    assert_eq!(rt; held.as_slice(), output.as_bytes(), "{command}");
    Ok(())
}

#[test]
fn a_fault_of_the_errors_changes_nothing_else(rt: HostRuntime) -> Result<(), Fail> {
    for (command, input, fault, output, status) in UNTOLD {
        let mut source = Source::new(input.as_bytes(), 1, fault);
        expect_untold(&rt, rt.alloc(), command, &mut source, output, status)?;
    }
    Ok(())
}

// The output has no room either: the run ends, and says so by its status.
#[test]
fn ends_where_both_outputs_fail(rt: HostRuntime) -> Result<(), Fail> {
    let words = vec![in rt.alloc(); String::from_str(rt.alloc(), "read")?]?;
    let mut input = Source::new(b"01\n", usize::MAX, None);
    let mut output = Device::new(rt.alloc(), 3, false);
    let mut errors = Device::new(rt.alloc(), 0, true);
    assert_eq!(rt;
        run(
            rt.alloc(),
            &words,
            &mut input,
            &Shelf::new(&[]),
            &mut output,
            &mut errors
        ),
        1
    );
    Ok(())
}
