//! Values from readers with buffers, whatever these show at a time, and where they fail.
use crate::expectations::{expect, expect_same};
use crate::shown::{Fault, Shown};
use ciborium::de::{self, Deserialize};
use ciborium::ll::{Header, Slice};
use ciborium::value::{KeyOrder, Value};
use ciborium::{
    from_buf_reader, from_buf_reader_deterministic, from_buf_reader_deterministic_with_order,
    from_buf_reader_next, from_buf_reader_next_with_recursion_limit,
    from_buf_reader_with_recursion_limit, from_reader, from_slice, read_buf_sequence, to_vec,
};
use ciborium_examples::head_callers::{first_head_by, first_held_head};
use ciborium_examples::own_types::Message;
use std::alloc::{AllocError, Global};
use std::io::{self, BufReader, ErrorKind};
use std::test::Fail;

// Bytes, and what they say or why they are refused: items of RFC 8949, appendix A, and bytes that
// are none.
const ANSWERS: [(&str, &str); 13] = [
    ("3bffffffffffffffff", "-18446744073709551616"),
    (
        "c074323031332d30332d32315432303a30343a30305a",
        "0(\"2013-03-21T20:04:00Z\")",
    ),
    ("5f42010243030405ff", "h'0102030405'"),
    ("7f657374726561646d696e67ff", "\"streaming\""),
    ("9f018202039f0405ffff", "[1, [2, 3], [4, 5]]"),
    ("bf61610161629f0203ffff", "{\"a\": 1, \"b\": [2, 3]}"),
    ("", "reading failed: unexpected end of file"),
    ("1903", "reading failed: unexpected end of file"),
    ("6361", "reading failed: unexpected end of file"),
    ("82011c", "at byte 2: not well-formed CBOR"),
    ("8162c328", "at byte 1: not well-formed CBOR"),
    ("81ff", "at byte 1: a break where an item has to stand"),
    ("81f97e00", "at byte 1: a floating-point number"),
];

// What an answer says.
fn words_of(
    alloc: Global,
    answer: Result<Value, de::Error<io::Error>>,
) -> Result<String, AllocError> {
    match answer {
        Ok(value) => value.to_string(alloc),
        Err(error) => error.to_string(alloc),
    }
}

// Reads through a buffer of its own what a device gives byte by byte.
fn read_buffered(alloc: Global, bytes: &[u8]) -> Result<Value, de::Error<io::Error>> {
    let mut reader = BufReader::new(alloc, Shown::new(bytes, 1, None))?;
    from_buf_reader(alloc, &mut reader)
}

#[test]
fn each_call_answers_alike(rt: HostRuntime) -> Result<(), Fail> {
    let alloc = rt.alloc();
    for (digits, words) in ANSWERS {
        let bytes = hex::decode(alloc, digits)?;
        let answers = [
            from_slice(alloc, &bytes),
            from_reader(alloc, &mut bytes.as_slice()),
            from_reader(alloc, &mut Shown::new(&bytes, 1, None)),
            from_buf_reader(alloc, &mut bytes.as_slice()),
            from_buf_reader(alloc, &mut Shown::new(&bytes, 1, None)),
            from_buf_reader(alloc, &mut Shown::new(&bytes, 2, None)),
            read_buffered(alloc, &bytes),
        ];
        for answer in answers {
            expect(words_of(alloc, answer)?.as_str() == words, words)?;
        }
    }
    Ok(())
}

// {"version": 25, "body": "abc"} in an open array, and 7 behind it.
const LOG: &str = "9fa26776657273696f6e181964626f647963616263ff07";

// Fails unless the item of `LOG` is read so from a reader that shows all that it has, and is
// refused as `Io`, and as the error of the fill, wherever a fill breaks.
fn expect_breaks<T: Deserialize>(alloc: Global, bytes: &[u8], most: usize) -> Result<(), Fail> {
    let mut whole = Shown::new(bytes, most, None);
    let _item: T = from_buf_reader(alloc, &mut whole)?;
    expect(whole.left() == &[7u8][..], "just the item")?;
    for at in 0..whole.fills {
        let mut reader = Shown::new(bytes, most, Some((at, Fault::Breaks)));
        match from_buf_reader::<T, _>(alloc, &mut reader) {
            Err(de::Error::Io(error)) => {
                expect(
                    error.kind() == ErrorKind::ConnectionReset,
                    "the error of the fill",
                )?
            }
            _ => return Err(Fail::new(at)),
        }
    }
    Ok(())
}

#[test]
fn each_fill_breaks_in_turn(rt: HostRuntime) -> Result<(), Fail> {
    let bytes = hex::decode(rt.alloc(), LOG)?;
    for most in [1, 3, 100] {
        expect_breaks::<Value>(rt.alloc(), &bytes, most)?;
        expect_breaks::<Vec<Message>>(rt.alloc(), &bytes, most)?;
    }
    Ok(())
}

// A reader that shows nothing once has ended, and the item is cut, though more would come.
#[test]
fn fills_show_nothing_in_turn(rt: HostRuntime) -> Result<(), Fail> {
    let alloc = rt.alloc();
    let bytes = hex::decode(alloc, LOG)?;
    let mut whole = Shown::new(&bytes, 1, None);
    let _item: Value = from_buf_reader(alloc, &mut whole)?;
    for at in 0..whole.fills {
        let mut reader = Shown::new(&bytes, 1, Some((at, Fault::ShowsNothing)));
        match from_buf_reader::<Value, _>(alloc, &mut reader) {
            Err(de::Error::Io(error)) => {
                expect(error.kind() == ErrorKind::UnexpectedEof, "the end")?
            }
            _ => return Err(Fail::new(at)),
        }
    }
    Ok(())
}

// Item after item, from a slice and from a reader that shows a byte at a time: 1, "a", the end.
#[test]
fn items_one_after_the_other(rt: HostRuntime) -> Result<(), Fail> {
    let alloc = rt.alloc();
    let mut rest: &[u8] = &[0x01, 0x61, 0x61];
    let mut shown = Shown::new(rest, 1, None);
    let first: Option<u8> = from_buf_reader_next(alloc, &mut rest)?;
    expect(first == Some(1), "1")?;
    let text: Option<String> = from_buf_reader_next_with_recursion_limit(alloc, &mut rest, 0)?;
    expect(text.is_some_and(|text| text.as_str() == "a"), "a text")?;
    let end: Option<u8> = from_buf_reader_next(alloc, &mut rest)?;
    expect(end.is_none(), "the end")?;
    let items: Vec<Value> = read_buf_sequence(alloc, &mut shown)?;
    expect(items.len() == 2 && shown.left().is_empty(), "two items")
}

// [[]], which nests twice, and {"a": 1, 1000: 0}, the shorter key first.
#[test]
fn limits_and_orders(rt: HostRuntime) -> Result<(), Fail> {
    let alloc = rt.alloc();
    let mut reader: &[u8] = &[0x81, 0x80];
    match from_buf_reader_with_recursion_limit::<Value, _>(alloc, &mut reader, 1) {
        Err(de::Error::RecursionLimitExceeded) => {}
        _ => return Err(Fail::new("one level")),
    }
    let map = hex::decode(alloc, "a26161011903e800")?;
    let mut shown = Shown::new(&map, 1, None);
    let value = from_buf_reader_deterministic(alloc, &mut shown, 1)?;
    expect(to_vec(alloc, &value)? == map, "another map")?;
    let order = KeyOrder::Bytewise;
    let answer = from_buf_reader_deterministic_with_order(alloc, &mut map.as_slice(), 1, order);
    expect(answer.is_err(), "in another order")
}

#[test]
fn heads_are_read_in_the_buffer(rt: HostRuntime) -> Result<(), Fail> {
    let bytes = [0x18, 0x20, 0x07];
    for most in [1, 2, 3] {
        let mut reader = Shown::new(&bytes, most, None);
        assert_eq!(rt; first_held_head(&mut reader)?, Header::Positive(32));
        assert_eq!(rt; reader.left(), &[7u8][..]);
    }
    let mut rest: &[u8] = &bytes;
    let head = first_head_by::<&[u8], Slice>(&mut rest)?;
    expect_same(head, Header::Positive(32), "another head")?;
    expect(rest == &[7u8][..], "another rest")
}
