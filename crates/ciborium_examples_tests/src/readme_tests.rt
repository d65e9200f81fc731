//! The calls that README and CALLING show, as they stand there, and what they answer.
use crate::expectations::{expect, expect_bytes, expect_same};
use ciborium::ll::{Decoder, Encoder, Header, NoItem, item_len};
use ciborium::tag::Required;
use ciborium::value::canonical::cmp_value;
use ciborium::value::{CanonicalValue, Integer, KeyOrder, OutOfRange};
use ciborium::{
    Value, cbor, from_reader, from_reader_deterministic, from_reader_with_recursion_limit,
    from_slice, from_slice_deterministic, into_writer, into_writer_deterministic, to_vec,
};
use ciborium_examples::readme::{read_file, sum_file};
use std::cmp::Ordering;
use std::convert::TryFrom;
use std::test::Fail;

#[test]
fn reading(rt: HostRuntime) -> Result<(), Fail> {
    let alloc = rt.alloc();
    let stored: &[u8] = &[0x82, 0x01, 0x61, 0x61];
    let whole: (u8, String) = from_slice(alloc, stored)?; // (1, "a"): all of the bytes
    // and they are its one encoding
    let same: (u8, String) = from_slice_deterministic(alloc, stored, KeyOrder::LengthFirst, 9)?;
    let mut reader: &[u8] = &[0x82, 0x01, 0x61, 0x61, 0x00];
    let value: Value = from_reader(alloc, &mut reader)?; // Array([1, "a"]); 00 is left
    let pair: (u8, String) = value.deserialized(alloc)?; // (1, "a"), as from bytes
    let last: u8 = from_reader_with_recursion_limit(alloc, &mut reader, 9)?; // within 9 levels

    expect(whole == pair && same == pair, "a pair")?;
    expect(pair.0 == 1 && pair.1.as_str() == "a" && last == 0, "parts")?;
    let again = Value::serialized(alloc, &(1u8, "a"))?; // Array([1, "a"])
    expect_same(value, again, "an array")
}

#[test]
fn reading_one_encoding(rt: HostRuntime) -> Result<(), Fail> {
    let alloc = rt.alloc();
    let mut stored: &[u8] = &[0xa1, 0x01, 0x02];
    let map = from_reader_deterministic(alloc, &mut stored, 256)?; // from its one encoding alone
    expect(map.is_map(), "a map")
}

#[test]
fn reading_a_head(rt: HostRuntime) -> Result<(), Fail> {
    let mut bytes: &[u8] = &[0x18, 0x20];
    let header = Decoder::new(&mut bytes).pull()?; // Header::Positive(32)
    assert_eq!(rt; header, Header::Positive(32));
    Ok(())
}

#[test]
fn framing(rt: HostRuntime) -> Result<(), Fail> {
    let half = item_len(&[0x82, 0x01]); // Err(NoItem::Incomplete): more has to come
    let length = item_len(&[0x82, 0x01, 0xf6, 0x00]); // Ok(3), of any item
    assert_eq!(rt; half, Err(NoItem::Incomplete));
    assert_eq!(rt; length, Ok(3));
    Ok(())
}

#[test]
fn writing(rt: HostRuntime) -> Result<(), Fail> {
    let alloc = rt.alloc();
    let bytes = to_vec(alloc, &(1u8, "a"))?; // 82 01 61 61
    let mut writer = Vec::new(alloc);
    into_writer(&Value::from(-200i16), &mut writer)?; // 38 c7, without memory of its own
    into_writer(&(1u8, "a", Some(true)), &mut writer)?; // 83 01 61 61 f5
    into_writer(&Required::<u64, 1>(7), &mut writer)?; // c1 07: read back only under tag 1
    Encoder::new(&mut writer).push(Header::Bytes(Some(0)))?; // 40

    expect_bytes(alloc, Some(bytes), "82016161")?;
    expect_bytes(alloc, Some(writer), "38c783016161f5c10740")
}

#[test]
fn writing_a_tree(rt: HostRuntime) -> Result<(), Fail> {
    let alloc = rt.alloc();
    let value = cbor!(alloc, {"Fun" => true, "Amt" => [-2, null]})?; // a Map
    expect(value.is_map(), "a map")
}

#[test]
fn comparing(rt: HostRuntime) -> Result<(), Fail> {
    let large = Value::from_u128(rt.alloc(), 1 << 64)?; // tag 2 over 01 00 00 00 00 00 00 00 00
    let is_less = CanonicalValue::from(Value::Null) < CanonicalValue::from(large); // as map keys
    expect(is_less, "keys")
}

#[test]
fn comparing_values(_: HostRuntime) -> Result<(), Fail> {
    let order = cmp_value(&Value::from(10u8), &Value::from(-1i8)); // Less: 0a comes before 20
    expect(order == Ordering::Less, "values")
}

#[test]
fn writing_deterministically(rt: HostRuntime) -> Result<(), Fail> {
    let alloc = rt.alloc();
    let mut writer = Vec::new(alloc);
    let mut map = cbor!(alloc, {"a" => 1, 1000 => 0})?;
    let is_own = map.is_deterministic(KeyOrder::LengthFirst); // true: 2 bytes before 3
    map.make_deterministic(KeyOrder::Bytewise)?; // {1000: 0, "a": 1}, where it stands
    into_writer_deterministic(alloc, &map, KeyOrder::LengthFirst, &mut writer)?; // a2 61 61 01 ..
    expect(is_own && map.is_deterministic(KeyOrder::Bytewise), "forms")?;
    expect_bytes(alloc, Some(writer), "a26161011903e800")
}

#[test]
fn converting(rt: HostRuntime) {
    let small = u8::try_from(Integer::from(256u16)); // Err(OutOfRange)
    assert_eq!(rt; small, Err(OutOfRange));
}

#[test]
fn a_file_that_is_not_there(rt: HostRuntime) {
    assert!(rt; read_file(&rt, "no/such/file").is_err());
    assert!(rt; sum_file(&rt, "no/such/file").is_err());
}
