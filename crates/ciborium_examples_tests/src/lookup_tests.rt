//! Values that are looked into, and changed there: by label, by index, by width.
use crate::expectations::expect_all;
use ciborium::value::{Integer, Value};
use ciborium::{cbor, from_slice};
use ciborium_examples::lookups::{audience, detach, renew, seventh_of_third};
use std::test::Fail;

// {1: "coap://as.example.com", 3: "coap://light.example.com"}, of the claims of RFC 8392, appendix
// A.1.
#[test]
fn a_claim_is_found_by_its_number(rt: HostRuntime) -> Result<(), Fail> {
    let claims = cbor!(rt.alloc(), {
        1 => "coap://as.example.com",
        3 => "coap://light.example.com"
    })?;
    assert_eq!(rt; audience(&claims), Some("coap://light.example.com"));
    assert_eq!(rt; audience(&Value::Null), None);
    Ok(())
}

#[test]
fn an_item_and_a_label_in_a_line(rt: HostRuntime) -> Result<(), Fail> {
    let value = cbor!(rt.alloc(), [0, 1, {7 => 8}])?;
    assert_eq!(rt; seventh_of_third(&value), Some(8));
    let short = cbor!(rt.alloc(), [0, 1])?;
    assert_eq!(rt; seventh_of_third(&short), None);
    Ok(())
}

// {"a": 1, -1: 2, "a": 3, h'61': 4}: the last pair counts, and a byte string is no text.
#[test]
fn the_last_pair_counts(rt: HostRuntime) -> Result<(), Fail> {
    let bytes = hex::decode(rt.alloc(), "a46161012002616103416104")?;
    let value: Value = from_slice(rt.alloc(), &bytes)?;
    expect_all(&[
        value.get("a") == Some(&Value::from(3u8)),
        value.get(-1) == Some(&Value::from(2u8)),
        value.get(Integer::from(-1i8)) == Some(&Value::from(2u8)),
        value.get("b").is_none(),
        value.get(1).is_none(),
        value.len() == Some(4),
    ])
}

#[test]
fn there_is_nothing_beside(rt: HostRuntime) -> Result<(), Fail> {
    let array = cbor!(rt.alloc(), [7])?;
    let empty = cbor!(rt.alloc(), {})?;
    let text = Value::from_text(rt.alloc(), "")?;
    expect_all(&[
        array.at(0) == Some(&Value::from(7u8)),
        array.at(1).is_none(),
        array.get(0).is_none(),
        !array.is_empty(),
        empty.is_empty(),
        empty.at(0).is_none(),
        text.len().is_none(),
        !text.is_empty(),
    ])
}

#[test]
fn numbers_are_of_their_widths(rt: HostRuntime) -> Result<(), Fail> {
    let bytes = hex::decode(rt.alloc(), "831b80000000000000003b7fffffffffffffff20")?;
    let value: Value = from_slice(rt.alloc(), &bytes)?;
    let (Some(above), Some(least), Some(minus)) = (value.at(0), value.at(1), value.at(2)) else {
        return Err(Fail::new("three items"));
    };
    expect_all(&[
        above.as_u64() == Some(1 << 63),
        above.as_i64().is_none(),
        least.as_i64() == Some(i64::MIN),
        least.as_u64().is_none(),
        minus.as_i64() == Some(-1),
        value.as_u64().is_none(),
    ])
}

// {"a": 1, "a": 2, -1: 3}: the last of two equal keys has the new value, in the same order.
#[test]
fn the_last_pair_is_replaced(rt: HostRuntime) -> Result<(), Fail> {
    let bytes = hex::decode(rt.alloc(), "a36161016161022003")?;
    let mut value: Value = from_slice(rt.alloc(), &bytes)?;
    let under_a = value.replace("a", Value::Null);
    let under_minus_one = value.replace(Integer::from(-1i8), Value::from(true));
    let replaced = hex::decode(rt.alloc(), "a36161016161f620f5")?;
    let expected: Value = from_slice(rt.alloc(), &replaced)?;
    expect_all(&[
        under_a == Ok(Value::from(2u8)),
        under_minus_one == Ok(Value::from(3u8)),
        value == expected,
    ])
}

// Where no key is there the value is handed back, and nothing changes.
#[test]
fn nothing_is_added_to_a_map(rt: HostRuntime) -> Result<(), Fail> {
    let mut map = cbor!(rt.alloc(), {1 => 2})?;
    expect_all(&[
        map.replace(2, Value::from(5u8)) == Err(Value::from(5u8)),
        map.replace("1", Value::from(6u8)) == Err(Value::from(6u8)),
        map.replace_at(0, Value::from(7u8)) == Err(Value::from(7u8)),
        map.get(1) == Some(&Value::from(2u8)),
        map.len() == Some(1),
    ])
}

#[test]
fn an_item_is_replaced(rt: HostRuntime) -> Result<(), Fail> {
    let mut array = cbor!(rt.alloc(), [1, 2])?;
    expect_all(&[
        array.replace_at(1, Value::from(3u8)) == Ok(Value::from(2u8)),
        array.replace_at(2, Value::from(4u8)) == Err(Value::from(4u8)),
        array.replace(0, Value::from(5u8)) == Err(Value::from(5u8)),
        array.at(0) == Some(&Value::from(1u8)),
        array.at(1) == Some(&Value::from(3u8)),
        array.len() == Some(2),
    ])
}

// {4: 1444064944} of the claims of RFC 8392, appendix A.1, a day later.
#[test]
fn claims_are_renewed(rt: HostRuntime) -> Result<(), Fail> {
    let mut claims = cbor!(rt.alloc(), {3 => "coap://light.example.com", 4 => 1444064944})?;
    let mut endless = cbor!(rt.alloc(), {3 => "coap://light.example.com"})?;
    expect_all(&[
        renew(&mut claims, 1444151344),
        claims.get(4) == Some(&Value::from(1444151344u64)),
        audience(&claims) == Some("coap://light.example.com"),
        !renew(&mut endless, 1444151344),
    ])
}

#[test]
fn a_payload_is_sent_apart(rt: HostRuntime) -> Result<(), Fail> {
    let mut message = cbor!(rt.alloc(), ["", {}, "payload", "signature"])?;
    let payload = detach(&mut message);
    expect_all(&[
        payload == Some(Value::from_text(rt.alloc(), "payload")?),
        message == cbor!(rt.alloc(), ["", {}, null, "signature"])?,
        detach(&mut Value::Null).is_none(),
    ])
}
