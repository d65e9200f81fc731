//! Conversions and orders of integers, which take no memory.

use crate::outcome::{Failure, expect_all};
use ciborium::value::{Integer, OutOfRange};
use std::cmp::Ordering;
use std::convert::TryFrom;

/// Numbers to integers and back.
///
/// # Errors
///
/// `Wrong` where a conversion does not keep the number, or takes one that does not fit.
pub fn convert_integers() -> Result<(), Failure> {
    convert_unsigned_integers()?;
    convert_signed_integers()?;
    convert_great_integers()
}

// Numbers of every width without a sign.
fn convert_unsigned_integers() -> Result<(), Failure> {
    expect_all(&[
        u8::try_from(Integer::from(255u8)) == Ok(255),
        u8::try_from(Integer::from(256u16)) == Err(OutOfRange),
        u16::try_from(Integer::from(65535u16)) == Ok(65535),
        u32::try_from(Integer::from(65536u32)) == Ok(65536),
        u64::try_from(Integer::from(u64::MAX)) == Ok(u64::MAX),
        usize::try_from(Integer::from(7usize)) == Ok(7),
        u128::try_from(Integer::from(-1i8)) == Err(OutOfRange),
    ])
}

// Numbers of every width with a sign.
fn convert_signed_integers() -> Result<(), Failure> {
    expect_all(&[
        i8::try_from(Integer::from(-128i8)) == Ok(-128),
        i16::try_from(Integer::from(-129i16)) == Ok(-129),
        i32::try_from(Integer::from(-32769i32)) == Ok(-32769),
        i64::try_from(Integer::from(i64::MIN)) == Ok(i64::MIN),
        isize::try_from(Integer::from(-1isize)) == Ok(-1),
    ])
}

// Numbers of 128 bits.
fn convert_great_integers() -> Result<(), Failure> {
    expect_all(&[
        i128::from(Integer::from(u64::MAX)) == 18446744073709551615,
        Integer::try_from(-18446744073709551616i128).is_ok(),
        Integer::try_from(-18446744073709551617i128) == Err(OutOfRange),
        Integer::try_from(18446744073709551616u128) == Err(OutOfRange),
    ])
}

/// The order of numbers, and the canonical one, that of their encodings.
///
/// # Errors
///
/// `Wrong` where an order is another.
pub fn compare_integers() -> Result<(), Failure> {
    let ten = Integer::from(10u8);
    let hundred = Integer::from(100u8);
    let below = Integer::from(-1i8);
    expect_all(&[
        below < ten,
        ten < hundred,
        ten == Integer::from(10u64),
        below.cmp(&ten) == Ordering::Less,
        ten.canonical_cmp(&below) == Ordering::Less,
        below.canonical_cmp(&hundred) == Ordering::Less,
        hundred.canonical_cmp(&hundred) == Ordering::Equal,
    ])
}
