//! The conversions of `Integer` to and from the integers of the language. None takes memory.

ghost use Rattle.std.specs.Prelude.{◌≡◌, pos, ◌≤ℤ◌, unsigned_abs, FitsSigned};
ghost use Rattle.std.specs.Int.{w8, w16, w32, w64, FitsUnsigned};
ghost use Rattle.std.specs.Result.{OkIff};
ghost use Rattle.ciborium_ll.specs.Integer.{IsInRange};

use crate::integer::{Integer, OutOfRange};
use std::convert::TryFrom;

// ---- from numbers that every Integer holds

/// The same number.
impl From<u8> for Integer {
    ghost from_gives = { λ n z. z ≡ pos n };

    fn from(number: u8) -> Integer {
        Integer {
            number: number as i128,
        }
    }
}

/// The same number.
impl From<u16> for Integer {
    ghost from_gives = { λ n z. z ≡ pos n };

    fn from(number: u16) -> Integer {
        Integer {
            number: number as i128,
        }
    }
}

/// The same number.
impl From<u32> for Integer {
    ghost from_gives = { λ n z. z ≡ pos n };

    fn from(number: u32) -> Integer {
        Integer {
            number: number as i128,
        }
    }
}

/// The same number.
impl From<u64> for Integer {
    ghost from_gives = { λ n z. z ≡ pos n };

    fn from(number: u64) -> Integer {
        Integer {
            number: number as i128,
        }
    }
}

/// The same number.
impl From<usize> for Integer {
    ghost from_gives = { λ n z. z ≡ pos n };

    fn from(number: usize) -> Integer {
        Integer {
            number: number as i128,
        }
    }
}

/// The same number.
impl From<i8> for Integer {
    ghost from_gives = { λ n z. z ≡ n };

    fn from(number: i8) -> Integer {
        Integer {
            number: number as i128,
        }
    }
}

/// The same number.
impl From<i16> for Integer {
    ghost from_gives = { λ n z. z ≡ n };

    fn from(number: i16) -> Integer {
        Integer {
            number: number as i128,
        }
    }
}

/// The same number.
impl From<i32> for Integer {
    ghost from_gives = { λ n z. z ≡ n };

    fn from(number: i32) -> Integer {
        Integer {
            number: number as i128,
        }
    }
}

/// The same number.
impl From<i64> for Integer {
    ghost from_gives = { λ n z. z ≡ n };

    fn from(number: i64) -> Integer {
        Integer {
            number: number as i128,
        }
    }
}

/// The same number.
impl From<isize> for Integer {
    ghost from_gives = { λ n z. z ≡ n };

    fn from(number: isize) -> Integer {
        Integer {
            number: number as i128,
        }
    }
}

// ---- from numbers that may be out of range

/// The same number, or `OutOfRange` exactly where it is below -2^64 or above 2^64 - 1.
impl TryFrom<i128> for Integer {
    type Error = OutOfRange;

    ghost try_from_gives = { λ n r. OkIff r (IsInRange n) n };

    fn try_from(number: i128) -> Result<Integer, OutOfRange> {
        if Integer::LEAST <= number && number <= Integer::GREATEST {
            Ok(Integer { number })
        } else {
            Err(OutOfRange)
        }
    }
}

/// The same number, or `OutOfRange` exactly where it is above 2^64 - 1.
impl TryFrom<u128> for Integer {
    type Error = OutOfRange;

    ghost try_from_gives = { λ n r. OkIff r (IsInRange (pos n)) (pos n) };

    fn try_from(number: u128) -> Result<Integer, OutOfRange> {
        match u64::try_from(number) {
            Ok(number) => Ok(Integer::from(number)),
            Err(_) => Err(OutOfRange),
        }
    }
}

// ---- to integers of the language

/// The same number; the caller also learns that it is in range.
impl From<Integer> for i128 {
    ghost from_gives = { λ z n. (n ≡ z) × IsInRange n };

    fn from(number: Integer) -> i128 {
        number.number
    }
}

/// The same number, or `OutOfRange` exactly where the type does not hold it.
impl TryFrom<Integer> for u8 {
    type Error = OutOfRange;

    ghost try_from_gives = { λ z r. OkIff r (FitsUnsigned w8 z) (unsigned_abs z) };

    fn try_from(number: Integer) -> Result<u8, OutOfRange> {
        u8::try_from(number.number).or(Err(OutOfRange))
    }
}

/// The same number, or `OutOfRange` exactly where the type does not hold it.
impl TryFrom<Integer> for u16 {
    type Error = OutOfRange;

    ghost try_from_gives = { λ z r. OkIff r (FitsUnsigned w16 z) (unsigned_abs z) };

    fn try_from(number: Integer) -> Result<u16, OutOfRange> {
        u16::try_from(number.number).or(Err(OutOfRange))
    }
}

/// The same number, or `OutOfRange` exactly where the type does not hold it.
impl TryFrom<Integer> for u32 {
    type Error = OutOfRange;

    ghost try_from_gives = { λ z r. OkIff r (FitsUnsigned w32 z) (unsigned_abs z) };

    fn try_from(number: Integer) -> Result<u32, OutOfRange> {
        u32::try_from(number.number).or(Err(OutOfRange))
    }
}

/// The same number, or `OutOfRange` exactly where the type does not hold it.
impl TryFrom<Integer> for u64 {
    type Error = OutOfRange;

    ghost try_from_gives = { λ z r. OkIff r (FitsUnsigned w64 z) (unsigned_abs z) };

    fn try_from(number: Integer) -> Result<u64, OutOfRange> {
        u64::try_from(number.number).or(Err(OutOfRange))
    }
}

/// The same number, or `OutOfRange` exactly where the type does not hold it.
impl TryFrom<Integer> for usize {
    type Error = OutOfRange;

    ghost try_from_gives = { λ z r. OkIff r (FitsUnsigned w64 z) (unsigned_abs z) };

    fn try_from(number: Integer) -> Result<usize, OutOfRange> {
        usize::try_from(number.number).or(Err(OutOfRange))
    }
}

/// The same number, or `OutOfRange` exactly where it is negative.
impl TryFrom<Integer> for u128 {
    type Error = OutOfRange;

    ghost try_from_gives = { λ z r. OkIff r (pos 0 ≤ℤ z) (unsigned_abs z) };

    fn try_from(number: Integer) -> Result<u128, OutOfRange> {
        u128::try_from(number.number).or(Err(OutOfRange))
    }
}

/// The same number, or `OutOfRange` exactly where the type does not hold it.
impl TryFrom<Integer> for i8 {
    type Error = OutOfRange;

    ghost try_from_gives = { λ z r. OkIff r (FitsSigned w8 z) z };

    fn try_from(number: Integer) -> Result<i8, OutOfRange> {
        i8::try_from(number.number).or(Err(OutOfRange))
    }
}

/// The same number, or `OutOfRange` exactly where the type does not hold it.
impl TryFrom<Integer> for i16 {
    type Error = OutOfRange;

    ghost try_from_gives = { λ z r. OkIff r (FitsSigned w16 z) z };

    fn try_from(number: Integer) -> Result<i16, OutOfRange> {
        i16::try_from(number.number).or(Err(OutOfRange))
    }
}

/// The same number, or `OutOfRange` exactly where the type does not hold it.
impl TryFrom<Integer> for i32 {
    type Error = OutOfRange;

    ghost try_from_gives = { λ z r. OkIff r (FitsSigned w32 z) z };

    fn try_from(number: Integer) -> Result<i32, OutOfRange> {
        i32::try_from(number.number).or(Err(OutOfRange))
    }
}

/// The same number, or `OutOfRange` exactly where the type does not hold it.
impl TryFrom<Integer> for i64 {
    type Error = OutOfRange;

    ghost try_from_gives = { λ z r. OkIff r (FitsSigned w64 z) z };

    fn try_from(number: Integer) -> Result<i64, OutOfRange> {
        i64::try_from(number.number).or(Err(OutOfRange))
    }
}

/// The same number, or `OutOfRange` exactly where the type does not hold it.
impl TryFrom<Integer> for isize {
    type Error = OutOfRange;

    ghost try_from_gives = { λ z r. OkIff r (FitsSigned w64 z) z };

    fn try_from(number: Integer) -> Result<isize, OutOfRange> {
        isize::try_from(number.number).or(Err(OutOfRange))
    }
}
