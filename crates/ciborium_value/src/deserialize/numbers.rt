//! Numbers.

ghost use Rattle.std.specs.Prelude.{◌+◌, ◌<◌, ◌^◌, ◌≤◌, IfErr, IfOk, false};
ghost use Rattle.std.specs.Prelude.{refl, ℕ, ℤ};
ghost use Rattle.ciborium_value.specs.Readings.{IsBounded, below, bounded};
ghost use Rattle.ciborium_value.specs.Sources.{IsGrantedFault, TakesOneItem};

use super::{Deserialize, Key};
use crate::source::Source;
use ciborium_ll::Kind;
use std::alloc::Global;

// A number from 0 to the greatest.
#[inline(always)]
fn unsigned<S: Source>(source: &mut S, greatest: u128) -> Result<u128, S::Error>
    ensures takes { TakesOneItem S.stands_before S.is_unread S.has_taken S.left S.cause source.old
        source.new (below (greatest + 1)).taken (λ n. n) result }
    ensures memory { IfErr result (λ e. IsGrantedFault (S.cause source.new e) false) }
    ensures fits { IfOk result (λ n. n ≤ greatest) }
{
    let (negative, n) = source.integer()?;
    if negative || n > greatest {
        return Err(source.refuse(Kind::Range));
    }
    Ok(n)
}

// A number n or -1 - n, for n from 0 to the greatest.
#[inline(always)]
fn signed<S: Source>(source: &mut S, greatest: u128) -> Result<i128, S::Error>
    requires { greatest < 2 ^ 127 }
    ensures takes { TakesOneItem S.stands_before S.is_unread S.has_taken S.left S.cause source.old
        source.new (bounded (greatest + 1)).taken (λ n. n) result }
    ensures memory { IfErr result (λ e. IsGrantedFault (S.cause source.new e) false) }
    ensures fits { IfOk result (IsBounded (greatest + 1)) }
{
    let (negative, n) = source.integer()?;
    if n > greatest {
        return Err(source.refuse(Kind::Range));
    }
    let number = n as i128;
    if negative {
        Ok(-1 - number)
    } else {
        Ok(number)
    }
}

/// A number below 2^8, as `Source::integer` reads it. One that is negative or too great is refused
/// as `Range`.
impl Deserialize for u8 {
    ghost Content = { ℕ };

    ghost reading = { below (2 ^ 8) };

    #[inline(always)]
    fn deserialize<S: Source>(_alloc: Global, source: &mut S) -> Result<u8, S::Error> {
        match unsigned(source, u128::from(u8::MAX)) {
            Ok(number) => Ok(number as u8),
            Err(e) => Err(e),
        }
    }
}

impl Key for u8 {
    ghost orders = { λ a b. refl };
}

/// A number below 2^16, as `Source::integer` reads it. One that is negative or too great is refused
/// as `Range`.
impl Deserialize for u16 {
    ghost Content = { ℕ };

    ghost reading = { below (2 ^ 16) };

    #[inline(always)]
    fn deserialize<S: Source>(_alloc: Global, source: &mut S) -> Result<u16, S::Error> {
        match unsigned(source, u128::from(u16::MAX)) {
            Ok(number) => Ok(number as u16),
            Err(e) => Err(e),
        }
    }
}

impl Key for u16 {
    ghost orders = { λ a b. refl };
}

/// A number below 2^32, as `Source::integer` reads it. One that is negative or too great is refused
/// as `Range`.
impl Deserialize for u32 {
    ghost Content = { ℕ };

    ghost reading = { below (2 ^ 32) };

    #[inline(always)]
    fn deserialize<S: Source>(_alloc: Global, source: &mut S) -> Result<u32, S::Error> {
        match unsigned(source, u128::from(u32::MAX)) {
            Ok(number) => Ok(number as u32),
            Err(e) => Err(e),
        }
    }
}

impl Key for u32 {
    ghost orders = { λ a b. refl };
}

/// A number below 2^64, as `Source::integer` reads it. One that is negative or too great is refused
/// as `Range`.
impl Deserialize for u64 {
    ghost Content = { ℕ };

    ghost reading = { below (2 ^ 64) };

    #[inline(always)]
    fn deserialize<S: Source>(_alloc: Global, source: &mut S) -> Result<u64, S::Error> {
        match unsigned(source, u128::from(u64::MAX)) {
            Ok(number) => Ok(number as u64),
            Err(e) => Err(e),
        }
    }
}

impl Key for u64 {
    ghost orders = { λ a b. refl };
}

/// A number below 2^128, as `Source::integer` reads it. One that is negative or too great is
/// refused as `Range`.
impl Deserialize for u128 {
    ghost Content = { ℕ };

    ghost reading = { below (2 ^ 128) };

    #[inline(always)]
    fn deserialize<S: Source>(_alloc: Global, source: &mut S) -> Result<u128, S::Error> {
        unsigned(source, u128::MAX)
    }
}

impl Key for u128 {
    ghost orders = { λ a b. refl };
}

/// A number below 2^64, as `Source::integer` reads it. One that is negative or too great is refused
/// as `Range`.
impl Deserialize for usize {
    ghost Content = { ℕ };

    ghost reading = { below (2 ^ 64) };

    #[inline(always)]
    fn deserialize<S: Source>(_alloc: Global, source: &mut S) -> Result<usize, S::Error> {
        match unsigned(source, usize::MAX as u128) {
            Ok(number) => Ok(number as usize),
            Err(e) => Err(e),
        }
    }
}

impl Key for usize {
    ghost orders = { λ a b. refl };
}

/// A number from -2^7 to 2^7 - 1, as `Source::integer` reads it. Another number is refused as
/// `Range`.
impl Deserialize for i8 {
    ghost Content = { ℤ };

    ghost reading = { bounded (2 ^ 7) };

    #[inline(always)]
    fn deserialize<S: Source>(_alloc: Global, source: &mut S) -> Result<i8, S::Error> {
        match signed(source, i8::MAX as u128) {
            Ok(number) => Ok(number as i8),
            Err(e) => Err(e),
        }
    }
}

impl Key for i8 {
    ghost orders = { λ a b. refl };
}

/// A number from -2^15 to 2^15 - 1, as `Source::integer` reads it. Another number is refused as
/// `Range`.
impl Deserialize for i16 {
    ghost Content = { ℤ };

    ghost reading = { bounded (2 ^ 15) };

    #[inline(always)]
    fn deserialize<S: Source>(_alloc: Global, source: &mut S) -> Result<i16, S::Error> {
        match signed(source, i16::MAX as u128) {
            Ok(number) => Ok(number as i16),
            Err(e) => Err(e),
        }
    }
}

impl Key for i16 {
    ghost orders = { λ a b. refl };
}

/// A number from -2^31 to 2^31 - 1, as `Source::integer` reads it. Another number is refused as
/// `Range`.
impl Deserialize for i32 {
    ghost Content = { ℤ };

    ghost reading = { bounded (2 ^ 31) };

    #[inline(always)]
    fn deserialize<S: Source>(_alloc: Global, source: &mut S) -> Result<i32, S::Error> {
        match signed(source, i32::MAX as u128) {
            Ok(number) => Ok(number as i32),
            Err(e) => Err(e),
        }
    }
}

impl Key for i32 {
    ghost orders = { λ a b. refl };
}

/// A number from -2^63 to 2^63 - 1, as `Source::integer` reads it. Another number is refused as
/// `Range`.
impl Deserialize for i64 {
    ghost Content = { ℤ };

    ghost reading = { bounded (2 ^ 63) };

    #[inline(always)]
    fn deserialize<S: Source>(_alloc: Global, source: &mut S) -> Result<i64, S::Error> {
        match signed(source, i64::MAX as u128) {
            Ok(number) => Ok(number as i64),
            Err(e) => Err(e),
        }
    }
}

impl Key for i64 {
    ghost orders = { λ a b. refl };
}

/// A number from -2^127 to 2^127 - 1, as `Source::integer` reads it. Another number is refused as
/// `Range`.
impl Deserialize for i128 {
    ghost Content = { ℤ };

    ghost reading = { bounded (2 ^ 127) };

    #[inline(always)]
    fn deserialize<S: Source>(_alloc: Global, source: &mut S) -> Result<i128, S::Error> {
        signed(source, i128::MAX as u128)
    }
}

impl Key for i128 {
    ghost orders = { λ a b. refl };
}

/// A number from -2^63 to 2^63 - 1, as `Source::integer` reads it. Another number is refused as
/// `Range`.
impl Deserialize for isize {
    ghost Content = { ℤ };

    ghost reading = { bounded (2 ^ 63) };

    #[inline(always)]
    fn deserialize<S: Source>(_alloc: Global, source: &mut S) -> Result<isize, S::Error> {
        match signed(source, isize::MAX as u128) {
            Ok(number) => Ok(number as isize),
            Err(e) => Err(e),
        }
    }
}

impl Key for isize {
    ghost orders = { λ a b. refl };
}
