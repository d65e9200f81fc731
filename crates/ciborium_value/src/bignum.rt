//! Bignums: the number n is tag 2 over the bytes of n, and the number -1 - n is tag 3 over them,
//! the most significant first (RFC 8949, section 3.4.3).

ghost use Rattle.std.specs.Prelude.{◌≡◌, ◌^◌, ◌≤◌, ◌⊎◌, Err, IfErr, IfNone, IfOk, MatchOption};
ghost use Rattle.std.specs.Prelude.{None, Ok, Some, length, true};
ghost use Rattle.ciborium_value.specs.Folded.{tree_folding_bytes};
ghost use Rattle.ciborium_value.specs.Meaning.{big_endian, bignum_meaning, is_bignum_tag};
ghost use Rattle.ciborium_value.specs.Meaning.{without_zeros};
ghost use Rattle.ciborium_value.specs.Given.{magnitude};
ghost use Rattle.ciborium_value.specs.Tree as trees;
ghost use Rattle.ciborium_value.specs.View.{tree_of};
ghost use Rattle.ciborium_ll.specs.declared.kind.Kind.TheVariants as kinds;
ghost use Rattle.ciborium_value.specs.declared.error.Error.TheVariants.{Custom, Memory};

use crate::error::Error;
use crate::tree::Value;
use ciborium_ll::tag::{BIGNEG, is_bignum};
use ciborium_ll::{Integer, Kind};
use std::alloc::{AllocError, Global};

/// A bignum's tag folds over a definite byte string of at most this many bytes.
pub const GREATEST_FOLDED_SIZE: usize = 16;

/// The bytes over which a tag folds (RFC 8949, section 3.4.3).
pub(crate) fn find_folding(tag: u64, content: &Value) -> Option<&[u8]>
    ensures { MatchOption result (tree_folding_bytes tag (tree_of content.now) ≡ None)
        (λ b. tree_folding_bytes tag (tree_of content.now) ≡ Some b.now) }
{
    match content {
        Value::Bytes(bytes) => {
            if bytes.len() <= GREATEST_FOLDED_SIZE && is_bignum(tag) {
                Some(bytes)
            } else {
                None
            }
        }
        _ => None,
    }
}

/// The bytes after the leading zeros. This takes no memory.
pub fn without_leading_zeros(bytes: &[u8]) -> &[u8]
    ensures { result.now ≡ without_zeros bytes.now }
{
    let mut rest = bytes;
    while let [0, tail @ ..] = rest {
        rest = tail;
    }
    rest
}

/// The tag over a byte string, with a copy of the bytes.
pub fn tag_over(alloc: Global, tag: u64, bytes: &[u8]) -> Result<Value, AllocError>
    ensures { IfOk result (λ v. tree_of v ≡ trees.tag tag (trees.bytes bytes.now)) }
{
    let content = Value::Bytes(Vec::from_slice(alloc, bytes)?);
    Ok(Value::Tag(tag, Box::new(alloc, content)?))
}

/// The integer that tag 2 or 3 over at most 16 bytes means, or `None` where it is no number of 64
/// bits, and the tag stands over the bytes without leading zeros (RFC 8949, section 3.4.3). It
/// takes no memory. Another tag, or more bytes, do not fold and may not be passed.
///
/// # Errors
///
/// `Kind::TooLarge` where the number is negative and no `i128` holds it.
#[tactic(auto, unfolding(crate::specs::Meaning::bignum_meaning))]
pub(crate) fn fold_number(tag: u64, bytes: &[u8]) -> Result<Option<Integer>, Kind>
    requires tag { is_bignum_tag tag ≡ true }
    requires short { length bytes.now ≤ 16 }
    ensures ok { IfOk result (λ number. MatchOption number
        (bignum_meaning tag bytes.now
        ≡ Some (trees.tag tag (trees.bytes (without_zeros bytes.now))))
        (λ z. bignum_meaning tag bytes.now ≡ Some (trees.integer z))) }
    ensures too_large { IfErr result (λ kind.
        (kind ≡ kinds.TooLarge) × (bignum_meaning tag bytes.now ≡ None)) }
    ensures large { IfErr result (λ kind. 2 ^ 64 ≤ big_endian bytes.now) }
    ensures none_large { IfOk result (λ number. IfNone number (2 ^ 64 ≤ big_endian bytes.now)) }
{
    let number = read_number(bytes);
    if number < 1 << 64 {
        return Ok(Some(Integer::from_head(tag == BIGNEG, number as u64)));
    }
    if tag == BIGNEG && number >= 1 << 127 {
        return Err(Kind::TooLarge);
    }
    Ok(None)
}

/// What tag 2 or 3 over at most 16 bytes means: the integer, where it is in range, else the tag
/// over the bytes without leading zeros (RFC 8949, section 3.4.3). An integer takes no memory.
/// Another tag, or more bytes, do not fold and may not be passed.
///
/// # Errors
///
/// `Custom(TooLarge)` where the number is negative and no `i128` holds it; `Memory` where an
/// allocation failed.
pub fn fold(alloc: Global, tag: u64, bytes: &[u8]) -> Result<Value, Error>
    requires tag { is_bignum_tag tag ≡ true }
    requires short { length bytes.now ≤ 16 }
    ensures ok { IfOk result (λ v. bignum_meaning tag bytes.now ≡ Some (tree_of v)) }
    ensures refused { IfErr result (λ e. (e ≡ Memory)
        ⊎ ((e ≡ Custom kinds.TooLarge) × (bignum_meaning tag bytes.now ≡ None))) }
    ensures large { IfErr result (λ e. 2 ^ 64 ≤ big_endian bytes.now) }
{
    match fold_number(tag, bytes) {
        Ok(Some(number)) => Ok(Value::Integer(number)),
        Ok(None) => match tag_over(alloc, tag, without_leading_zeros(bytes)) {
            Ok(value) => Ok(value),
            Err(AllocError) => Err(Error::Memory),
        },
        Err(kind) => Err(Error::Custom(kind)),
    }
}

/// The number of the bytes, or `None` where more than 16 follow the leading zeros.
pub fn find_magnitude(bytes: &[u8]) -> Option<u128>
    ensures { MatchOption result (magnitude bytes.now ≡ Err kinds.TooLarge)
        (λ n. magnitude bytes.now ≡ Ok n) }
{
    let significant = without_leading_zeros(bytes);
    if significant.len() > GREATEST_FOLDED_SIZE {
        return None;
    }
    Some(read_number(significant))
}

// The big-endian number of at most 16 bytes.
fn read_number(bytes: &[u8]) -> u128
    requires { length bytes.now ≤ 16 }
    ensures { result ≡ big_endian bytes.now }
{
    let mut number: u128 = 0;
    for byte in bytes {
        number = number * 256 + u128::from(*byte);
    }
    number
}
