//! Values in the canonical and in the bytewise order, by sorts and by comparisons, and counts of
//! visits.

use crate::alike::Alike;
use crate::fronts::encode_to_hex;
use crate::pieces::{decode_pieces, split_number};
use crate::writes::read_whole;
use ciborium::ser::Serialize;
use ciborium::value::canonical::{cmp_bytewise_counted, cmp_value_counted};
use ciborium::value::{BytewiseValue, CanonicalValue, KeyOrder, Value};
use std::alloc::{AllocError, Global};
use std::cmp::Ordering;

/// A value as a key that sorts.
pub trait SortKey: Ord + From<Value> + Serialize + Drop {}

impl SortKey for CanonicalValue {}

impl SortKey for BytewiseValue {}

/// `HEX HEX ..`: the encodings of the values in the order of these keys, joined by spaces, where a
/// sort from each rotation of them, and from each rotation reversed, gives that order, and `<`,
/// `max` and `min` agree with it; else `differs`, or `differs: A / B` where two sorts do.
///
/// # Errors
///
/// `AllocError` where an allocation fails.
pub fn answer_sort<K: SortKey>(alloc: Global, rest: &str) -> Result<Option<String>, AllocError> {
    let Some(values) = read_values(alloc, rest)? else {
        return Ok(None);
    };
    let mut alike = Alike::new(show_sorted::<K>(alloc, &values, 0, false)?);
    for first in 0..values.len() {
        for is_reversed in [false, true] {
            alike.compare(alloc, show_sorted::<K>(alloc, &values, first, is_reversed))?;
        }
    }
    Ok(Some(alike.into_text()))
}

// The encodings of the values in the order that a sort gives, where the comparisons agree with it.
fn show_sorted<K: SortKey>(
    alloc: Global,
    values: &[Value],
    first: usize,
    is_reversed: bool,
) -> Result<String, AllocError> {
    let sorted = sort_from::<K>(alloc, values, first, is_reversed)?;
    if is_ascending(&sorted) && has_ends(&sorted) {
        encode_all(alloc, &sorted)
    } else {
        String::from_str(alloc, "differs")
    }
}

/// `LEAST MOST HEX HEX`: the order of two values, where it takes so many visits of their nodes;
/// else `N visits`.
///
/// # Errors
///
/// `AllocError` where an allocation fails.
pub fn answer_visits(
    alloc: Global,
    rest: &str,
    order: KeyOrder,
) -> Result<Option<String>, AllocError> {
    let Some((least, most, digits)) = split_bounds(rest) else {
        return Ok(None);
    };
    let Some(values) = read_values(alloc, digits)? else {
        return Ok(None);
    };
    let [left, right] = values.as_slice() else {
        return Ok(None);
    };
    let (order, visits) = match order {
        KeyOrder::LengthFirst => cmp_value_counted(left, right),
        KeyOrder::Bytewise => cmp_bytewise_counted(left, right),
    };
    if visits < least || most < visits {
        return Ok(Some(format!(in alloc; "{visits} visits")?));
    }
    let name = match order {
        Ordering::Less => "less",
        Ordering::Equal => "equal",
        Ordering::Greater => "greater",
    };
    Ok(Some(String::from_str(alloc, name)?))
}

// The least and the most visits, and what stands behind them.
fn split_bounds(rest: &str) -> Option<(u64, u64, &str)> {
    let (least, behind) = split_number(rest)?;
    let (most, digits) = split_number(behind)?;
    Some((least as u64, most as u64, digits))
}

// The values of words of hex, or none where one of them is no value.
fn read_values(alloc: Global, text: &str) -> Result<Option<Vec<Value>>, AllocError> {
    let mut values = Vec::new(alloc);
    for word in text.split(' ') {
        let Some(bytes) = decode_pieces(alloc, word)? else {
            return Ok(None);
        };
        let Some(value) = read_whole::<Value>(alloc, &bytes) else {
            return Ok(None);
        };
        values.push(value)?;
    }
    Ok(Some(values))
}

// Copies of the values, sorted from the order that begins at one of them, or from its reverse.
fn sort_from<K: SortKey>(
    alloc: Global,
    values: &[Value],
    first: usize,
    is_reversed: bool,
) -> Result<Vec<K>, AllocError> {
    let mut sorted = Vec::new(alloc);
    for value in values.iter().skip(first).chain(values.iter().take(first)) {
        push_copy(&mut sorted, value)?;
    }
    if is_reversed {
        sorted.reverse();
    }
    sorted.sort()?;
    Ok(sorted)
}

fn push_copy<K: SortKey>(copies: &mut Vec<K>, value: &Value) -> Result<(), AllocError> {
    copies.push(K::from(value.clone()?))?;
    Ok(())
}

// The encodings of the values, joined by spaces.
fn encode_all<K: SortKey>(alloc: Global, values: &[K]) -> Result<String, AllocError> {
    let mut text = String::new(alloc);
    for value in values {
        if !text.is_empty() {
            text.push_str(" ")?;
        }
        text.push_str(encode_to_hex(alloc, value)?.as_str())?;
    }
    Ok(text)
}

// Whether of two values in a row the first is less, or they are equal, and the second is not.
fn is_ascending<K: SortKey>(sorted: &[K]) -> bool {
    for pair in sorted.windows(2) {
        if let [left, right] = pair
            && (right < left || (left < right) == (left == right))
        {
            return false;
        }
    }
    true
}

// Whether the greatest and the least of the values stand at the ends.
fn has_ends<K: SortKey>(sorted: &[K]) -> bool {
    sorted.iter().rev().max() == sorted.last() && sorted.iter().rev().min() == sorted.first()
}
