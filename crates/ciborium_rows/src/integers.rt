//! Integers as texts: their heads, the widths that hold them, and the canonical order.

use ciborium::value::{Integer, OutOfRange};
use ciborium_ll::head_size;
use std::alloc::{AllocError, Global};
use std::cmp::Ordering;
use std::convert::TryFrom;

/// The integer that the number is, its head and the size of that, and the widths that hold it;
/// `OutOfRange` where no head holds the number. `differs: NAME` where that call does not give the
/// integer back.
///
/// # Errors
///
/// `AllocError` where an allocation fails for the text.
pub fn describe_number(alloc: Global, digits: &str) -> Result<Option<String>, AllocError> {
    let Some(found) = find_integer(digits) else {
        return Ok(None);
    };
    match found {
        Ok(integer) => Ok(Some(describe_integer(alloc, integer)?)),
        Err(error) => Ok(Some(format!(in alloc; "{error:?}")?)),
    }
}

// The integer of these digits, if they are a number of 128 bits.
fn find_integer(digits: &str) -> Option<Result<Integer, OutOfRange>> {
    if let Ok(number) = digits.parse::<i128>() {
        return Some(Integer::try_from(number));
    }
    match digits.parse::<u128>() {
        Ok(number) => Some(Integer::try_from(number)),
        Err(_) => None,
    }
}

fn describe_integer(alloc: Global, integer: Integer) -> Result<String, AllocError> {
    let (negative, argument) = integer.head();
    if Integer::from_head(negative, argument) != integer {
        return String::from_str(alloc, "differs: from_head");
    }
    if integer.clone()? != integer || integer.canonical_cmp(&integer) != Ordering::Equal {
        return String::from_str(alloc, "differs: clone");
    }
    let sign = if negative { "negative" } else { "positive" };
    let number = i128::from(integer);
    let size = head_size(argument);
    let mut text = format!(in alloc; "{number} head {sign} {argument} size {size} fits")?;
    push_unsigned(integer, &mut text)?;
    push_signed(integer, &mut text)?;
    Ok(text)
}

// Puts the unsigned widths that hold the integer behind the text.
fn push_unsigned(integer: Integer, text: &mut String) -> Result<(), AllocError> {
    let narrow = u8::try_from(integer).ok().map(Integer::from);
    push_width("u8", integer, narrow, text)?;
    let narrow = u16::try_from(integer).ok().map(Integer::from);
    push_width("u16", integer, narrow, text)?;
    let narrow = u32::try_from(integer).ok().map(Integer::from);
    push_width("u32", integer, narrow, text)?;
    let narrow = u64::try_from(integer).ok().map(Integer::from);
    push_width("u64", integer, narrow, text)?;
    let narrow = usize::try_from(integer).ok().map(Integer::from);
    push_width("usize", integer, narrow, text)?;
    if let Ok(wide) = u128::try_from(integer) {
        push_width("u128", integer, Integer::try_from(wide).ok(), text)?;
    }
    Ok(())
}

// Puts the signed widths that hold the integer behind the text.
fn push_signed(integer: Integer, text: &mut String) -> Result<(), AllocError> {
    let narrow = i8::try_from(integer).ok().map(Integer::from);
    push_width("i8", integer, narrow, text)?;
    let narrow = i16::try_from(integer).ok().map(Integer::from);
    push_width("i16", integer, narrow, text)?;
    let narrow = i32::try_from(integer).ok().map(Integer::from);
    push_width("i32", integer, narrow, text)?;
    let narrow = i64::try_from(integer).ok().map(Integer::from);
    push_width("i64", integer, narrow, text)?;
    let narrow = isize::try_from(integer).ok().map(Integer::from);
    push_width("isize", integer, narrow, text)
}

// Puts the name of a width behind the text, where the width holds a number. That number, as an
// integer, is the same.
fn push_width(
    name: &str,
    integer: Integer,
    held: Option<Integer>,
    text: &mut String,
) -> Result<(), AllocError> {
    let Some(same) = held else {
        return Ok(());
    };
    text.push_str(if same == integer { " " } else { " differs: " })?;
    text.push_str(name)
}

/// The numbers, with `<`, `==` or `>` between each and the next by the canonical order.
///
/// # Errors
///
/// `AllocError` where an allocation fails for the text.
pub fn compare_in_row(alloc: Global, numbers: &str) -> Result<Option<String>, AllocError> {
    let mut text = String::new(alloc);
    let mut before: Option<Integer> = None;
    for digits in numbers.split(',') {
        let Some(Ok(integer)) = find_integer(digits) else {
            return Ok(None);
        };
        if let Some(last) = before {
            text.push_str(name_order(last.canonical_cmp(&integer)))?;
        }
        text.push_str(digits)?;
        before = Some(integer);
    }
    Ok(Some(text))
}

fn name_order(order: Ordering) -> &'static str {
    match order {
        Ordering::Less => " < ",
        Ordering::Equal => " == ",
        Ordering::Greater => " > ",
    }
}
