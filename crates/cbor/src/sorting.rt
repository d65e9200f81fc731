//! Sorting lines: every line is read before anything is written.

ghost use Rattle.std.specs.Prelude.{◌≡◌, ◌++◌, ◌≤◌, ℕ, IfOk, IsOk, List, MatchResult, OnOk, Some};
ghost use Rattle.std.specs.Prelude.{[], IsPermutation, map, vec_len};
ghost use Rattle.std.specs.Io.KnownBytes.{append_known};
ghost use Rattle.std.specs.List.{flat_map};
ghost use Rattle.ciborium_value.specs.View.{tree_of};
ghost use Rattle.ciborium_value.specs.declared.key_order.KeyOrder.TheVariants.{LengthFirst};
ghost use Rattle.cbor.specs.Answer.{refused_text};
ghost use Rattle.cbor.specs.Lines.{AreMeant, text_line};
ghost use Rattle.cbor.specs.Sorted.{AreSorted};
ghost use Rattle.cbor.specs.SortedLines.{AreSortedOrRefused, IsUnsortedFor, hex_line};
ghost use Rattle.cbor.specs.SortedLines.{refused_line_text};
ghost use Rattle.cbor.specs.declared.sorting.Unsorted.TheVariants.{Unread};
ghost use Rattle.cbor.specs.declared.reading.Spelling.TheVariants.{Any};

use crate::answer::LineRefusal;
use crate::fault::Fault;
use crate::items::{push_encoding, read_item};
use crate::lines::{put_text, read_line, send_waiting};
use crate::reading::Spelling;
use ciborium::value::canonical::{MeasuredValue, cmp_bytewise, cmp_measured, cmp_value};
use ciborium_value::{KeyOrder, Value};
use std::alloc::{AllocError, Global};
use std::io::{BufReader, Read, Write};

// The most values that are sorted where they stand: the library takes no memory for them.
const MOST_IN_PLACE: usize = 20;

// Why the lines are not sorted.
enum Unsorted {
    // The line of this number, counted from 1, is the first that is no item.
    Line(u64, LineRefusal),
    // The lines could not be read.
    Unread(Fault),
}

impl From<Fault> for Unsorted {
    ghost from_gives = { λ fault unsorted. unsorted ≡ Unread fault };

    fn from(fault: Fault) -> Unsorted {
        Unsorted::Unread(fault)
    }
}

/// Writes the encodings of the items of the lines in lower-case hex, a line each, in this order, or
/// which line is the first that is no item within this many levels, and says whether each is one.
///
/// # Errors
///
/// The first fault: the input, the output or an allocation for a line or for the list fails.
pub fn sort_lines<R: Read, W: Write>(
    alloc: Global,
    input: &mut R,
    order: KeyOrder,
    limit: usize,
    output: &mut W,
) -> Result<bool, Fault>
    ensures { (b w : List ℕ) → R.remaining input.old ≡ Some b → W.contents output.old ≡ Some w →
        IfOk result (λ all. AreSortedOrRefused order b limit w all (W.contents output.new)) }
{
    match read_values(alloc, input, limit) {
        Ok(values) => {
            let sorted = sort_by_order(alloc, values, order)?;
            write_values(alloc, &sorted, output)?;
            Ok(true)
        }
        Err(Unsorted::Line(number, refusal)) => {
            write_refusal(number, refusal, output)?;
            Ok(false)
        }
        Err(Unsorted::Unread(fault)) => Err(fault),
    }
}

// The given values, each as often as given, in this order of their encodings: the canonical one, or
// that of `cmp_bytewise`, where more than 20 need room for as many values again.
fn sort_by_order(
    alloc: Global,
    mut values: Vec<Value>,
    order: KeyOrder,
) -> Result<Vec<Value>, AllocError>
    ensures permutation { IfOk result (λ sorted. IsPermutation values.items sorted.items) }
    ensures sorted { IfOk result (λ sorted. AreSorted order (map tree_of sorted.items)) }
    ensures succeeds { vec_len values ≤ 20 → IsOk result }
{
    match order {
        KeyOrder::LengthFirst => sort_values(alloc, values),
        KeyOrder::Bytewise => {
            values.sort_by(cmp_bytewise)?;
            Ok(values)
        }
    }
}

/// The given values, each as often as given, in the canonical order, that of `cmp_value`. They are
/// moved and never copied, by O(n log n) comparisons, and more than 20 are each measured once.
///
/// # Errors
///
/// `AllocError` where an allocation fails. Only more than 20 values need memory: room for as many
/// with their sizes, and for as many of those again. At the error the values are given up.
pub fn sort_values(alloc: Global, mut values: Vec<Value>) -> Result<Vec<Value>, AllocError>
    ensures permutation { IfOk result (λ sorted. IsPermutation values.items sorted.items) }
    ensures sorted { IfOk result (λ sorted. AreSorted LengthFirst (map tree_of sorted.items)) }
    ensures succeeds { vec_len values ≤ 20 → IsOk result }
{
    if values.len() <= MOST_IN_PLACE {
        values.sort_by(cmp_value)?;
        return Ok(values);
    }
    let mut measured = measure_values(alloc, values)?;
    measured.sort_by(cmp_measured)?;
    give_values(alloc, measured)
}

// The values, each with its size.
fn measure_values(alloc: Global, values: Vec<Value>) -> Result<Vec<MeasuredValue>, AllocError>
    ensures same { IfOk result (λ measured. measured.items ≡ values.items) }
{
    let mut measured = Vec::with_capacity(alloc, values.len())?;
    for value in values {
        measured.push(MeasuredValue::new(value))?;
    }
    Ok(measured)
}

// The values that were measured.
fn give_values(alloc: Global, measured: Vec<MeasuredValue>) -> Result<Vec<Value>, AllocError>
    ensures same { IfOk result (λ values. values.items ≡ measured.items) }
{
    let mut values = Vec::with_capacity(alloc, measured.len())?;
    for value in measured {
        values.push(value.into_value())?;
    }
    Ok(values)
}

// The values of the lines of the input, or why there are none.
fn read_values<R: Read>(alloc: Global, input: &mut R, limit: usize) -> Result<Vec<Value>, Unsorted>
    ensures { (b : List ℕ) → R.remaining input.old ≡ Some b →
        MatchResult result (λ values. AreMeant Any b limit [] (map tree_of values.items))
        (λ unsorted. IsUnsortedFor b limit unsorted) }
{
    let Ok(mut reader) = BufReader::new(alloc, input) else {
        return Err(Unsorted::Unread(Fault::Memory));
    };
    let mut line = Vec::new(alloc);
    let mut buffer = Vec::new(alloc);
    let mut values = Vec::new(alloc);
    'lines: for number in 1..u64::MAX {
        if !read_line(&mut reader, &mut line)? {
            return Ok(values);
        }
        match read_item(alloc, &line, Spelling::Any, limit, &mut buffer) {
            Ok(value) => {
                if values.push(value).is_err() {
                    return Err(Unsorted::Unread(Fault::Memory));
                }
            }
            Err(refusal) => return Err(Unsorted::Line(number, refusal)),
        }
    }
    Err(Unsorted::Unread(Fault::Input))
}

// Writes the encodings of the values in hex, a line each.
fn write_values<W: Write>(alloc: Global, values: &[Value], output: &mut W) -> Result<(), Fault>
    ensures { (w : List ℕ) → W.contents output.old ≡ Some w → OnOk result
        (W.contents output.new ≡ Some (w ++ flat_map hex_line (map tree_of values.now))) }
{
    let mut waiting = Vec::new(alloc);
    let put = put_values(alloc, values, &mut waiting, output);
    send_waiting(&mut waiting, output)?;
    put
}

// Puts the encodings of the values in hex behind the texts that wait, a line each.
fn put_values<W: Write>(
    alloc: Global,
    values: &[Value],
    waiting: &mut Vec<u8>,
    output: &mut W,
) -> Result<(), Fault>
    ensures { (w : List ℕ) → append_known (W.contents output.old) waiting.old.items ≡ Some w →
        OnOk result (append_known (W.contents output.new) waiting.new.items
        ≡ Some (w ++ flat_map hex_line (map tree_of values.now))) }
{
    let mut buffer = Vec::new(alloc);
    let mut text = Vec::new(alloc);
    for value in values {
        text.clear();
        push_encoding(value, &mut buffer, &mut text)?;
        put_text(&text, waiting, output)?;
        put_text(b"\n", waiting, output)?;
    }
    Ok(())
}

// Writes which line is no item, and why. It takes no memory, since an allocation may have failed.
fn write_refusal<W: Write>(number: u64, refusal: LineRefusal, output: &mut W) -> Result<(), Fault>
    ensures { (w : List ℕ) → W.contents output.old ≡ Some w →
        OnOk result (W.contents output.new
        ≡ Some (w ++ text_line (refused_line_text number (refused_text refusal)))) }
{
    if writeln!(output, "line {number}: {refusal}").is_err() {
        return Err(Fault::Output);
    }
    Ok(())
}

#[cfg(test)]
mod tests;
