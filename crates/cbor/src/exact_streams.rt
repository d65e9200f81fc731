//! Streams of items that are shown by the notation of their very heads (RFC 8742).

ghost use Rattle.std.specs.Prelude.{◌≡◌, ◌<◌, ◌⊎◌, ◌++◌, ℕ, IfOk, IfSome, List, MatchOption, OnOk};
ghost use Rattle.std.specs.Prelude.{Some, [], drop, length};
ghost use Rattle.std.specs.Io.Buffered.{reader_buffer, reader_remaining};
ghost use Rattle.std.specs.Io.KnownBytes.{append_known};
ghost use Rattle.cbor.specs.Dumped.{reason_text};
ghost use Rattle.cbor.specs.ExactStreams.{IsFrontExactly, IsNextExactly, IsShownExactly};
ghost use Rattle.cbor.specs.ExactStreams.{reason_behind};
ghost use Rattle.cbor.specs.Sequence.{refused_item_text};
ghost use Rattle.cbor.specs.Streams.{HoldsItem, refused_line};

use crate::digits::push_number;
use crate::dumping::push_reason;
use crate::exact::push_exact;
use crate::fault::Fault;
use crate::lines::put_text;
use crate::retrying::Retrying;
use crate::streams::{is_at_end, put_line, send_lines};
use ciborium_ll::{NoItem, NotCopied, copy_item};
use std::alloc::{AllocError, Global};
use std::io::{BufRead, BufReader, Read, Write};

// What comes next in a stream.
enum Next {
    // Nothing.
    End,
    // An item of so many bytes.
    Item(usize),
    // No well-formed item of at most 256 levels.
    NoItem(NoItem),
}

/// Shows each item of the input, which is a sequence as bytes, by a line on the output with its
/// notation, as `push_exact` has it, and says whether all of the input is a sequence of items, each
/// within 256 levels.
/// Where no such item stands, the last line gives the place, a text that stands before all else,
/// the number of the item, counted from 1, and the reason, as a dump has it, with the offset
/// counted from the first byte of the input. Nothing is read after it.
/// Lines wait until the input's device is asked for more, or until there are many, and are then
/// written together and flushed. No item is held longer than until its line is made.
///
/// # Errors
///
/// The first fault: the input, the output or an allocation for an item fails.
pub fn show_exactly<R: Read, W: Write>(
    alloc: Global,
    input: &mut R,
    place: &[u8],
    output: &mut W,
) -> Result<bool, Fault>
    ensures { (b w : List ℕ) → R.remaining input.old ≡ Some b → W.contents output.old ≡ Some w →
        IfOk result (λ all. IsShownExactly place.now b w all (W.contents output.new)) }
{
    let Ok(mut reader) = BufReader::new(alloc, Retrying::new(input)) else {
        return Err(Fault::Memory);
    };
    let mut line = Vec::new(alloc);
    let mut waiting = Vec::new(alloc);
    let shown = show_stream(alloc, &mut reader, place, &mut line, &mut waiting, output);
    send_lines(&mut waiting, output)?;
    shown
}

// Shows the items that a reader has left, by lines behind the texts that wait. `line` is a buffer
// for a line.
fn show_stream<R: Read, W: Write>(
    alloc: Global,
    reader: &mut BufReader<R>,
    place: &[u8],
    line: &mut Vec<u8>,
    waiting: &mut Vec<u8>,
    output: &mut W,
) -> Result<bool, Fault>
    ensures { (b w : List ℕ) → reader_remaining R.remaining reader.old ≡ Some b →
        append_known (W.contents output.old) waiting.old.items ≡ Some w →
        IfOk result (λ all. IsShownExactly place.now b w all
        (append_known (W.contents output.new) waiting.new.items)) }
{
    let mut offset: usize = 0;
    'items: for number in 1..u64::MAX {
        match next_item(alloc, reader, line, waiting, output)? {
            Next::End => return Ok(true),
            Next::Item(size) => {
                put_line(line, waiting, output)?;
                // It fits in practice: no device gives so many bytes.
                offset = offset.checked_add(size).ok_or(Fault::Input)?;
            }
            Next::NoItem(reason) => {
                show_reason(place, number, offset, reason, line, waiting, output)?;
                return Ok(false);
            }
        }
    }
    // Unreachable in practice: no device gives so many items.
    Err(Fault::Input)
}

// Takes the item at the front, and makes `line` its notation, or says why there is none, or that
// nothing is left. Where the buffer does not hold it whole, so that the device is asked for more,
// the waiting lines are sent first.
fn next_item<R: Read, W: Write>(
    alloc: Global,
    reader: &mut BufReader<R>,
    line: &mut Vec<u8>,
    waiting: &mut Vec<u8>,
    output: &mut W,
) -> Result<Next, Fault>
    ensures next { (b : List ℕ) → reader_remaining R.remaining reader.old ≡ Some b →
        IfOk result (λ next.
        IsNextExactly b (reader_remaining R.remaining reader.new) line.new.items next) }
    ensures sent { HoldsItem (reader_buffer reader.old) ⊎ (waiting.new.items ≡ []) }
    ensures held { (w : List ℕ) →
        append_known (W.contents output.old) waiting.old.items ≡ Some w →
        OnOk result (append_known (W.contents output.new) waiting.new.items ≡ Some w) }
{
    if let Some(size) = take_held(alloc, reader, line) {
        return Ok(Next::Item(size));
    }
    send_lines(waiting, output)?;
    if is_at_end(reader)? {
        return Ok(Next::End);
    }
    take_copied(alloc, reader, line)
}

// Takes the item at the front, and makes `line` its notation, where the buffer holds it whole, and
// otherwise takes nothing.
fn take_held<R: Read>(alloc: Global, reader: &mut BufReader<R>, line: &mut Vec<u8>) -> Option<usize>
    ensures item { (b : List ℕ) → reader_remaining R.remaining reader.old ≡ Some b →
        MatchOption result (reader_remaining R.remaining reader.new ≡ Some b)
        (λ size. IsFrontExactly b size line.new.items
        × (reader_remaining R.remaining reader.new ≡ Some (drop size b))) }
    ensures held { IfSome result (λ _. HoldsItem (reader_buffer reader.old)) }
{
    let size = write_front(alloc, reader.buffer(), line)?;
    reader.consume(size);
    Some(size)
}

// Makes `line` the notation of the item at the front of bytes that hold it whole, and counts its
// bytes.
fn write_front(alloc: Global, held: &[u8], line: &mut Vec<u8>) -> Option<usize>
    ensures { IfSome result (λ size. IsFrontExactly held.now size line.new.items) }
{
    line.clear();
    let Ok(count) = push_exact(alloc, held, line) else {
        return None;
    };
    Some(held.len() - count)
}

// Takes the item at the front, and makes `line` its notation, or says why there is none. Its bytes
// are copied.
fn take_copied<R: Read>(
    alloc: Global,
    reader: &mut BufReader<R>,
    line: &mut Vec<u8>,
) -> Result<Next, Fault>
    ensures { (b : List ℕ) → reader_remaining R.remaining reader.old ≡ Some b → 0 < length b →
        IfOk result (λ next.
        IsNextExactly b (reader_remaining R.remaining reader.new) line.new.items next) }
{
    let mut item = Vec::new(alloc);
    match copy_item(reader, &mut item) {
        Ok(()) => {
            let size = write_front(alloc, &item, line).ok_or(Fault::Memory)?;
            Ok(Next::Item(size))
        }
        Err(NotCopied::NoItem(reason)) => Ok(Next::NoItem(reason)),
        Err(NotCopied::Io(_)) => Err(Fault::Input),
        Err(NotCopied::Memory) => Err(Fault::Memory),
    }
}

// Puts the line that says why there is no item, in this place, behind the texts that wait; the
// offset is counted from so many bytes before. `line` is a buffer for it, to be used again.
fn show_reason<W: Write>(
    place: &[u8],
    number: u64,
    offset: usize,
    reason: NoItem,
    line: &mut Vec<u8>,
    waiting: &mut Vec<u8>,
    output: &mut W,
) -> Result<(), Fault>
    ensures { (w : List ℕ) → append_known (W.contents output.old) waiting.old.items ≡ Some w →
        OnOk result (append_known (W.contents output.new) waiting.new.items
        ≡ Some (w ++ refused_line place.now number
        (reason_text (reason_behind offset reason)))) }
{
    let reason = reason_behind(offset, reason).ok_or(Fault::Input)?;
    write_reason(number, reason, line)?;
    put_text(place, waiting, output)?;
    put_line(line, waiting, output)
}

// Makes `text` say why there is no item of this number.
fn write_reason(number: u64, reason: NoItem, text: &mut Vec<u8>) -> Result<(), AllocError>
    ensures { OnOk result (text.new.items ≡ refused_item_text number (reason_text reason)) }
{
    text.clear();
    push_number(b"item ", u128::from(number), text)?;
    text.extend_from_slice(b": ")?;
    push_reason(reason, text)
}

// The reason, with its offset counted from so many bytes before, where that fits.
fn reason_behind(skipped: usize, reason: NoItem) -> Option<NoItem>
    ensures { IfSome result (λ moved. moved ≡ reason_behind skipped reason) }
{
    match reason {
        NoItem::Incomplete => Some(NoItem::Incomplete),
        NoItem::Malformed(at) => Some(NoItem::Malformed(skipped.checked_add(at)?)),
        NoItem::TooDeep(at) => Some(NoItem::TooDeep(skipped.checked_add(at)?)),
    }
}

#[cfg(test)]
mod tests;
