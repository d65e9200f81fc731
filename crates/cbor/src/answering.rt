//! Lines that are answered, one by one.

ghost use Rattle.std.specs.Prelude.{◌≡◌, ◌++◌, ℕ, IfNone, IfOk, IfSome, List, OnOk, Some};
ghost use Rattle.std.specs.Prelude.{false, string_bytes};
ghost use Rattle.std.specs.Io.Buffered.{reader_remaining};
ghost use Rattle.std.specs.Io.KnownBytes.{append_known};
ghost use Rattle.ciborium_value.specs.View.{tree_of};
ghost use Rattle.ciborium_value.specs.declared.key_order.KeyOrder.TheVariants.{LengthFirst};
ghost use Rattle.cbor.specs.Answer.{IsMeant, TellsRefusal, refused_text, wants_memory};
ghost use Rattle.cbor.specs.Line.{IsLineAnswer, tree_text};
ghost use Rattle.cbor.specs.Lines.{AnswersLine, AreAnswered, MayBeAnswer, text_line};
ghost use Rattle.cbor.specs.Sequence.{IsSequenceAnswer};
ghost use Rattle.cbor.specs.declared.reading.Reading.TheVariants.{Dump, Encode, Exact, Form};
ghost use Rattle.cbor.specs.declared.reading.Reading.TheVariants.{Item, Notation, Sequence};
ghost use Rattle.cbor.specs.declared.reading.Spelling.TheVariants.{Any, Deterministic};

use crate::answer::{LineRefusal, name_want};
use crate::buffers::Buffers;
use crate::digits::decode_line;
use crate::dumping::write_dump;
use crate::exact::write_exact;
use crate::fault::Fault;
use crate::items::{push_encoding, read_item};
use crate::lines::{next_line, put_text, send_waiting};
use crate::notation::read_notation;
use crate::reading::{Layout, Reading, Spelling};
use crate::sequences::answer_items;
use crate::showing::push_notation;
use ciborium_value::{KeyOrder, Value};
use std::alloc::{AllocError, Global};
use std::io::{BufReader, Read, Write};

/// The answer to a line, within this many levels: `hex` where it is not an even number of hex
/// digits of either case; `ok` and the encoding in lower-case hex where its bytes are one item;
/// `trailing` and the number of bytes after the item where more follow it; and otherwise why the
/// bytes are refused: `io`, `syntax` and an offset, `semantic`, an offset and a word, `nesting`, or
/// `toolong`.
///
/// # Errors
///
/// `AllocError` where an allocation fails.
pub fn answer_line(alloc: Global, line: &[u8], limit: usize) -> Result<String, AllocError>
    ensures { IfOk result (λ text. IsLineAnswer Any line.now limit (string_bytes text)) }
{
    answer_alone(alloc, line, Spelling::Any, limit)
}

/// The answer to a line as `answer_line` gives it, but only the deterministic encoding of an item
/// is accepted (RFC 8949, section 4.2), whose maps have their keys in the canonical order. For
/// other bytes the word after `semantic` may also be `open`, `notshortest`, `notfolded` or
/// `keyorder`.
///
/// # Errors
///
/// `AllocError` where an allocation fails.
pub fn answer_line_det(alloc: Global, line: &[u8], limit: usize) -> Result<String, AllocError>
    ensures { IfOk result (λ text.
        IsLineAnswer (Deterministic LengthFirst) line.now limit (string_bytes text)) }
{
    answer_alone(
        alloc,
        line,
        Spelling::Deterministic(KeyOrder::LengthFirst),
        limit,
    )
}

/// The answer to a line that is read as a sequence (RFC 8742), items one after the other: `hex`
/// where it is not an even number of hex digits; `ok`, and a space and the encoding in lower-case
/// hex of each item, where its bytes are good items within 256 levels each; otherwise `item`, the
/// number of the first item that is refused, counted from 1, a colon, and the reason, as in
/// `answer_line`, with the offset counted inside that item.
///
/// # Errors
///
/// `AllocError` where an allocation fails.
pub fn answer_seq(alloc: Global, line: &[u8]) -> Result<String, AllocError>
    ensures { IfOk result (λ text. IsSequenceAnswer line.now 256 (string_bytes text)) }
{
    let mut buffers = Buffers::new(alloc);
    answer_sequence(alloc, line, &mut buffers)?;
    buffers.into_answer()
}

// The answer to a line that is read as one item, by buffers of its own.
fn answer_alone(
    alloc: Global,
    line: &[u8],
    spelling: Spelling,
    limit: usize,
) -> Result<String, AllocError>
    ensures { IfOk result (λ text. IsLineAnswer spelling line.now limit (string_bytes text)) }
{
    let mut buffers = Buffers::new(alloc);
    answer_item(alloc, line, spelling, limit, &mut buffers)?;
    buffers.into_answer()
}

// Makes `buffers.text` the answer to a line that is read as a sequence, and says whether it is one.
fn answer_sequence(alloc: Global, line: &[u8], buffers: &mut Buffers) -> Result<bool, AllocError>
    ensures { IfOk result (λ is_ok. AnswersLine Sequence line.now is_ok buffers.new.text.items) }
{
    match decode_line(line, &mut buffers.bytes) {
        Ok(()) => answer_items(
            alloc,
            &buffers.bytes,
            &mut buffers.encoding,
            &mut buffers.text,
        ),
        Err(refusal) => {
            write_refusal(refusal, &mut buffers.text)?;
            Ok(false)
        }
    }
}

// Makes `buffers.text` the dump of a line that is read as one item, and says whether it is one.
fn answer_dump(alloc: Global, line: &[u8], buffers: &mut Buffers) -> Result<bool, AllocError>
    ensures { IfOk result (λ is_ok. AnswersLine Dump line.now is_ok buffers.new.text.items) }
{
    match decode_line(line, &mut buffers.bytes) {
        Ok(()) => write_dump(alloc, &buffers.bytes, &mut buffers.text),
        Err(refusal) => {
            write_refusal(refusal, &mut buffers.text)?;
            Ok(false)
        }
    }
}

// Makes `buffers.text` the notation that shows the very heads of a line that is read as one item,
// and says whether it is one.
fn answer_exact(alloc: Global, line: &[u8], buffers: &mut Buffers) -> Result<bool, AllocError>
    ensures { IfOk result (λ is_ok. AnswersLine Exact line.now is_ok buffers.new.text.items) }
{
    match decode_line(line, &mut buffers.bytes) {
        Ok(()) => write_exact(alloc, &buffers.bytes, &mut buffers.text),
        Err(refusal) => {
            write_refusal(refusal, &mut buffers.text)?;
            Ok(false)
        }
    }
}

// Answers a line as `answer_item` does, but with the deterministic encoding of its item (RFC 8949,
// section 4.2), however the line spells it: bignums are folded, and the pairs of each map, inner
// maps first, sorted by their keys in this order. An item that has none is answered `duplicate`,
// where two keys of a map have the same form, or `toolarge`, where a bignum of at most 16 bytes is
// negative and no `i128` holds it. Says whether the line is an item that has such an encoding.
fn answer_canon(
    alloc: Global,
    line: &[u8],
    order: KeyOrder,
    limit: usize,
    buffers: &mut Buffers,
) -> Result<bool, AllocError>
    ensures { IfOk result (λ is_ok.
        AnswersLine (Form order limit) line.now is_ok buffers.new.text.items) }
{
    let Some(mut value) = read_or_refuse(alloc, line, Spelling::Any, limit, buffers)? else {
        return Ok(false);
    };
    match value.make_deterministic(order) {
        Ok(()) => {
            let written = write_encoding(&value, buffers);
            drop(value);
            written?;
            Ok(true)
        }
        Err(kind) => {
            drop(value);
            buffers.text.clear();
            buffers.text.extend_from_slice(name_want(kind))?;
            Ok(false)
        }
    }
}

// Answers a line as `answer_item` does, but an item with its diagnostic notation (RFC 8949, section
// 8) in this layout, with nothing before it. Says whether the line is an item.
fn answer_diag(
    alloc: Global,
    line: &[u8],
    layout: Layout,
    limit: usize,
    buffers: &mut Buffers,
) -> Result<bool, AllocError>
    ensures { IfOk result (λ is_ok.
        AnswersLine (Notation layout limit) line.now is_ok buffers.new.text.items) }
{
    let Some(value) = read_or_refuse(alloc, line, Spelling::Any, limit, buffers)? else {
        return Ok(false);
    };
    buffers.text.clear();
    let pushed = push_notation(&value, layout, &mut buffers.text);
    drop(value);
    pushed?;
    Ok(true)
}

// Makes `buffers.text` the encoding in hex of the value that a line of diagnostic notation denotes
// (RFC 8949, section 8), or why it denotes none, and says whether it denotes one.
fn answer_encoding(
    alloc: Global,
    line: &[u8],
    limit: usize,
    buffers: &mut Buffers,
) -> Result<bool, AllocError>
    ensures { IfOk result (λ is_ok.
        AnswersLine (Encode limit) line.now is_ok buffers.new.text.items) }
{
    let Some(value) = read_notation(alloc, line, limit, &mut buffers.text)? else {
        return Ok(false);
    };
    buffers.text.clear();
    let pushed = push_encoding(&value, &mut buffers.bytes, &mut buffers.text);
    drop(value);
    pushed?;
    Ok(true)
}

// Makes `buffers.text` the answer to a line that is read as one item, and says whether it is one.
fn answer_item(
    alloc: Global,
    line: &[u8],
    spelling: Spelling,
    limit: usize,
    buffers: &mut Buffers,
) -> Result<bool, AllocError>
    ensures { IfOk result (λ is_ok.
        AnswersLine (Item spelling limit) line.now is_ok buffers.new.text.items) }
{
    let Some(value) = read_or_refuse(alloc, line, spelling, limit, buffers)? else {
        return Ok(false);
    };
    let written = write_encoding(&value, buffers);
    drop(value);
    written?;
    Ok(true)
}

// The value of a line that is one item, spelled so; or none, and `buffers.text` is why the line is
// refused.
fn read_or_refuse(
    alloc: Global,
    line: &[u8],
    spelling: Spelling,
    limit: usize,
    buffers: &mut Buffers,
) -> Result<Option<Value>, AllocError>
    ensures item { IfOk result (λ found. IfSome found (λ value.
        IsMeant spelling line.now limit (tree_of value))) }
    ensures refused { IfOk result (λ found. IfNone found
        (TellsRefusal spelling line.now limit buffers.new.text.items)) }
{
    match read_item(alloc, line, spelling, limit, &mut buffers.bytes) {
        Ok(value) => Ok(Some(value)),
        Err(refusal) => {
            write_refusal(refusal, &mut buffers.text)?;
            Ok(None)
        }
    }
}

// Makes `buffers.text` the answer that holds the encoding of a value.
fn write_encoding(value: &Value, buffers: &mut Buffers) -> Result<(), AllocError>
    ensures { OnOk result (buffers.new.text.items ≡ tree_text (tree_of value.now)) }
{
    buffers.text.clear();
    buffers.text.extend_from_slice(b"ok ")?;
    push_encoding(value, &mut buffers.bytes, &mut buffers.text)
}

// Makes `text` that of a refusal; a failed allocation is none.
fn write_refusal(refusal: LineRefusal, text: &mut Vec<u8>) -> Result<(), AllocError>
    ensures { OnOk result ((wants_memory refusal ≡ false)
        × (text.new.items ≡ refused_text refusal)) }
{
    if refusal.is_memory() {
        return Err(AllocError);
    }
    text.clear();
    if write!(text, "{refusal}").is_err() {
        return Err(AllocError);
    }
    Ok(())
}

// The answer to a line that is read so, and whether the line is what is asked for.
fn answer_reading(
    alloc: Global,
    line: &[u8],
    reading: Reading,
    buffers: &mut Buffers,
) -> Result<bool, AllocError>
    ensures { IfOk result (λ is_ok. AnswersLine reading line.now is_ok buffers.new.text.items) }
{
    match reading {
        Reading::Item(spelling, limit) => answer_item(alloc, line, spelling, limit, buffers),
        Reading::Sequence => answer_sequence(alloc, line, buffers),
        Reading::Form(order, limit) => answer_canon(alloc, line, order, limit, buffers),
        Reading::Notation(layout, limit) => answer_diag(alloc, line, layout, limit, buffers),
        Reading::Dump => answer_dump(alloc, line, buffers),
        Reading::Exact => answer_exact(alloc, line, buffers),
        Reading::Encode(limit) => answer_encoding(alloc, line, limit, buffers),
    }
}

/// Answers the lines of the input, each by a line on the output, and says whether each is an item,
/// or a sequence, as is asked for. A line is answered `memory` where an allocation for its answer
/// fails. Answers wait until the input's device is asked for more, and are then written together.
///
/// # Errors
///
/// The first fault: the input, the output or an allocation for a line fails.
pub fn answer_lines<R: Read, W: Write>(
    alloc: Global,
    input: &mut R,
    reading: Reading,
    output: &mut W,
) -> Result<bool, Fault>
    ensures { (b w : List ℕ) → R.remaining input.old ≡ Some b → W.contents output.old ≡ Some w →
        IfOk result (λ all. AreAnswered reading b w all (W.contents output.new)) }
{
    let Ok(mut reader) = BufReader::new(alloc, input) else {
        return Err(Fault::Memory);
    };
    let mut waiting = Vec::new(alloc);
    let answered = put_answers(alloc, &mut reader, reading, &mut waiting, output);
    send_waiting(&mut waiting, output)?;
    answered
}

// Puts the answers to the lines of the reader behind the texts that wait.
fn put_answers<R: Read, W: Write>(
    alloc: Global,
    reader: &mut BufReader<R>,
    reading: Reading,
    waiting: &mut Vec<u8>,
    output: &mut W,
) -> Result<bool, Fault>
    ensures { (b w : List ℕ) → reader_remaining R.remaining reader.old ≡ Some b →
        append_known (W.contents output.old) waiting.old.items ≡ Some w → IfOk result (λ all.
        AreAnswered reading b w all (append_known (W.contents output.new) waiting.new.items)) }
{
    let mut line = Vec::new(alloc);
    let mut buffers = Buffers::new(alloc);
    let mut all_ok = true;
    'lines: for _ in 0..u64::MAX {
        if !next_line(reader, &mut line, waiting, output)? {
            return Ok(all_ok);
        }
        let is_ok = write_answer(alloc, &line, reading, &mut buffers, waiting, output)?;
        all_ok &= is_ok;
    }
    Err(Fault::Input)
}

// Puts the answer to a line behind the texts that wait, or `memory` where an allocation for it
// failed, and says whether the line is what is asked for.
fn write_answer<W: Write>(
    alloc: Global,
    line: &[u8],
    reading: Reading,
    buffers: &mut Buffers,
    waiting: &mut Vec<u8>,
    output: &mut W,
) -> Result<bool, Fault>
    ensures { (w : List ℕ) → append_known (W.contents output.old) waiting.old.items ≡ Some w →
        IfOk result (λ is_ok. (text : List ℕ) × MayBeAnswer reading line.now is_ok text
        × (append_known (W.contents output.new) waiting.new.items ≡ Some (w ++ text_line text))) }
{
    match answer_reading(alloc, line, reading, buffers) {
        Ok(is_ok) => {
            put_text(&buffers.text, waiting, output)?;
            put_text(b"\n", waiting, output)?;
            Ok(is_ok)
        }
        Err(AllocError) => {
            put_text(b"memory\n", waiting, output)?;
            Ok(false)
        }
    }
}

#[cfg(test)]
mod tests;
