//! Lines of diagnostic notation, of which the encodings are written as bytes.

ghost use Rattle.std.specs.Prelude.{◌≡◌, ◌++◌, ℕ, IfOk, List, OnOk, Some};
ghost use Rattle.std.specs.Io.Buffered.{reader_remaining};
ghost use Rattle.std.specs.Io.KnownBytes.{append_known};
ghost use Rattle.ciborium_value.specs.Encoding.{encoding};
ghost use Rattle.ciborium_value.specs.View.{tree_of};
ghost use Rattle.cbor.specs.EncodedLines.{AreEncoded};
ghost use Rattle.cbor.specs.Lines.{text_line};
ghost use Rattle.cbor.specs.SortedLines.{refused_line_text};

use crate::digits::push_number;
use crate::fault::Fault;
use crate::lines::{next_line, put_text, send_waiting};
use crate::notation::read_notation;
use ciborium::ser::into_writer;
use ciborium_value::Value;
use std::alloc::{AllocError, Global};
use std::io::{BufReader, Read, Write};

/// Writes the encoding of the value that each line of diagnostic notation denotes (RFC 8949,
/// section 8), within this many levels, as bytes: its one shortest definite encoding, right behind
/// that of the line before it, so that the output is a sequence (RFC 8742). Says whether each line
/// denotes one. At the first that denotes none nothing more is read or written, and `message` is
/// the line that tells its number, counted from 1, and the reason. Bytes wait until the input's
/// device is asked for more, and are then written together.
///
/// # Errors
///
/// The first fault: the input, the output or an allocation for a line fails.
pub fn encode_lines<R: Read, W: Write>(
    alloc: Global,
    input: &mut R,
    limit: usize,
    message: &mut Vec<u8>,
    output: &mut W,
) -> Result<bool, Fault>
    ensures { (b w : List ℕ) → R.remaining input.old ≡ Some b → W.contents output.old ≡ Some w →
        IfOk result (λ all.
        AreEncoded limit b w all (W.contents output.new) message.new.items) }
{
    let Ok(mut reader) = BufReader::new(alloc, input) else {
        return Err(Fault::Memory);
    };
    let mut waiting = Vec::new(alloc);
    let encoded = put_encodings(alloc, &mut reader, limit, message, &mut waiting, output);
    send_waiting(&mut waiting, output)?;
    encoded
}

// Puts the encodings of the values of the lines of the reader behind the bytes that wait.
fn put_encodings<R: Read, W: Write>(
    alloc: Global,
    reader: &mut BufReader<R>,
    limit: usize,
    message: &mut Vec<u8>,
    waiting: &mut Vec<u8>,
    output: &mut W,
) -> Result<bool, Fault>
    ensures { (b w : List ℕ) → reader_remaining R.remaining reader.old ≡ Some b →
        append_known (W.contents output.old) waiting.old.items ≡ Some w → IfOk result (λ all.
        AreEncoded limit b w all (append_known (W.contents output.new) waiting.new.items)
        message.new.items) }
{
    let mut line = Vec::new(alloc);
    let mut buffer = Vec::new(alloc);
    'lines: for number in 1..u64::MAX {
        if !next_line(reader, &mut line, waiting, output)? {
            return Ok(true);
        }
        let Some(value) = read_notation(alloc, &line, limit, &mut buffer)? else {
            write_refused_line(number, &buffer, message)?;
            return Ok(false);
        };
        let put = put_encoding(&value, &mut buffer, waiting, output);
        drop(value);
        put?;
    }
    // Unreachable in practice: no device gives so many lines.
    Err(Fault::Input)
}

// Puts the encoding of a value behind the bytes that wait. `buffer` is for it, to be used
// again.
fn put_encoding<W: Write>(
    value: &Value,
    buffer: &mut Vec<u8>,
    waiting: &mut Vec<u8>,
    output: &mut W,
) -> Result<(), Fault>
    ensures { (w : List ℕ) → append_known (W.contents output.old) waiting.old.items ≡ Some w →
        OnOk result (append_known (W.contents output.new) waiting.new.items
        ≡ Some (w ++ encoding (tree_of value.now))) }
{
    buffer.clear();
    if into_writer(value, buffer).is_err() {
        return Err(Fault::Memory);
    }
    put_text(buffer, waiting, output)
}

// Makes `message` the line that says which line is refused, and why.
fn write_refused_line(number: u64, reason: &[u8], message: &mut Vec<u8>) -> Result<(), AllocError>
    ensures { OnOk result
        (message.new.items ≡ text_line (refused_line_text number reason.now)) }
{
    message.clear();
    push_number(b"line ", u128::from(number), message)?;
    message.extend_from_slice(b": ")?;
    message.extend_from_slice(reason)?;
    message.extend_from_slice(b"\n")
}

#[cfg(test)]
mod tests;
