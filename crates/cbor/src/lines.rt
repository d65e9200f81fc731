//! The lines of an input, and texts on an output.

ghost use Rattle.std.specs.Prelude.{◌≡◌, ◌<◌, ◌⊎◌, ℕ, ◌++◌, IfOk, IsTrue, List, OnOk, Some, []};
ghost use Rattle.std.specs.Prelude.{length};
ghost use Rattle.std.specs.Bool.{MatchBool};
ghost use Rattle.std.specs.Io.BufRead.{drop_through, strip_last};
ghost use Rattle.std.specs.Io.Buffered.{reader_buffer, reader_remaining};
ghost use Rattle.std.specs.Io.KnownBytes.{append_known};
ghost use Rattle.cbor.specs.Lines.{first_line, holds_line};

use crate::fault::Fault;
use std::io::{BufRead, BufReader, Read, Write};

// How many bytes wait for the output at most.
const MOST_WAITING: usize = 1 << 15;

/// Reads the next line as `read_line` does. Where the reader holds no whole line, so that its
/// device is asked for more, the waiting texts are written first: a user who enters lines one by
/// one sees each answer before the next line is asked for.
///
/// # Errors
///
/// Those of `read_line`, and `Output` where the output fails.
pub fn next_line<R: Read, W: Write>(
    input: &mut BufReader<R>,
    line: &mut Vec<u8>,
    waiting: &mut Vec<u8>,
    output: &mut W,
) -> Result<bool, Fault>
    ensures read { (b : List ℕ) → reader_remaining R.remaining input.old ≡ Some b →
        IfOk result (λ read. MatchBool read
        ((0 < length b) × (line.new.items ≡ first_line b)
        × (reader_remaining R.remaining input.new ≡ Some (drop_through 10 b)))
        (b ≡ [])) }
    ensures sent { OnOk result
        (IsTrue (holds_line (reader_buffer input.old)) ⊎ (waiting.new.items ≡ [])) }
    ensures kept { (w : List ℕ) →
        append_known (W.contents output.old) waiting.old.items ≡ Some w →
        OnOk result (append_known (W.contents output.new) waiting.new.items ≡ Some w) }
{
    if !input.buffer().contains(&b'\n') {
        send_waiting(waiting, output)?;
    }
    read_line(input, line)
}

/// Reads a line, without the line feed and a carriage return at its end, or says that none is left.
///
/// # Errors
///
/// `Input` where the input fails, `Memory` where an allocation for the line fails.
pub fn read_line<R: Read>(input: &mut BufReader<R>, line: &mut Vec<u8>) -> Result<bool, Fault>
    ensures { (b : List ℕ) → reader_remaining R.remaining input.old ≡ Some b →
        IfOk result (λ read. MatchBool read
        ((0 < length b) × (line.new.items ≡ first_line b)
        × (reader_remaining R.remaining input.new ≡ Some (drop_through 10 b)))
        (b ≡ [])) }
{
    line.clear();
    match input.read_until(b'\n', line) {
        Ok(0) => Ok(false),
        Ok(_) => {
            drop_last(line, b'\n');
            drop_last(line, b'\r');
            Ok(true)
        }
        // Bytes for which an allocation failed are still in the buffer.
        Err(_) if !input.buffer().is_empty() => Err(Fault::Memory),
        Err(_) => Err(Fault::Input),
    }
}

/// Appends a text to those that wait for the output. Where too much would wait, or an allocation
/// for more fails, these are written, and the text after them.
///
/// # Errors
///
/// `Output` where the output fails.
pub fn put_text<W: Write>(text: &[u8], waiting: &mut Vec<u8>, output: &mut W) -> Result<(), Fault>
    ensures { (w : List ℕ) → append_known (W.contents output.old) waiting.old.items ≡ Some w →
        OnOk result
        (append_known (W.contents output.new) waiting.new.items ≡ Some (w ++ text.now)) }
{
    let room = MOST_WAITING.saturating_sub(waiting.len());
    if text.len() <= room && waiting.extend_from_slice(text).is_ok() {
        return Ok(());
    }
    send_waiting(waiting, output)?;
    write_bytes(text, output)
}

/// Writes the waiting texts. Those that could not be written are given up.
///
/// # Errors
///
/// `Output` where the output fails.
pub fn send_waiting<W: Write>(waiting: &mut Vec<u8>, output: &mut W) -> Result<(), Fault>
    ensures empty { waiting.new.items ≡ [] }
    ensures written { (w : List ℕ) →
        append_known (W.contents output.old) waiting.old.items ≡ Some w →
        OnOk result (W.contents output.new ≡ Some w) }
{
    let written = write_bytes(waiting, output);
    waiting.clear();
    written
}

/// Writes all of the bytes; where there are none, the device is not called.
///
/// # Errors
///
/// `Output` where the output fails.
pub fn write_bytes<W: Write>(bytes: &[u8], output: &mut W) -> Result<(), Fault>
    ensures { (w : List ℕ) → W.contents output.old ≡ Some w →
        OnOk result (W.contents output.new ≡ Some (w ++ bytes.now)) }
{
    if !bytes.is_empty() && output.write_all(bytes).is_err() {
        return Err(Fault::Output);
    }
    Ok(())
}

// Drops the last byte, if it is this one.
fn drop_last(line: &mut Vec<u8>, byte: u8)
    ensures { line.new.items ≡ strip_last byte line.old.items }
{
    if line.last() == Some(&byte) {
        line.pop();
    }
}
