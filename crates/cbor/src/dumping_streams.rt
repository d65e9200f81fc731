//! The dump of an input that is one item as bytes, not in hex.

ghost use Rattle.std.specs.Prelude.{◌≡◌, ℕ, IfOk, List, OnOk, Some};
ghost use Rattle.cbor.specs.Streams.{IsDumpedBehind, dump_lines};

use crate::dumping::write_dump;
use crate::fault::Fault;
use crate::lines::write_bytes;
use crate::retrying::Retrying;
use std::alloc::{AllocError, Global};
use std::io::{Read, Write};

// How many bytes are asked of the input at once.
const BLOCK: usize = 1 << 13;

/// Writes the dump of the input, all of which is to be one item as bytes, as `write_dump` makes it,
/// and says whether it is one item. Behind the reason where it is none stands a line feed. Offsets
/// are counted from the front of the input. All of it is read, and held in memory, before anything
/// is written.
///
/// # Errors
///
/// The first fault: the input, the output or an allocation fails. Where it is not the output that
/// fails, nothing is written.
pub fn dump_input<R: Read, W: Write>(
    alloc: Global,
    input: &mut R,
    output: &mut W,
) -> Result<bool, Fault>
    ensures { (b w : List ℕ) → R.remaining input.old ≡ Some b → W.contents output.old ≡ Some w →
        IfOk result (λ is_item. IsDumpedBehind b w is_item (W.contents output.new)) }
{
    let bytes = read_whole(alloc, input)?;
    let mut text = Vec::new(alloc);
    let is_item = write_dump(alloc, &bytes, &mut text)?;
    end_dump(is_item, &mut text)?;
    write_bytes(&text, output)?;
    Ok(is_item)
}

// Reads all of the input.
fn read_whole<R: Read>(alloc: Global, input: &mut R) -> Result<Vec<u8>, Fault>
    ensures { (b : List ℕ) → R.remaining input.old ≡ Some b →
        IfOk result (λ bytes. bytes.items ≡ b) }
{
    let mut reader = Retrying::new(input);
    let mut block = [0; BLOCK];
    let mut bytes = Vec::new(alloc);
    'reads: for _ in 0..u64::MAX {
        let Ok(count) = reader.read(&mut block) else {
            return Err(Fault::Input);
        };
        if count == 0 {
            return Ok(bytes);
        }
        bytes.extend_from_slice(&block[..count])?;
    }
    // Unreachable in practice: no device gives so many bytes.
    Err(Fault::Input)
}

// Appends the line feed behind the reason that a dump of no item ends in.
fn end_dump(is_item: bool, text: &mut Vec<u8>) -> Result<(), AllocError>
    ensures { OnOk result (text.new.items ≡ dump_lines is_item text.old.items) }
{
    if is_item {
        return Ok(());
    }
    text.extend_from_slice(b"\n")
}

#[cfg(test)]
mod tests;
