//! Lines of diagnostic notation.

ghost use Rattle.std.specs.Prelude.{◌≡◌, IfNone, IfOk, IfSome, OnOk};
ghost use Rattle.ciborium_value.specs.Denotes.{DenotesWithin};
ghost use Rattle.ciborium_value.specs.RefusalMessages.{notation_error_message};
ghost use Rattle.ciborium_value.specs.View.{tree_of};
ghost use Rattle.cbor.specs.Encoded.{TellsNoTree, not_utf8_text};

use crate::digits::push_number;
use ciborium_value::{NotationError, Value};
use std::alloc::{AllocError, Global};
use std::io::Write;
use std::str;

/// The value that a line of diagnostic notation denotes (RFC 8949, section 8), within this many
/// levels; or none, and `text` says why: the message of the error, as `expected an item at byte 4`,
/// or `not UTF-8 at byte` and the length of the longest front of the line that is UTF-8.
///
/// # Errors
///
/// `AllocError` where an allocation fails.
pub fn read_notation(
    alloc: Global,
    line: &[u8],
    limit: usize,
    text: &mut Vec<u8>,
) -> Result<Option<Value>, AllocError>
    ensures value { IfOk result (λ found. IfSome found (λ value.
        DenotesWithin limit line.now (tree_of value))) }
    ensures refused { IfOk result (λ found. IfNone found
        (TellsNoTree limit line.now text.new.items)) }
{
    let notation = match str::from_utf8(line) {
        Ok(notation) => notation,
        Err(error) => {
            write_not_utf8(error.valid_up_to(), text)?;
            return Ok(None);
        }
    };
    match Value::from_notation_with_limit(alloc, notation, limit) {
        Ok(value) => Ok(Some(value)),
        Err(NotationError::Memory) => Err(AllocError),
        Err(error) => {
            write_error(error, text)?;
            Ok(None)
        }
    }
}

// Makes `text` say that a line is not UTF-8, of which so many bytes at the front are.
fn write_not_utf8(count: usize, text: &mut Vec<u8>) -> Result<(), AllocError>
    ensures { OnOk result (text.new.items ≡ not_utf8_text count) }
{
    text.clear();
    push_number(b"not UTF-8 at byte ", count as u128, text)
}

// Makes `text` the message of an error.
fn write_error(error: NotationError, text: &mut Vec<u8>) -> Result<(), AllocError>
    ensures { OnOk result (text.new.items ≡ notation_error_message error) }
{
    text.clear();
    if write!(text, "{error}").is_err() {
        return Err(AllocError);
    }
    Ok(())
}

#[cfg(test)]
mod tests;
