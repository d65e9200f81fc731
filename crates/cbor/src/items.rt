//! From a line of hex to the value of its item, and from a value to the hex of its encoding.

ghost use Rattle.std.specs.Prelude.{◌≡◌, ◌≢◌, ◌++◌, ℕ, IfErr, IfNone, IfOk, IfSome, None};
ghost use Rattle.std.specs.Prelude.{OnOk, Some, false};
ghost use Rattle.hex.specs.Hex.{encode_lower};
ghost use Rattle.ciborium_value.specs.Encoding.{encoding};
ghost use Rattle.ciborium_value.specs.View.{tree_of};
ghost use Rattle.ciborium_ll.specs.declared.kind.Kind.TheVariants.{TrailingData};
ghost use Rattle.ciborium.specs.declared.de.error.Error.TheVariants.{Semantic};
ghost use Rattle.ciborium.specs.ValueAnswers.{IsRefusedBy};
ghost use Rattle.ciborium.specs.NextItems.{IsReadIo};
ghost use Rattle.ciborium.specs.ValueClauses.{ReadsWhole};
ghost use Rattle.ciborium.specs.View.{result_map};
ghost use Rattle.cbor.specs.Answer.{AreRefused, IsFrontRefused, IsMeant, IsRefused, StandsFor};
ghost use Rattle.cbor.specs.Spellings.{HasItemBefore, IsItem, spelling_of};
ghost use Rattle.cbor.specs.declared.reading.Spelling.TheVariants.{Any};

use crate::answer::LineRefusal;
use crate::digits::{decode_line, push_digits};
use crate::reading::Spelling;
use ciborium::de::{
    Error, from_buf_reader_deterministic_with_order, from_buf_reader_with_recursion_limit,
    from_slice_with_recursion_limit,
};
use ciborium::ser::into_writer;
use ciborium_value::{Kind, Value};
use std::alloc::{AllocError, Global};
use std::io::{self, BufRead};

/// The value of a line whose bytes are one item in a spelling that is asked for, within this many
/// levels. `buffer` is for the bytes, to be used again.
///
/// # Errors
///
/// Why the line is no item, or `Memory` where an allocation failed.
pub fn read_item(
    alloc: Global,
    line: &[u8],
    spelling: Spelling,
    limit: usize,
    buffer: &mut Vec<u8>,
) -> Result<Value, LineRefusal>
    ensures item { IfOk result (λ value. IsMeant spelling line.now limit (tree_of value)) }
    ensures refused { IfErr result (λ refusal. IsRefused spelling line.now limit refusal) }
{
    decode_line(line, buffer)?;
    read_bytes(alloc, buffer, spelling, limit)
}

// The value of the bytes of a line, or why they are no item.
fn read_bytes(
    alloc: Global,
    bytes: &[u8],
    spelling: Spelling,
    limit: usize,
) -> Result<Value, LineRefusal>
    ensures item { IfOk result (λ value. IsItem spelling bytes.now limit (tree_of value)) }
    ensures refused { IfErr result (λ refusal. AreRefused spelling bytes.now limit refusal) }
{
    match spelling {
        Spelling::Any => read_slice(alloc, bytes, limit),
        Spelling::Deterministic(_) => {
            let mut rest = bytes;
            let value = read_front(alloc, &mut rest, spelling, limit)?;
            if !rest.is_empty() {
                drop(value);
                return Err(LineRefusal::Trailing(rest.len()));
            }
            Ok(value)
        }
    }
}

// The value of the bytes in any spelling.
fn read_slice(alloc: Global, bytes: &[u8], limit: usize) -> Result<Value, LineRefusal>
    ensures item { IfOk result (λ value. IsItem Any bytes.now limit (tree_of value)) }
    ensures refused { IfErr result (λ refusal. AreRefused Any bytes.now limit refusal) }
{
    match from_slice_with_recursion_limit(alloc, bytes, limit) {
        Ok(value) => Ok(value),
        Err(error) => match find_end(&error) {
            Some(end) => Err(LineRefusal::Trailing(bytes.len().saturating_sub(end))),
            // A slice has nothing left where `Io` is answered.
            None => Err(name_refusal(error, true).unwrap_or(LineRefusal::Memory)),
        },
    }
}

// Where the item ends, if bytes are refused since others follow it.
fn find_end(error: &Error<io::Error>) -> Option<usize>
    ensures end { IfSome result (λ end. error.now ≡ Semantic (Some end) TrailingData) }
    ensures other { IfNone result ((end : ℕ) → error.now ≢ Semantic (Some end) TrailingData) }
{
    match error {
        Error::Semantic(Some(end), Kind::TrailingData) => Some(*end),
        _ => None,
    }
}

/// Reads the value of the item at the front of the bytes, and leaves what follows it.
///
/// # Errors
///
/// Why there is no item in a spelling that is asked for, within this many levels, or `Memory` where
/// an allocation failed.
pub fn read_front(
    alloc: Global,
    rest: &mut &[u8],
    spelling: Spelling,
    limit: usize,
) -> Result<Value, LineRefusal>
    ensures item { IfOk result (λ value.
        HasItemBefore spelling rest.old.now limit (tree_of value) rest.new.now) }
    ensures refused { IfErr result (λ refusal.
        IsFrontRefused spelling rest.old.now limit refusal) }
{
    match read_spelled(alloc, rest, spelling, limit) {
        Ok(value) => Ok(value),
        // Unreachable in practice: a slice does not fail before its end.
        Err(error) => Err(name_refusal(error, rest.is_empty()).unwrap_or(LineRefusal::Memory)),
    }
}

/// The refusal that an error of reading a value stands for, where the reader is now at its end or
/// not. There is none for `Io` before the end, since the device failed.
pub fn name_refusal(error: Error<io::Error>, is_at_end: bool) -> Option<LineRefusal>
    requires { IsRefusedBy None error (λ _. Unit {0}) }
    ensures refused { IfSome result (λ refusal. StandsFor error is_at_end refusal) }
    ensures failed { IfNone result (IsReadIo error × (is_at_end ≡ false)) }
{
    match error {
        Error::Io(_) if is_at_end => Some(LineRefusal::Io),
        Error::Io(_) => None,
        Error::Memory => Some(LineRefusal::Memory),
        Error::Syntax(offset) => Some(LineRefusal::Syntax(offset)),
        Error::Semantic(Some(offset), kind) => Some(LineRefusal::Semantic(offset, kind)),
        Error::Semantic(None, _) => unreachable!(),
        Error::RecursionLimitExceeded => Some(LineRefusal::Nesting),
        Error::TooLong => Some(LineRefusal::TooLong),
    }
}

// Reads the value of the item at the front by the reader of these spellings, and leaves what
// follows it.
//
// # Errors
//
// Those of that reader.
fn read_spelled<R: BufRead>(
    alloc: Global,
    reader: &mut R,
    spelling: Spelling,
    limit: usize,
) -> Result<Value, Error<io::Error>>
    ensures { ReadsWhole (spelling_of spelling) (R.remaining reader.old) limit
        (R.remaining reader.new) (result_map tree_of result) }
{
    match spelling {
        Spelling::Any => from_buf_reader_with_recursion_limit(alloc, reader, limit),
        Spelling::Deterministic(order) => {
            from_buf_reader_deterministic_with_order(alloc, reader, limit, order)
        }
    }
}

/// Appends the encoding of a value in lower-case hex to a text. `buffer` is for the
/// encoding, to be used again.
///
/// # Errors
///
/// `AllocError` where an allocation fails.
pub fn push_encoding(
    value: &Value,
    buffer: &mut Vec<u8>,
    text: &mut Vec<u8>,
) -> Result<(), AllocError>
    ensures { OnOk result
        (text.new.items ≡ text.old.items ++ encode_lower (encoding (tree_of value.now))) }
{
    buffer.clear();
    if into_writer(value, buffer).is_err() {
        return Err(AllocError);
    }
    push_digits(buffer, text)
}
