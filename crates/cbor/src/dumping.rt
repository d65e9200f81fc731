//! Annotated dumps: a line for each head of an item.

ghost use Rattle.std.specs.Prelude.{◌≡◌, ◌++◌, [], IfNone, IfOk, IfSome, OnOk, codes};
ghost use Rattle.std.specs.Prelude.{decimal};
ghost use Rattle.std.specs.List.{repeat};
ghost use Rattle.ciborium_value.specs.Notation.{quoted};
ghost use Rattle.cbor.specs.Dumped.{AreLinesOf, IsDumpOf, entry_of};
ghost use Rattle.cbor.specs.Dumped.{head_words, length_words, line_of, simple_words};
ghost use Rattle.cbor.specs.Dumped.{payload_words, place_text, reason_text};
ghost use Rattle.cbor.specs.Line.{trailing_text};

use crate::digits::{push_digits, push_number};
use crate::reading::Layout;
use crate::showing::push_notation;
use ciborium_ll::{Header, ItemHead, ItemHeads, NoItem};
use ciborium_value::Value;
use std::alloc::{AllocError, Global};

/// Makes `text` the dump of these bytes, and says whether they are one item.
///
/// Each head of the item has a line, in their order: its offset in decimal, a colon and a space,
/// two spaces for each level around it, its bytes and right behind them its payload's in lower-case
/// hex, two spaces, and what it says; a text stands behind it in quotation marks, as in diagnostic
/// notation. Where the bytes are no item, the lines are those of the heads before the
/// place where that shows, and behind them stands why: `trailing` and the number of bytes that
/// follow an item, `incomplete`, `malformed at` or `too deep at` and an offset.
///
/// # Errors
///
/// `AllocError` where an allocation fails.
pub fn write_dump(alloc: Global, bytes: &[u8], text: &mut Vec<u8>) -> Result<bool, AllocError>
    ensures { IfOk result (λ is_item. IsDumpOf bytes.now is_item text.new.items) }
{
    text.clear();
    match push_heads(alloc, bytes, text)? {
        Ok(0) => Ok(true),
        Ok(count) => {
            push_trailing(count, text)?;
            Ok(false)
        }
        Err(reason) => {
            push_reason(reason, text)?;
            Ok(false)
        }
    }
}

// Puts the lines of the heads of these bytes into an empty text, and says how many bytes follow the
// item, or why there is none.
fn push_heads(
    alloc: Global,
    bytes: &[u8],
    text: &mut Vec<u8>,
) -> Result<Result<usize, NoItem>, AllocError>
    requires { text.old.items ≡ [] }
    ensures { IfOk result (λ answer. AreLinesOf bytes.now answer text.new.items) }
{
    let mut heads = ItemHeads::new(bytes);
    'heads: loop {
        match heads.next() {
            Ok(Some(head)) => push_line(alloc, &head, text)?,
            Ok(None) => return Ok(Ok(heads.rest().len())),
            Err(reason) => return Ok(Err(reason)),
        }
    }
}

// Appends the line of a head.
fn push_line(alloc: Global, head: &ItemHead, text: &mut Vec<u8>) -> Result<(), AllocError>
    ensures { OnOk result (text.new.items ≡ text.old.items ++ line_of (entry_of head.now)) }
{
    push_place(head.offset, head.depth, text)?;
    push_digits(head.bytes, text)?;
    push_digits(head.payload, text)?;
    text.extend_from_slice(b"  ")?;
    push_words(head.header, text)?;
    push_payload(alloc, head.header, head.payload, text)?;
    text.extend_from_slice(b"\n")
}

// Appends where a head stands.
fn push_place(offset: usize, depth: usize, text: &mut Vec<u8>) -> Result<(), AllocError>
    ensures { OnOk result (text.new.items ≡ text.old.items ++ place_text offset depth) }
{
    push_number(b"", offset as u128, text)?;
    text.extend_from_slice(b": ")?;
    push_indent(depth, text)
}

// Appends two spaces for each level.
fn push_indent(depth: usize, text: &mut Vec<u8>) -> Result<(), AllocError>
    ensures { OnOk result (text.new.items ≡ text.old.items ++ repeat depth (codes "  ")) }
{
    'levels: for _ in 0..depth {
        text.extend_from_slice(b"  ")?;
    }
    Ok(())
}

// Appends what a head says.
fn push_words(header: Header, text: &mut Vec<u8>) -> Result<(), AllocError>
    ensures { OnOk result (text.new.items ≡ text.old.items ++ head_words header) }
{
    match header {
        Header::Positive(n) => push_number(b"unsigned ", u128::from(n), text),
        Header::Negative(n) => push_number(b"negative -", u128::from(n) + 1, text),
        Header::Bytes(len) => push_length(b"bytes", len, text),
        Header::Text(len) => push_length(b"text", len, text),
        Header::Array(len) => push_length(b"array", len, text),
        Header::Map(len) => push_length(b"map", len, text),
        Header::Tag(n) => push_number(b"tag ", u128::from(n), text),
        Header::Simple(n) => match simple_word(n) {
            Some(word) => text.extend_from_slice(word),
            None => push_number(b"simple ", u128::from(n), text),
        },
        Header::Float(n) => {
            push_number(b"float of ", n as u128, text)?;
            text.extend_from_slice(b" bytes")
        }
        Header::Break => text.extend_from_slice(b"break"),
    }
}

// Appends what a string, an array or a map is, and how long it is said to be.
fn push_length(word: &[u8], len: Option<usize>, text: &mut Vec<u8>) -> Result<(), AllocError>
    ensures { OnOk result (text.new.items ≡ text.old.items ++ (word.now ++ length_words len)) }
{
    text.extend_from_slice(word)?;
    match len {
        Some(n) => push_number(b" of ", n as u128, text),
        None => text.extend_from_slice(b" of indefinite length"),
    }
}

// The name of a simple value, where it has one.
fn simple_word(n: u8) -> Option<&'static [u8]>
    ensures named { IfSome result (λ word. word.now ≡ simple_words n) }
    ensures numbered { IfNone result (simple_words n ≡ codes "simple " ++ decimal n) }
{
    match n {
        20 => Some(b"false"),
        21 => Some(b"true"),
        22 => Some(b"null"),
        23 => Some(b"undefined"),
        _ => None,
    }
}

// Appends what is shown of the payload behind a head.
fn push_payload(
    alloc: Global,
    header: Header,
    payload: &[u8],
    text: &mut Vec<u8>,
) -> Result<(), AllocError>
    ensures { OnOk result
        (text.new.items ≡ text.old.items ++ payload_words header payload.now) }
{
    match header {
        Header::Text(Some(_)) => {
            text.push(b' ')?;
            push_quoted(alloc, payload, text)
        }
        _ => Ok(()),
    }
}

/// Appends a text in quotation marks, as diagnostic notation has it (RFC 8949, section 8).
///
/// # Errors
///
/// `AllocError` where an allocation fails; also where the bytes are not UTF-8, which those of a
/// text always are.
pub fn push_quoted(alloc: Global, payload: &[u8], text: &mut Vec<u8>) -> Result<(), AllocError>
    ensures { OnOk result (text.new.items ≡ text.old.items ++ quoted payload.now) }
{
    let mut copy = Vec::new(alloc);
    copy.extend_from_slice(payload)?;
    let Ok(copy) = String::from_utf8(copy) else {
        return Err(AllocError);
    };
    push_notation(&Value::Text(copy), Layout::OneLine, text)
}

/// Appends that so many bytes follow an item.
///
/// # Errors
///
/// `AllocError` where an allocation fails.
pub fn push_trailing(count: usize, text: &mut Vec<u8>) -> Result<(), AllocError>
    ensures { OnOk result (text.new.items ≡ text.old.items ++ trailing_text count) }
{
    push_number(b"trailing ", count as u128, text)
}

/// Appends why no item stands at the front (RFC 8949, section 5.3.1).
///
/// # Errors
///
/// `AllocError` where an allocation fails.
pub fn push_reason(reason: NoItem, text: &mut Vec<u8>) -> Result<(), AllocError>
    ensures { OnOk result (text.new.items ≡ text.old.items ++ reason_text reason) }
{
    match reason {
        NoItem::Incomplete => text.extend_from_slice(b"incomplete"),
        NoItem::Malformed(offset) => push_number(b"malformed at ", offset as u128, text),
        NoItem::TooDeep(offset) => push_number(b"too deep at ", offset as u128, text),
    }
}

#[cfg(test)]
mod tests;
