//! Lines that are sequences: items one after the other, with nothing between them (RFC 8742).

ghost use Rattle.std.specs.Prelude.{◌≡◌, ◌⊎◌, ◌++◌, IfOk, OnOk, false};
ghost use Rattle.std.specs.Bool.{MatchBool};
ghost use Rattle.ciborium_value.specs.View.{tree_of};
ghost use Rattle.ciborium_ll.specs.declared.kind.Kind.TheVariants.{DuplicateKey, TooLarge};
ghost use Rattle.cbor.specs.Answer.{refused_text, wants_memory};
ghost use Rattle.cbor.specs.Forms.{formless_text};
ghost use Rattle.cbor.specs.Sequence.{AreNoSequence, AreSequence, item_text, refused_item_text};

use crate::answer::{LineRefusal, name_want};
use crate::digits::push_number;
use crate::items::{push_encoding, read_front};
use crate::reading::Spelling;
use ciborium::de::RECURSION_LIMIT;
use ciborium_value::{Kind, Value};
use std::alloc::{AllocError, Global};
use std::io::Write;

/// Makes `text` the answer to the bytes of a line that is read as a sequence of items in any
/// spelling, each within 256 levels, and says whether it is one. `buffer` is for the
/// encodings, to be used again.
///
/// # Errors
///
/// `AllocError` where an allocation fails.
pub fn answer_items(
    alloc: Global,
    bytes: &[u8],
    buffer: &mut Vec<u8>,
    text: &mut Vec<u8>,
) -> Result<bool, AllocError>
    ensures { IfOk result (λ is_ok. MatchBool is_ok (AreSequence bytes.now 256 text.new.items)
        (AreNoSequence bytes.now 256 text.new.items)) }
{
    let mut rest = bytes;
    text.clear();
    text.extend_from_slice(b"ok")?;
    'items: for number in 1..u64::MAX {
        if rest.is_empty() {
            return Ok(true);
        }
        match read_front(alloc, &mut rest, Spelling::Any, RECURSION_LIMIT) {
            Ok(value) => {
                let pushed = push_item(&value, buffer, text);
                drop(value);
                pushed?;
            }
            Err(refusal) => {
                write_refused_item(number, refusal, text)?;
                return Ok(false);
            }
        }
    }
    // Unreachable in practice: no memory holds so many items.
    Err(AllocError)
}

// Puts a space and the encoding of the value in hex behind the text.
fn push_item(value: &Value, buffer: &mut Vec<u8>, text: &mut Vec<u8>) -> Result<(), AllocError>
    ensures { OnOk result (text.new.items ≡ text.old.items ++ item_text (tree_of value.now)) }
{
    text.push(b' ')?;
    push_encoding(value, buffer, text)
}

/// Makes `text` the answer to a sequence whose item of this number, counted from 1, is refused.
///
/// # Errors
///
/// `AllocError` where an allocation fails, or failed for the item.
pub fn write_refused_item(
    number: u64,
    refusal: LineRefusal,
    text: &mut Vec<u8>,
) -> Result<(), AllocError>
    ensures { OnOk result ((wants_memory refusal ≡ false)
        × (text.new.items ≡ refused_item_text number (refused_text refusal))) }
{
    if refusal.is_memory() {
        return Err(AllocError);
    }
    text.clear();
    if write!(text, "item {number}: {refusal}").is_err() {
        return Err(AllocError);
    }
    Ok(())
}

/// Makes `text` the answer to a sequence whose item of this number, counted from 1, has no
/// deterministic form.
///
/// # Errors
///
/// `AllocError` where an allocation fails.
pub fn write_formless_item(number: u64, kind: Kind, text: &mut Vec<u8>) -> Result<(), AllocError>
    requires { (kind ≡ DuplicateKey) ⊎ (kind ≡ TooLarge) }
    ensures { OnOk result (text.new.items ≡ refused_item_text number (formless_text kind)) }
{
    text.clear();
    push_number(b"item ", u128::from(number), text)?;
    text.extend_from_slice(b": ")?;
    text.extend_from_slice(name_want(kind))
}
