//! Strings whose payload is held: tested where it stands, and copied once.

ghost use Rattle.std.specs.Prelude.{◌≡◌, ◌≤◌, IfErr, List, None, OnOk, Some, ℕ};
ghost use Rattle.ciborium_ll.specs.Decoding.{HasSameReader, TakesBeforeAny, last_of, pushed_of};
ghost use Rattle.ciborium.specs.inner.StringAnswers.{IsCopied, IsHeldRead, string_type};
ghost use Rattle.ciborium.specs.inner.ValuesInBytes.{HasEndedAfter, IsAt, heads_left};

use crate::de::error::{BareReadError, Error};
use ciborium_ll::{Access, Decoder, Visitor};
use ciborium_value::Value;
use std::alloc::Global;
use std::io;

// What is made of a payload.
#[derive(Drop)]
enum Copied {
    Whole(Value),
    // Bytes that are no text.
    NoText,
    // An allocation failed.
    NoMemory,
}

// Makes the value of a text, or of a byte string.
#[derive(Clone, Copy, Drop)]
struct Copier {
    alloc: Global,
    is_text: bool,
}

impl Visitor for Copier {
    type Value = Copied;

    ghost makes = { λ self bytes copied. IsCopied (string_type self.is_text) bytes copied };

    #[inline(always)]
    fn visit(&self, bytes: &[u8]) -> Copied {
        if self.is_text {
            match str::from_utf8(bytes) {
                Ok(text) => match String::from_str(self.alloc, text) {
                    Ok(text) => Copied::Whole(Value::Text(text)),
                    Err(_) => Copied::NoMemory,
                },
                Err(_) => Copied::NoText,
            }
        } else {
            match Vec::from_slice(self.alloc, bytes) {
                Ok(bytes) => Copied::Whole(Value::Bytes(bytes)),
                Err(_) => Copied::NoMemory,
            }
        }
    }
}

/// The value of the string of this length whose head was pulled last, where its payload is held:
/// of a text, or of a byte string. `None` takes nothing.
#[inline(always)]
pub(super) fn copy_held<R, A: Access<R>>(
    alloc: Global,
    decoder: &mut Decoder<'_, R, A>,
    is_text: bool,
    len: usize,
    failure: &mut Option<io::Error>,
) -> Result<Option<Value>, BareReadError>
    requires { pushed_of decoder.old ≡ None }
    ensures same_reader { HasSameReader decoder.old decoder.new }
    ensures pushed { pushed_of decoder.new ≡ None }
    ensures last { last_of decoder.new ≡ last_of decoder.old }
    ensures fewer { OnOk result (heads_left decoder.new ≤ heads_left decoder.old) }
    ensures ended { IfErr result
        (λ e. HasEndedAfter A.can_fail A.remaining decoder.new e) }
    ensures content { TakesBeforeAny A.remaining decoder.old decoder.new
        (λ d e. (xs : List ℕ) (p : ℕ) → IsAt Some d xs p →
        IsHeldRead (string_type is_text) Some e len (last_of decoder.old) xs p result) }
{
    let copier = Copier { alloc, is_text };
    let Some(visited) = decoder.visit_keeping(len, &copier, failure) else {
        return Ok(None);
    };
    match visited? {
        Copied::Whole(value) => Ok(Some(value)),
        Copied::NoText => Err(Error::Syntax(decoder.last_offset())),
        Copied::NoMemory => Err(Error::Memory),
    }
}
