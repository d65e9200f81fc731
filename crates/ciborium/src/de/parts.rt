//! The part that stands at the front: a value that is whole, the beginning of a container or tag,
//! or a break.

ghost use Rattle.std.specs.Prelude.{◌≡◌, ◌+◌, ◌<◌, ◌≤◌, IfErr, IfOk, List, None, OnOk, Some, ℕ};
ghost use Rattle.ciborium_ll.specs.Decoding.{HasSameReader, TakesBeforeAny, last_of, pushed_of};
ghost use Rattle.ciborium.specs.inner.ValuesInBytes.{HasEndedAfter};
ghost use Rattle.ciborium.specs.inner.Parts.{IsContainerBegun, IsPartRead, IsWhole};
ghost use Rattle.ciborium.specs.inner.Parts.{IsAtRest, IsSimpleRead};
ghost use Rattle.ciborium.specs.inner.ValuesInBytes.{IsAt, StandsAt, heads_left};
ghost use Rattle.ciborium.specs.inner.StringAnswers.{IsStringPart, string_type};

use crate::de::error::{BareReadError, Error};
use crate::de::front::{Part, pull};
use crate::de::held::copy_held;
use crate::de::spelling::Rules;
use crate::de::tags::read_tag;
use ciborium_ll::{Access, Decoder, Header, simple};
use ciborium_value::stack::NewFrame;
use ciborium_value::{Integer, Kind, Value};
use std::alloc::Global;
use std::io;

// What follows the head of an array or a map with this many parts (`None`: open).
#[inline(always)]
fn begin_container<E>(
    alloc: Global,
    is_map: bool,
    count: Option<usize>,
    levels: usize,
) -> Result<Part, Error<E>>
    ensures { IsContainerBegun is_map count levels result }
{
    if levels == 0 {
        return Err(Error::RecursionLimitExceeded);
    }
    let behind = match count {
        Some(0) => {
            return Ok(Part::Whole(if is_map {
                Value::Map(Vec::new(alloc))
            } else {
                Value::Array(Vec::new(alloc))
            }));
        }
        Some(n) => Some(n - 1),
        None => None,
    };
    Ok(Part::Begun(if is_map {
        NewFrame::Map { behind }
    } else {
        NewFrame::Array { behind }
    }))
}

#[tactic(auto, unfolding(ciborium_value::specs::Meaning::simple_meaning))]
#[inline(always)]
fn read_simple<E>(number: u8, offset: usize) -> Result<Part, Error<E>>
    ensures { IsSimpleRead number offset result }
{
    match number {
        simple::FALSE => Ok(Part::Whole(Value::Bool(false))),
        simple::TRUE => Ok(Part::Whole(Value::Bool(true))),
        simple::NULL | simple::UNDEFINED => Ok(Part::Whole(Value::Null)),
        _ => Err(Error::Semantic(Some(offset), Kind::Simple)),
    }
}

// The payload of the string whose head was pulled last: of a text, or of a byte string.
fn read_string<R, A: Access<R>>(
    alloc: Global,
    decoder: &mut Decoder<'_, R, A>,
    scratch: &mut [u8],
    is_text: bool,
    len: Option<usize>,
    failure: &mut Option<io::Error>,
) -> Result<Part, BareReadError>
    requires { pushed_of decoder.old ≡ None }
    ensures same_reader { HasSameReader decoder.old decoder.new }
    ensures pushed { pushed_of decoder.new ≡ None }
    ensures fewer { OnOk result (heads_left decoder.new ≤ heads_left decoder.old) }
    ensures whole { IfOk result IsWhole }
    ensures ended { IfErr result
        (λ e. HasEndedAfter A.can_fail A.remaining decoder.new e) }
    ensures content { TakesBeforeAny A.remaining decoder.old decoder.new
        (λ d e. (xs : List ℕ) (p : ℕ) → IsAt Some d xs p →
        IsStringPart (string_type is_text) Some e len (last_of decoder.old) xs p result) }
{
    let Some(size) = len else {
        return append_string(alloc, decoder, scratch, is_text, len, failure);
    };
    match copy_held(alloc, decoder, is_text, size, failure)? {
        Some(value) => Ok(Part::Whole(value)),
        None => append_string(alloc, decoder, scratch, is_text, len, failure),
    }
}

// The same, piece by piece.
fn append_string<R, A: Access<R>>(
    alloc: Global,
    decoder: &mut Decoder<'_, R, A>,
    scratch: &mut [u8],
    is_text: bool,
    len: Option<usize>,
    failure: &mut Option<io::Error>,
) -> Result<Part, BareReadError>
    requires { pushed_of decoder.old ≡ None }
    ensures same_reader { HasSameReader decoder.old decoder.new }
    ensures pushed { pushed_of decoder.new ≡ None }
    ensures fewer { OnOk result (heads_left decoder.new ≤ heads_left decoder.old) }
    ensures whole { IfOk result IsWhole }
    ensures ended { IfErr result
        (λ e. HasEndedAfter A.can_fail A.remaining decoder.new e) }
    ensures content { TakesBeforeAny A.remaining decoder.old decoder.new
        (λ d e. (xs : List ℕ) (p : ℕ) → IsAt Some d xs p →
        IsStringPart (string_type is_text) Some e len (last_of decoder.old) xs p result) }
{
    if is_text {
        let mut text = String::new(alloc);
        decoder.text_into_keeping(len, scratch, &mut text, failure)?;
        return Ok(Part::Whole(Value::Text(text)));
    }
    let mut bytes = Vec::new(alloc);
    decoder.bytes_into_keeping(len, scratch, &mut bytes, failure)?;
    Ok(Part::Whole(Value::Bytes(bytes)))
}

/// Reads the next part, with this many levels left.
#[inline(always)]
pub(crate) fn next<S: Rules, R, A: Access<R>>(
    alloc: Global,
    decoder: &mut Decoder<'_, R, A>,
    scratch: &mut [u8],
    levels: usize,
    failure: &mut Option<io::Error>,
) -> Result<Part, BareReadError>
    ensures same_reader { HasSameReader decoder.old decoder.new }
    ensures fewer { OnOk result (heads_left decoder.new < heads_left decoder.old) }
    ensures rests { IfOk result (λ part. IsAtRest part levels (pushed_of decoder.new)) }
    ensures ended { IfErr result
        (λ e. HasEndedAfter A.can_fail A.remaining decoder.new e) }
    ensures part { TakesBeforeAny A.remaining decoder.old decoder.new
        (λ d e. (xs : List ℕ) (p : ℕ) → StandsAt S.spelling Some d xs p →
        IsPartRead S.spelling Some e levels xs p result) }
{
    let header = pull(decoder, failure)?;
    if let Some(kind) = S::find_head_fault(header, decoder.head_len()) {
        return Err(Error::Semantic(Some(decoder.last_offset()), kind));
    }
    match header {
        Header::Positive(n) => Ok(Part::Whole(Value::Integer(Integer::from(n)))),
        Header::Negative(n) => Ok(Part::Whole(Value::Integer(Integer::from_head(true, n)))),
        Header::Bytes(len) => read_string(alloc, decoder, scratch, false, len, failure),
        Header::Text(len) => read_string(alloc, decoder, scratch, true, len, failure),
        Header::Array(count) => begin_container(alloc, false, count, levels),
        Header::Map(count) => begin_container(alloc, true, count, levels),
        Header::Tag(tag) => {
            let offset = decoder.last_offset();
            read_tag::<S, R, A>(alloc, decoder, tag, offset, levels, failure)
        }
        Header::Simple(n) => read_simple(n, decoder.last_offset()),
        Header::Float(_) => Err(Error::Semantic(Some(decoder.last_offset()), Kind::Float)),
        Header::Break => Ok(Part::Ended),
    }
}
