//! Tags: those that fold, and those that are entered.

ghost use Rattle.std.specs.Prelude.{◌≡◌, ◌≤◌, IfErr, IfOk, List, None, OnOk, Some, length, true, ℕ};
ghost use Rattle.ciborium_ll.specs.Decoding.{HasSameReader, TakesBeforeAny, pushed_of};
ghost use Rattle.ciborium_ll.specs.declared.header.Header.TheVariants as header;
ghost use Rattle.ciborium_value.specs.Meaning.{is_bignum_tag};
ghost use Rattle.ciborium.specs.inner.ValuesInBytes.{HasEndedAfter};
ghost use Rattle.ciborium.specs.inner.Parts.{IsAtRest, IsBignumRead, IsFolded, IsFolding};
ghost use Rattle.ciborium.specs.inner.Parts.{IsHeadAccepted, IsPartRead};
ghost use Rattle.ciborium.specs.inner.ValuesInBytes.{IsAt, heads_left};

use crate::de::error::{BareReadError, Error};
use crate::de::front::{Part, pull};
use crate::de::spelling::Rules;
use ciborium_ll::tag::is_bignum;
use ciborium_ll::{Access, Decoder, Header};
use ciborium_value::bignum::{self, GREATEST_FOLDED_SIZE};
use ciborium_value::stack::NewFrame;
use ciborium_value::{Kind, Value, error};
use std::alloc::Global;
use std::io;

// The length of the byte string over which the tag folds (RFC 8949, section 3.4.3).
pub(crate) fn find_folding(tag: u64, header: Header) -> Option<usize>
    ensures { IsFolding tag header result }
{
    match header {
        Header::Bytes(Some(n)) => {
            if n <= GREATEST_FOLDED_SIZE && is_bignum(tag) {
                Some(n)
            } else {
                None
            }
        }
        _ => None,
    }
}

// What a tag at this offset means that folds over these bytes.
fn fold<E>(alloc: Global, tag: u64, payload: &[u8], offset: usize) -> Result<Value, Error<E>>
    requires tag { is_bignum_tag tag ≡ true }
    requires short { length payload.now ≤ 16 }
    ensures { IsFolded tag payload.now offset result }
{
    match bignum::fold(alloc, tag, payload) {
        Ok(value) => Ok(value),
        Err(error::Error::Custom(kind)) => Err(Error::Semantic(Some(offset), kind)),
        Err(error::Error::Memory) => Err(Error::Memory),
    }
}

// Reads the n bytes over which a tag at this offset folds, and folds it.
fn read_bignum<S: Rules, R, A: Access<R>>(
    alloc: Global,
    decoder: &mut Decoder<'_, R, A>,
    tag: u64,
    n: usize,
    offset: usize,
    failure: &mut Option<io::Error>,
) -> Result<Value, BareReadError>
    requires tag { is_bignum_tag tag ≡ true }
    requires short { n ≤ 16 }
    requires pushed { pushed_of decoder.old ≡ None }
    ensures same_reader { HasSameReader decoder.old decoder.new }
    ensures pushed { pushed_of decoder.new ≡ None }
    ensures fewer { OnOk result (heads_left decoder.new ≤ heads_left decoder.old) }
    ensures ended { IfErr result
        (λ e. HasEndedAfter A.can_fail A.remaining decoder.new e) }
    ensures bignum { TakesBeforeAny A.remaining decoder.old decoder.new
        (λ d e. (xs : List ℕ) (p : ℕ) → IsAt Some d xs p →
        IsBignumRead S.spelling Some e tag n offset xs p result) }
{
    let mut buffer = [0u8; GREATEST_FOLDED_SIZE];
    let payload = &mut buffer[..n];
    decoder.read_exact_keeping(payload, failure)?;
    if S::refuses_bignum(payload) {
        return Err(Error::Semantic(Some(offset), Kind::NotFolded));
    }
    fold(alloc, tag, payload, offset)
}

/// Reads what follows the head of a tag, which was pulled: the string that it folds over, or the
/// next head, which is pushed back.
pub(crate) fn read_tag<S: Rules, R, A: Access<R>>(
    alloc: Global,
    decoder: &mut Decoder<'_, R, A>,
    tag: u64,
    offset: usize,
    levels: usize,
    failure: &mut Option<io::Error>,
) -> Result<Part, BareReadError>
    requires { pushed_of decoder.old ≡ None }
    ensures same_reader { HasSameReader decoder.old decoder.new }
    ensures fewer { OnOk result (heads_left decoder.new ≤ heads_left decoder.old) }
    ensures rests { IfOk result (λ part. IsAtRest part levels (pushed_of decoder.new)) }
    ensures ended { IfErr result
        (λ e. HasEndedAfter A.can_fail A.remaining decoder.new e) }
    ensures part { TakesBeforeAny A.remaining decoder.old decoder.new
        (λ d e. (xs : List ℕ) (p : ℕ) →
        IsHeadAccepted S.spelling Some d (header.Tag tag) xs p → offset ≡ p →
        IsPartRead S.spelling Some e levels xs p result) }
{
    let at = decoder.offset();
    let next = pull(decoder, failure)?;
    if let Some(n) = find_folding(tag, next) {
        if let Some(kind) = S::find_head_fault(next, decoder.head_len()) {
            return Err(Error::Semantic(Some(at), kind));
        }
        let value = read_bignum::<S, R, A>(alloc, decoder, tag, n, offset, failure)?;
        return Ok(Part::Whole(value));
    }
    if levels == 0 {
        return Err(Error::RecursionLimitExceeded);
    }
    decoder.push(next, at);
    Ok(Part::Begun(NewFrame::Tag(tag)))
}
