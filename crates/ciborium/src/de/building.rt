//! The reader of values: one loop over a stack of what is unfinished.

ghost use Rattle.std.specs.Prelude.{◌≡◌, ◌<◌, ◌≤◌, IfErr, IfOk, List, MatchOption, None};
ghost use Rattle.std.specs.Prelude.{Ok, OnOk, Some, length, ℕ};
ghost use Rattle.ciborium_ll.specs.Decoding.{HasSameReader, TakesBeforeAny, pushed_of};
ghost use Rattle.ciborium_value.specs.inner.Stack.{frames_of};
ghost use Rattle.ciborium_value.specs.View.{tree_of};
ghost use Rattle.ciborium.specs.inner.Turns.{IsPlacedInOrder, IsReading, IsTurned, IsValueRead};
ghost use Rattle.ciborium.specs.inner.ValuesInBytes.{HasEndedAfter, StandsAt, heads_left};

use crate::de::error::{BareReadError, Error};
use crate::de::front::Part;
use crate::de::parts::next;
use crate::de::spelling::Rules;
use ciborium_ll::{Access, Decoder};
use ciborium_value::stack::Stack;
use ciborium_value::{Kind, Value};
use std::alloc::{AllocError, Global};
use std::io;

// Places a value whose last byte stands before offset `end`, and refuses a key out of order.
#[inline(always)]
fn place<S: Rules>(
    stack: &mut Stack,
    value: Value,
    end: usize,
) -> Result<Option<Value>, BareReadError>
    ensures { IsPlacedInOrder S.spelling (frames_of stack.old) (tree_of value) end
        (frames_of stack.new) result }
{
    match stack.place(value) {
        Ok(None) => match S::find_disorder(stack, end) {
            Some(offset) => Err(Error::Semantic(Some(offset), Kind::KeyOrder)),
            None => Ok(None),
        },
        Ok(whole) => Ok(whole),
        Err(AllocError) => Err(Error::Memory),
    }
}

// Reads one part, and answers the value where it is the last.
#[inline(always)]
fn turn<S: Rules, R, A: Access<R>>(
    alloc: Global,
    decoder: &mut Decoder<'_, R, A>,
    scratch: &mut [u8],
    stack: &mut Stack,
    levels: usize,
    failure: &mut Option<io::Error>,
) -> Result<Option<Value>, BareReadError>
    requires { length (frames_of stack.old) ≤ levels }
    ensures same_reader { HasSameReader decoder.old decoder.new }
    ensures fewer { OnOk result (heads_left decoder.new < heads_left decoder.old) }
    ensures rests { IfOk result (λ o.
        MatchOption o (Unit {0}) (λ _. pushed_of decoder.new ≡ None)) }
    ensures ended { IfErr result
        (λ e. HasEndedAfter A.can_fail A.remaining decoder.new e) }
    ensures depth { IfOk result (λ o.
        MatchOption o (length (frames_of stack.new) ≤ levels) (λ _. Unit {0})) }
    ensures turn { TakesBeforeAny A.remaining decoder.old decoder.new
        (λ d e. (xs : List ℕ) (p : ℕ) →
        IsReading S.spelling Some d (frames_of stack.old) levels xs p →
        IsTurned S.spelling Some e (frames_of stack.new) levels xs p result) }
{
    match next::<S, R, A>(alloc, decoder, scratch, levels - stack.depth(), failure)? {
        Part::Whole(value) => place::<S>(stack, value, decoder.offset()),
        Part::Begun(frame) => match stack.begin_frame(frame) {
            Ok(()) => Ok(None),
            Err(_) => Err(Error::Memory),
        },
        Part::Ended => match stack.close() {
            Some(value) => place::<S>(stack, value, decoder.offset()),
            None => {
                let offset = decoder.offset().saturating_sub(1);
                Err(Error::Semantic(Some(offset), Kind::Break))
            }
        },
    }
}

/// Reads the value ahead in this spelling, within this many levels, part after part. The reader's
/// error is kept aside. Behind a refusal no head is pushed back.
pub(crate) fn read_value<S: Rules, R, A: Access<R>>(
    alloc: Global,
    decoder: &mut Decoder<'_, R, A>,
    scratch: &mut [u8],
    levels: usize,
    failure: &mut Option<io::Error>,
) -> Result<Value, BareReadError>
    ensures same_reader { HasSameReader decoder.old decoder.new }
    ensures rests { pushed_of decoder.new ≡ None }
    ensures fewer { OnOk result (heads_left decoder.new < heads_left decoder.old) }
    ensures ended { IfErr result
        (λ e. HasEndedAfter A.can_fail A.remaining decoder.new e) }
    ensures value { TakesBeforeAny A.remaining decoder.old decoder.new
        (λ d e. (xs : List ℕ) (p : ℕ) → StandsAt S.spelling Some d xs p →
        IsValueRead S.spelling Some e levels xs p result) }
{
    let mut stack = Stack::new(alloc);
    'turns: loop {
        match turn::<S, R, A>(alloc, decoder, scratch, &mut stack, levels, failure) {
            Ok(None) => {}
            Ok(Some(value)) => return Ok(value),
            Err(refusal) => {
                decoder.forget();
                return Err(refusal);
            }
        }
    }
}
