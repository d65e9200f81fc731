//! What stands at the front, and its head.

ghost use Rattle.std.specs.Prelude.{◌≡◌, ◌+◌, ◌<◌, IfErr, List, None, OnOk, Some, ℕ};
ghost use Rattle.ciborium_ll.specs.Decoding.{HasSameReader, IsAhead, TakesBeforeAny, count_of};
ghost use Rattle.ciborium_ll.specs.Decoding.{head_len_of, offset_of, pushed_of, IsMeasured};
ghost use Rattle.ciborium.specs.inner.ValuesInBytes.{HasEndedAfter};
ghost use Rattle.ciborium.specs.inner.Parts.{IsHeadRead};
ghost use Rattle.ciborium.specs.inner.ValuesInBytes.{heads_left};

use crate::de::error::Error;
use ciborium_ll::{Access, Decoder, Header, Keep};
use ciborium_value::Value;
use ciborium_value::stack::NewFrame;

/// A part of what is read.
#[derive(Drop)]
pub(crate) enum Part {
    /// A value that is whole.
    Whole(Value),
    /// The beginning of an array, a map or a tag.
    Begun(NewFrame),
    /// A break.
    Ended,
}

/// The next head; a reader's error goes to `keep`.
#[inline(always)]
pub(crate) fn pull<R, A: Access<R>, K: Keep>(
    decoder: &mut Decoder<'_, R, A>,
    keep: &mut K,
) -> Result<Header, Error<K::Kept>>
    ensures same_reader { HasSameReader decoder.old decoder.new }
    ensures pushed { pushed_of decoder.new ≡ None }
    ensures fewer { OnOk result (heads_left decoder.new < heads_left decoder.old) }
    ensures ended { IfErr result
        (λ e. HasEndedAfter A.can_fail A.remaining decoder.new e) }
    ensures measured { OnOk result (IsMeasured decoder.old →
        count_of decoder.new ≡ offset_of decoder.old + head_len_of decoder.new) }
    ensures head { TakesBeforeAny A.remaining decoder.old decoder.new
        (λ d e. (xs : List ℕ) (p : ℕ) → IsAhead Some d xs p → IsHeadRead Some e xs p result) }
{
    Ok(decoder.pull_keeping(keep)?)
}
