//! Bytes, of a byte string or of an array of numbers.

ghost use Rattle.std.specs.Prelude.{◌≡◌, ◌+◌, ◌≤◌, IfErr, IfOk, List, OnErr, OnOk, Option};
ghost use Rattle.std.specs.Prelude.{Some, ℕ};
ghost use Rattle.ciborium_value.specs.Nesting.{Limit};
ghost use Rattle.ciborium_value.specs.Places.{an_array};
ghost use Rattle.ciborium_value.specs.Sources.{HasItem, IsFaultOf};
ghost use Rattle.ciborium_value.specs.Sources.{TakesOnly, TakesTo};
ghost use Rattle.ciborium_value.specs.Given.{gives, number_below, outcome, take_each};
ghost use Rattle.ciborium_value.specs.Given.{given_byte};
ghost use Rattle.ciborium.specs.inner.ByteSources.{HasTakenSince, IsUnread, ReadsRest, RefusesRest};
ghost use Rattle.ciborium.specs.inner.ByteSources.{SeqOwes, seq_left, weight_left};
ghost use Rattle.ciborium.specs.Errors.{fault_of};
ghost use Rattle.ciborium.specs.inner.ByteSources.{fault_at};

use crate::de::byte_source::{ByteSeq, ByteSource};
use crate::de::error::{BareReadError, Error};
use ciborium_ll::Access;
use ciborium_value::{Kind, Source};
use std::alloc::Global;

// The byte that a number at this offset is.
#[inline(always)]
fn to_byte(number: (bool, u128), offset: usize) -> Result<u8, BareReadError>
    ensures ok { IfOk result
        (λ byte. (l : Limit) → outcome l (number_below 256 number) ≡ gives byte) }
    ensures refused { IfErr result
        (λ e. (left : Option (List ℕ)) (end : ℕ) (l : Limit) →
        IsFaultOf end (fault_of left e) (outcome l (number_below 256 number))) }
    ensures at { IfErr result (λ e. e ≡ Error.Semantic (Some offset) Kind.Range) }
{
    let (is_negative, n) = number;
    if is_negative {
        return Err(Error::Semantic(Some(offset), Kind::Range));
    }
    if n > 255 {
        return Err(Error::Semantic(Some(offset), Kind::Range));
    }
    Ok(n as u8)
}

impl<'a, R, A: Access<R>> ByteSource<'a, R, A> {
    /// The items that are left of a sequence, each a number that is a byte.
    #[inline(never)]
    pub(crate) fn read_byte_items(
        &mut self,
        alloc: Global,
        seq: &mut ByteSeq,
    ) -> Result<Vec<u8>, BareReadError>
        ensures only { TakesOnly (HasTakenSince A.remaining) self.old self.new }
        ensures no_more { OnErr result
            (weight_left self.new ≤ weight_left self.old + seq_left seq.old) }
        ensures ok { IfOk result (λ v. ReadsRest A.remaining self.old self.new seq.old
            (take_each given_byte) v.items) }
        ensures refused { IfErr result (λ e. RefusesRest A.remaining self.old seq.old
            (take_each given_byte) (fault_at A.can_fail A.remaining self.new e)) }
        ensures took { OnOk result (TakesTo (IsUnread A.remaining) self.old self.new
            (λ c z. (b : List ℕ) → SeqOwes seq.old an_array b c → HasItem b z)) }
        ensures fewer { OnOk result
            (weight_left self.new ≤ weight_left self.old + seq_left seq.old) }
    {
        let mut bytes = Vec::new(alloc);
        'items: loop {
            let goes_on = self.next(seq)?;
            if !goes_on {
                return Ok(bytes);
            }
            let (number, offset) = self.read_integer()?;
            let byte = to_byte(number, offset)?;
            match bytes.push(byte) {
                Ok(()) => {}
                Err(_) => return Err(Error::Memory),
            }
        }
    }
}
