//! The level that a tag or a variant takes.

ghost use Rattle.std.specs.Prelude.{◌≡◌, ◌≢◌, IfErr, IfOk, MatchBool, OnErr, Some};
ghost use Rattle.ciborium.specs.inner.ByteSources.{TakesLevel};

use crate::de::byte_source::{ByteLevel, ByteSource};
use crate::de::error::{BareReadError, Error};
use ciborium_ll::Access;

/// Whether a map has one pair.
pub(crate) fn is_one(count: Option<usize>) -> bool
    ensures { MatchBool result (count ≡ Some 1) (count ≢ Some 1) }
{
    match count {
        Some(n) => n == 1,
        None => false,
    }
}

impl<'a, R, A: Access<R>> ByteSource<'a, R, A> {
    /// Takes the level of a tag or a variant.
    #[inline(always)]
    pub(crate) fn take_level(&mut self) -> Result<ByteLevel, BareReadError>
        ensures decoder { self.new.decoder ≡ self.old.decoder }
        ensures pending { self.new.pending ≡ self.old.pending }
        ensures some { IfOk result (λ level. TakesLevel self.old self.new level) }
        ensures none { OnErr result (self.old.levels ≡ 0) }
        ensures err { IfErr result (λ e. e ≡ Error.RecursionLimitExceeded) }
    {
        let levels = self.levels;
        if levels == 0 {
            return Err(Error::RecursionLimitExceeded);
        }
        self.levels = levels - 1;
        Ok(ByteLevel { levels })
    }
}
