//! Containers: how they are entered.

ghost use Rattle.std.specs.Prelude.{◌≡◌, ◌≢◌, ◌+◌, ◌-◌, ◌≤◌, IfErr, IfOk};
ghost use Rattle.std.specs.Prelude.{None, OnErr, OnOk, Some};
ghost use Rattle.ciborium_ll.specs.declared.strings.StringType.{StringType};
ghost use Rattle.ciborium.specs.inner.ByteSources.{KeepsSource, HasBytes};
ghost use Rattle.ciborium.specs.inner.ByteSources.{IsUnread};
ghost use Rattle.ciborium.specs.inner.ByteSources.{bytes_weight, end_at};
ghost use Rattle.ciborium.specs.inner.ByteSources.{parts_left, seq_left};
ghost use Rattle.ciborium.specs.inner.ByteSources.{fault_at};
ghost use Rattle.ciborium.specs.inner.StringContents.{DeniesContent, TakesContent};

use crate::de::byte_source::{ByteSeq, ByteSource, Left};
use crate::de::error::{BareReadError, Error};
use ciborium_ll::Access;
use ciborium_value::Kind;
use std::alloc::Global;

impl<'a, R, A: Access<R>> ByteSource<'a, R, A> {
    /// Takes a level for the container at this offset with this many parts (`None`: indefinite).
    #[inline(always)]
    pub(crate) fn enter(
        &mut self,
        count: Option<usize>,
        offset: usize,
    ) -> Result<ByteSeq, BareReadError>
        ensures decoder { self.new.decoder ≡ self.old.decoder }
        ensures pending { self.new.pending ≡ self.old.pending }
        ensures some { OnOk result (self.old.levels ≢ 0) }
        ensures levels { OnOk result (self.new.levels ≡ self.old.levels - 1) }
        ensures left { IfOk result (λ q. q.left ≡ parts_left count) }
        ensures back { IfOk result (λ q. q.levels ≡ self.old.levels) }
        ensures none { OnErr result (self.old.levels ≡ 0) }
        ensures err { IfErr result (λ e. e ≡ Error.RecursionLimitExceeded) }
    {
        let levels = self.levels;
        if levels == 0 {
            return Err(Error::RecursionLimitExceeded);
        }
        self.levels = levels - 1;
        match count {
            Some(n) => Ok(ByteSeq {
                left: Left::Counted(n),
                levels,
                offset,
            }),
            None => Ok(ByteSeq {
                left: Left::Open,
                levels,
                offset,
            }),
        }
    }

    /// Enters the byte string at this offset whose head was taken last. Apart from `begin_seq`, so
    /// that the room for its bytes is made ready only here.
    #[inline(always)]
    pub(crate) fn enter_bytes(
        &mut self,
        alloc: Global,
        len: Option<usize>,
        offset: usize,
    ) -> Result<ByteSeq, BareReadError>
        requires { self.old.pending ≡ None }
        ensures keeps { KeepsSource A.remaining self.old self.new }
        ensures back { IfOk result (λ q. q.levels ≡ self.old.levels) }
        ensures fewer { IfOk result
            (λ q. bytes_weight self.new + seq_left q ≤ bytes_weight self.old) }
        ensures ok { IfOk result (λ q. HasBytes q.left (TakesContent (IsUnread A.remaining self.old)
            (IsUnread A.remaining self.new) StringType.Bytes len)) }
        ensures denied { IfErr result
            (λ e. DeniesContent (IsUnread A.remaining self.old) (end_at A.remaining self.old)
            StringType.Bytes len (fault_at A.can_fail A.remaining self.new e)) }
    {
        let levels = self.levels;
        let bytes = self.bytes_content(alloc, len)?;
        Ok(ByteSeq {
            left: Left::Bytes(bytes.into_iter()),
            levels,
            offset,
        })
    }
}
