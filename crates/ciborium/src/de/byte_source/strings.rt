//! Strings.

ghost use Rattle.std.specs.Prelude.{◌≡◌, ◌+◌, ◌≤◌, IfErr, IfNone, IfOk, IfSome, List, None};
ghost use Rattle.std.specs.Prelude.{OnOk, Some, false, length, string_bytes, ℕ};
ghost use Rattle.ciborium_ll.specs.declared.strings.StringType.{StringType};
ghost use Rattle.ciborium_value.specs.Sources.{IsGrantedFault};
ghost use Rattle.ciborium.specs.inner.ByteSources.{KeepsSource, IsUnread, bytes_weight, end_at};
ghost use Rattle.ciborium.specs.inner.ByteSources.{fault_at};
ghost use Rattle.ciborium.specs.inner.StringContents.{DeniesContent, DeniesJust, TakesContent};
ghost use Rattle.ciborium.specs.inner.StringContents.{TakesJust};

use crate::de::byte_source::ByteSource;
use crate::de::error::BareReadError;
use ciborium_ll::{Access, Visitor};
use ciborium_value::Kind;
use std::alloc::Global;

impl<'a, R, A: Access<R>> ByteSource<'a, R, A> {
    /// Fills the buffer with the next bytes.
    pub(crate) fn fill(&mut self, buffer: &mut [u8]) -> Result<(), BareReadError>
        requires { self.old.pending ≡ None }
        ensures keeps { KeepsSource A.remaining self.old self.new }
        ensures ok { OnOk result
            (TakesJust (IsUnread A.remaining self.old) (IsUnread A.remaining self.new) buffer.new) }
        ensures outside { IfErr result
            (λ e. DeniesJust (IsUnread A.remaining self.old) (end_at A.remaining self.old) (length
            buffer.old) (fault_at A.can_fail A.remaining self.new e)) }
        ensures memory { IfErr result
            (λ e. IsGrantedFault (fault_at A.can_fail A.remaining self.new e) false) }
    {
        self.decoder.read_exact_keeping(buffer, &mut self.failure)?;
        Ok(())
    }

    /// What the visitor makes of the next n bytes, where they are held; `None` takes nothing.
    #[inline(always)]
    pub(crate) fn visit<V: Visitor>(
        &mut self,
        n: usize,
        visitor: &V,
    ) -> Result<Option<V::Value>, BareReadError>
        requires { self.old.pending ≡ None }
        ensures keeps { KeepsSource A.remaining self.old self.new }
        ensures none { IfOk result (λ o. IfNone o ((y : List ℕ) → IsUnread A.remaining self.old y →
            IsUnread A.remaining self.new y)) }
        ensures some { IfOk result (λ o. IfSome o (λ v. (b : List ℕ) × (length b ≡ n) ×
            V.makes visitor.now b v ×
            TakesJust (IsUnread A.remaining self.old) (IsUnread A.remaining self.new) b)) }
        ensures outside { IfErr result
            (λ e. DeniesJust (IsUnread A.remaining self.old) (end_at A.remaining self.old) n
            (fault_at A.can_fail A.remaining self.new e)) }
        ensures memory { IfErr result
            (λ e. IsGrantedFault (fault_at A.can_fail A.remaining self.new e) false) }
    {
        match self.decoder.visit_keeping(n, visitor, &mut self.failure) {
            Some(visited) => {
                let value = visited?;
                Ok(Some(value))
            }
            None => Ok(None),
        }
    }

    /// The payload of the byte string whose head was taken last.
    #[inline(always)]
    pub(crate) fn bytes_content(
        &mut self,
        alloc: Global,
        len: Option<usize>,
    ) -> Result<Vec<u8>, BareReadError>
        requires { self.old.pending ≡ None }
        ensures keeps { KeepsSource A.remaining self.old self.new }
        ensures fewer { IfOk result
            (λ v. bytes_weight self.new + length v.items ≤ bytes_weight self.old) }
        ensures ok { IfOk result (λ v. TakesContent (IsUnread A.remaining self.old)
            (IsUnread A.remaining self.new) StringType.Bytes len v.items) }
        ensures denied { IfErr result
            (λ e. DeniesContent (IsUnread A.remaining self.old) (end_at A.remaining self.old)
            StringType.Bytes len (fault_at A.can_fail A.remaining self.new e)) }
    {
        let mut out = Vec::new(alloc);
        self.decoder
            .bytes_into_keeping(len, self.scratch, &mut out, &mut self.failure)?;
        Ok(out)
    }

    /// The payload of the text whose head was taken last.
    #[inline(always)]
    pub(crate) fn text_content(
        &mut self,
        alloc: Global,
        len: Option<usize>,
    ) -> Result<String, BareReadError>
        requires { self.old.pending ≡ None }
        ensures keeps { KeepsSource A.remaining self.old self.new }
        ensures ok { IfOk result (λ v. TakesContent (IsUnread A.remaining self.old)
            (IsUnread A.remaining self.new) StringType.Text len (string_bytes v)) }
        ensures denied { IfErr result
            (λ e. DeniesContent (IsUnread A.remaining self.old) (end_at A.remaining self.old)
            StringType.Text len (fault_at A.can_fail A.remaining self.new e)) }
    {
        let mut out = String::new(alloc);
        self.decoder
            .text_into_keeping(len, self.scratch, &mut out, &mut self.failure)?;
        Ok(out)
    }
}
