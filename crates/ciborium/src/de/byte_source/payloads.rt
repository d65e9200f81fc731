//! Payloads that are passed over.

ghost use Rattle.std.specs.Prelude.{◌≡◌, ◌+◌, ◌<◌, ◌≤◌, ◌++◌, IfErr, IfNone, IfSome, IsUtf8};
ghost use Rattle.std.specs.Prelude.{List, MatchBool, None, OnOk, Some, drop, false, length};
ghost use Rattle.std.specs.Prelude.{take, ℕ};
ghost use Rattle.ciborium_ll.specs.Bytes.{AreBytes};
ghost use Rattle.ciborium_ll.specs.declared.header.Header.TheVariants as heads;
ghost use Rattle.ciborium_value.specs.Sources.{IsGrantedFault};
ghost use Rattle.ciborium.specs.inner.ByteSources.{KeepsSource, IsUnread, end_at};
ghost use Rattle.ciborium.specs.inner.ByteSources.{fault_at};
ghost use Rattle.ciborium.specs.inner.PassedOver.{DeniesPayload, TakesPayload};

use crate::de::byte_source::ByteSource;
use crate::de::error::{BareReadError, Error};
use ciborium_ll::{Access, Header, Visitor};
use std::str;

// How many bytes of a payload are taken at once.
const BUFFER_SIZE: usize = 64;

// How many bytes at the front are whole characters, or none where no text begins with these.
#[inline(always)]
fn whole_len(bytes: &[u8]) -> Option<usize>
    ensures within { IfSome result
        (λ whole. (whole ≤ length bytes.now) × (length bytes.now < whole + 4)) }
    ensures whole { IfSome result (λ whole. IsUtf8 (take whole bytes.now)) }
    ensures cut { IfSome result
        (λ whole. IsUtf8 (drop whole bytes.now) → whole ≡ length bytes.now) }
    ensures none { IfNone result ((t : List ℕ) → ¬ (IsUtf8 (bytes.now ++ t))) }
{
    match str::from_utf8(bytes) {
        Ok(text) => Some(text.len()),
        Err(e) => match e.error_len() {
            Some(_) => None,
            None => Some(e.valid_up_to()),
        },
    }
}

// Moves a character that the end cuts to the front. Its length so far, or none as for `whole_len`.
#[inline(always)]
fn keep_cut(bytes: &mut [u8]) -> Option<usize>
    ensures short { IfSome result (λ kept. (kept ≤ length bytes.old) × (kept < 4)) }
    ensures kept { IfSome result (λ kept. (v : List ℕ) × IsUtf8 v ×
        (bytes.old ≡ v ++ take kept bytes.new)) }
    ensures cut { IfSome result (λ kept. IsUtf8 (take kept bytes.new) → kept ≡ 0) }
    ensures none { IfNone result ((t : List ℕ) → ¬ (IsUtf8 (bytes.old ++ t))) }
{
    let whole = whole_len(bytes)?;
    let kept = bytes.len() - whole;
    if kept > 0 {
        bytes.copy_within(whole.., 0);
    }
    Some(kept)
}

// Bytes, of which nothing is made.
#[derive(Clone, Copy, Drop)]
struct AnyBytes;

impl Visitor for AnyBytes {
    type Value = ();

    ghost makes = { λ self bytes none. AreBytes bytes };

    #[inline(always)]
    fn visit(&self, _bytes: &[u8]) {}
}

// Whether bytes are a text.
#[derive(Clone, Copy, Drop)]
struct TextTest;

impl Visitor for TextTest {
    type Value = bool;

    ghost makes = { λ self bytes is_text. MatchBool is_text (IsUtf8 bytes) (¬ IsUtf8 bytes) };

    #[inline(always)]
    fn visit(&self, bytes: &[u8]) -> bool {
        str::from_utf8(bytes).is_ok()
    }
}

impl<'a, R, A: Access<R>> ByteSource<'a, R, A> {
    // Passes over the payload of a byte string, of `len` bytes, piece by piece.
    fn skip_pieces(&mut self, len: usize) -> Result<(), BareReadError>
        requires { self.old.pending ≡ None }
        ensures keeps { KeepsSource A.remaining self.old self.new }
        ensures ok { OnOk result (TakesPayload (IsUnread A.remaining self.old)
            (IsUnread A.remaining self.new) (heads.Bytes (Some len))) }
        ensures denied { IfErr result
            (λ e. DeniesPayload (IsUnread A.remaining self.old) (end_at A.remaining self.old)
            (heads.Bytes (Some len)) (fault_at A.can_fail A.remaining self.new e)) }
        ensures memory { IfErr result
            (λ e. IsGrantedFault (fault_at A.can_fail A.remaining self.new e) false) }
    {
        let mut buffer = [0u8; BUFFER_SIZE];
        let mut left = len;
        while left > 0 {
            let size = left.min(BUFFER_SIZE);
            self.fill(&mut buffer[..size])?;
            left -= size;
        }
        Ok(())
    }

    // Passes over the payload of a text, of `len` bytes, whose head stands at this offset, piece by
    // piece. The beginning of a character that a piece cuts stays at the front of the buffer. What
    // is no text is taken whole too before it is refused, as where a text is read.
    fn skip_text_pieces(&mut self, len: usize, offset: usize) -> Result<(), BareReadError>
        requires { self.old.pending ≡ None }
        ensures keeps { KeepsSource A.remaining self.old self.new }
        ensures ok { OnOk result (TakesPayload (IsUnread A.remaining self.old)
            (IsUnread A.remaining self.new) (heads.Text (Some len))) }
        ensures denied { IfErr result
            (λ e. DeniesPayload (IsUnread A.remaining self.old) (end_at A.remaining self.old)
            (heads.Text (Some len)) (fault_at A.can_fail A.remaining self.new e)) }
        ensures memory { IfErr result
            (λ e. IsGrantedFault (fault_at A.can_fail A.remaining self.new e) false) }
    {
        let mut buffer = [0u8; BUFFER_SIZE];
        // How much of a character that the last piece cut is kept, at the front of the buffer.
        let mut kept = 0;
        let mut left = len;
        while left > 0 {
            let size = left.min(BUFFER_SIZE - kept);
            let bytes = &mut buffer[..kept + size];
            self.fill(&mut bytes[kept..])?;
            left -= size;
            match keep_cut(bytes) {
                Some(n) => kept = n,
                None => {
                    self.skip_pieces(left)?;
                    return Err(Error::Syntax(offset));
                }
            }
        }
        if kept > 0 {
            return Err(Error::Syntax(offset));
        }
        Ok(())
    }

    // Passes over the payload of a byte string, of `len` bytes.
    #[inline(always)]
    fn skip_bytes(&mut self, len: usize) -> Result<(), BareReadError>
        requires { self.old.pending ≡ None }
        ensures keeps { KeepsSource A.remaining self.old self.new }
        ensures ok { OnOk result (TakesPayload (IsUnread A.remaining self.old)
            (IsUnread A.remaining self.new) (heads.Bytes (Some len))) }
        ensures denied { IfErr result
            (λ e. DeniesPayload (IsUnread A.remaining self.old) (end_at A.remaining self.old)
            (heads.Bytes (Some len)) (fault_at A.can_fail A.remaining self.new e)) }
        ensures memory { IfErr result
            (λ e. IsGrantedFault (fault_at A.can_fail A.remaining self.new e) false) }
    {
        match self.visit(len, &AnyBytes)? {
            Some(()) => Ok(()),
            None => self.skip_pieces(len),
        }
    }

    // Passes over the payload of a text, of `len` bytes, whose head stands at this offset.
    #[inline(always)]
    fn skip_text(&mut self, len: usize, offset: usize) -> Result<(), BareReadError>
        requires { self.old.pending ≡ None }
        ensures keeps { KeepsSource A.remaining self.old self.new }
        ensures ok { OnOk result (TakesPayload (IsUnread A.remaining self.old)
            (IsUnread A.remaining self.new) (heads.Text (Some len))) }
        ensures denied { IfErr result
            (λ e. DeniesPayload (IsUnread A.remaining self.old) (end_at A.remaining self.old)
            (heads.Text (Some len)) (fault_at A.can_fail A.remaining self.new e)) }
        ensures memory { IfErr result
            (λ e. IsGrantedFault (fault_at A.can_fail A.remaining self.new e) false) }
    {
        match self.visit(len, &TextTest)? {
            Some(true) => Ok(()),
            Some(false) => Err(Error::Syntax(offset)),
            None => self.skip_text_pieces(len, offset),
        }
    }

    /// Passes over the payload behind this head, which was taken last and stands at this offset:
    /// that of a definite string. Any other head has none. Nothing is allocated.
    #[inline(always)]
    pub(crate) fn skip_payload(
        &mut self,
        header: Header,
        offset: usize,
    ) -> Result<(), BareReadError>
        requires { self.old.pending ≡ None }
        ensures keeps { KeepsSource A.remaining self.old self.new }
        ensures ok { OnOk result (TakesPayload (IsUnread A.remaining self.old)
            (IsUnread A.remaining self.new) header) }
        ensures denied { IfErr result
            (λ e. DeniesPayload (IsUnread A.remaining self.old) (end_at A.remaining self.old) header
            (fault_at A.can_fail A.remaining self.new e)) }
        ensures memory { IfErr result
            (λ e. IsGrantedFault (fault_at A.can_fail A.remaining self.new e) false) }
    {
        match header {
            Header::Bytes(Some(n)) => self.skip_bytes(n),
            Header::Text(Some(n)) => self.skip_text(n, offset),
            _ => Ok(()),
        }
    }
}
