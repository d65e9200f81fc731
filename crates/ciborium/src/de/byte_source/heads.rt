//! The next head, as it comes or behind tags.

ghost use Rattle.std.specs.Prelude.{◌+◌, ◌≤◌, IfErr, IfOk, None, false};
ghost use Rattle.ciborium_value.specs.Sources.{IsGrantedFault};
ghost use Rattle.ciborium.specs.inner.ByteSources.{KeepsSource, CountsHead, IsUnread, bytes_weight};
ghost use Rattle.ciborium.specs.inner.ByteSources.{end_at, head_weight, weight_left, ReadsBareHead};
ghost use Rattle.ciborium.specs.inner.ByteSources.{fault_at};
ghost use Rattle.ciborium.specs.inner.FrontItems.{DeniesHead, DeniesItem, TakesHead};
ghost use Rattle.ciborium.specs.inner.Skips.{IsEndTag, TakesBare};

use crate::de::byte_source::ByteSource;
use crate::de::error::{BareReadError, Error};
use ciborium_ll::tag::is_bignum;
use ciborium_ll::{Access, Header};
use ciborium_value::Kind;

// Whether a tag is not skipped: that of a bignum, where numbers are wanted.
#[inline(always)]
fn is_end_tag(numbers: bool, tag: u64) -> bool
    ensures { IsEndTag numbers tag result }
{
    numbers && is_bignum(tag)
}

impl<'a, R, A: Access<R>> ByteSource<'a, R, A> {
    /// The next head, and its offset.
    #[inline(always)]
    pub(crate) fn next_head(&mut self) -> Result<(Header, usize), BareReadError>
        ensures keeps { KeepsSource A.remaining self.old self.new }
        ensures fewer { IfOk result
            (λ h. bytes_weight self.new + head_weight h.0 ≤ weight_left self.old) }
        ensures head { IfOk result
            (λ h. TakesHead (IsUnread A.remaining) self.old self.new h.0) }
        ensures counted { IfOk result (CountsHead (IsUnread A.remaining) self.old self.new) }
        ensures denied { IfErr result
            (λ e. DeniesHead (IsUnread A.remaining) (end_at A.remaining) self.old
            (fault_at A.can_fail A.remaining self.new e)) }
        ensures memory { IfErr result
            (λ e. IsGrantedFault (fault_at A.can_fail A.remaining self.new e) false) }
    {
        if let Some((header, offset)) = self.pending {
            self.pending = None;
            return Ok((header, offset));
        }
        let header = self.decoder.pull_next_keeping(&mut self.failure)?;
        let offset = self.decoder.last_offset();
        Ok((header, offset))
    }

    // The head behind any number of tags. Out of line: where it is called a tag was skipped.
    #[inline(never)]
    fn behind_tags(&mut self, numbers: bool) -> Result<(Header, usize), BareReadError>
        ensures reads { ReadsBareHead A.can_fail A.remaining self.old self.new numbers result }
        ensures head { IfOk result
            (λ h. TakesBare (IsUnread A.remaining) self.old self.new numbers h.0) }
        ensures denied { IfErr result
            (λ e. DeniesItem (IsUnread A.remaining) (end_at A.remaining) self.old
            (fault_at A.can_fail A.remaining self.new e)) }
    {
        'tags: loop {
            let (header, offset) = self.next_head()?;
            match header {
                Header::Tag(tag) => {
                    if is_end_tag(numbers, tag) {
                        return Ok((header, offset));
                    }
                }
                Header::Break => return Err(Error::Semantic(Some(offset), Kind::Break)),
                _ => return Ok((header, offset)),
            }
        }
    }

    // What `behind_tags` does. Apart from `bare_head`, so that the room for its answer is made
    // ready only behind a tag.
    #[inline(always)]
    fn skip_tags(&mut self, numbers: bool) -> Result<(Header, usize), BareReadError>
        ensures reads { ReadsBareHead A.can_fail A.remaining self.old self.new numbers result }
        ensures head { IfOk result
            (λ h. TakesBare (IsUnread A.remaining) self.old self.new numbers h.0) }
        ensures denied { IfErr result
            (λ e. DeniesItem (IsUnread A.remaining) (end_at A.remaining) self.old
            (fault_at A.can_fail A.remaining self.new e)) }
    {
        self.behind_tags(numbers)
    }

    /// The head behind any number of tags, and its offset. Where numbers are wanted, the tag of a
    /// bignum is such a head.
    ///
    /// # Errors
    ///
    /// `Semantic` with `Break` where a break stands there.
    #[inline(always)]
    pub(crate) fn bare_head(&mut self, numbers: bool) -> Result<(Header, usize), BareReadError>
        ensures reads { ReadsBareHead A.can_fail A.remaining self.old self.new numbers result }
        ensures head { IfOk result
            (λ h. TakesBare (IsUnread A.remaining) self.old self.new numbers h.0) }
        ensures denied { IfErr result
            (λ e. DeniesItem (IsUnread A.remaining) (end_at A.remaining) self.old
            (fault_at A.can_fail A.remaining self.new e)) }
    {
        let (header, offset) = self.next_head()?;
        match header {
            Header::Tag(tag) => {
                if is_end_tag(numbers, tag) {
                    return Ok((header, offset));
                }
                self.skip_tags(numbers)
            }
            Header::Break => Err(Error::Semantic(Some(offset), Kind::Break)),
            _ => Ok((header, offset)),
        }
    }
}
