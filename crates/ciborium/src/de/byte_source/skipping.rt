//! An item that is passed over.

ghost use Rattle.std.specs.Prelude.{◌≡◌, ◌∷◌, ◌⊎◌, ◌<◌, ◌≤◌, IfErr, IsFalse, IsTrue};
ghost use Rattle.std.specs.Prelude.{MatchBool, None, OnOk, Some, [], length, true};
ghost use Rattle.ciborium_ll.specs.Levels.{behind_head, incomplete};
ghost use Rattle.ciborium_ll.specs.declared.levels.Level.TheVariants.{Items};
ghost use Rattle.ciborium_value.specs.Given.{given_skip};
ghost use Rattle.ciborium.specs.inner.ByteSources.{KeepsSource, AnswersItem, IsUnread, PassesItem};
ghost use Rattle.ciborium.specs.inner.ByteSources.{end_at, fault_at};
ghost use Rattle.ciborium.specs.inner.PassedOver as passed;
ghost use Rattle.ciborium.specs.inner.PassedOver.{DeniesBignum, DeniesLevels, PassesHeads};
ghost use Rattle.ciborium.specs.inner.PassedOver.{TakesBignum, levels_in};

use crate::de::byte_source::ByteSource;
use crate::de::error::{BareReadError, Error};
use crate::de::tags::find_folding;
use ciborium_ll::{Access, Header, Level, Step, step_of};
use ciborium_value::Kind;
use std::alloc::Global;

// Whether a head takes a level.
#[inline(always)]
fn takes_one(header: Header) -> bool
    ensures { result ≡ passed.takes_one header }
{
    matches!(header, Header::Array(_) | Header::Map(_) | Header::Tag(_))
}

// Whether this head, with its payload, is an item by itself.
#[inline(always)]
fn is_lone(header: Header) -> bool
    ensures { IsTrue result → behind_head header (Items 1 ∷ []) ≡ Some (Items 0 ∷ []) }
{
    match header {
        Header::Bytes(len) | Header::Text(len) => len.is_some(),
        Header::Positive(_) | Header::Negative(_) | Header::Simple(_) | Header::Float(_) => true,
        _ => false,
    }
}

// What is still to come of an item: the innermost level, the one around it, and those around them,
// the outermost first. An item without containers inside its own takes no memory.
#[derive(Drop)]
pub(crate) struct Unfinished {
    level: Level,
    outer: Option<Level>,
    around: Vec<Level>,
}

impl Unfinished {
    // Enters a level, behind which this one is left of the innermost.
    #[inline(always)]
    fn begin(&mut self, next: Level, inner: Level) -> Result<(), BareReadError>
        ensures ok { OnOk result
            (levels_in self.new ≡ inner ∷ next ∷ passed.around_in self.old) }
        ensures memory { IfErr result (λ e. e ≡ Error.Memory) }
    {
        if let Some(level) = self.outer.replace(next) {
            if self.around.push(level).is_err() {
                return Err(Error::Memory);
            }
        }
        self.level = inner;
        Ok(())
    }

    // Whether none of so many levels is left for what this head enters.
    #[inline(always)]
    fn is_full(&self, header: Header, levels: usize) -> bool
        ensures full { IsTrue result →
            (passed.takes_one header ≡ true) × (levels ≤ length (passed.around_in self.now)) }
        ensures room { IsFalse result → passed.takes_one header ≡ true →
            length (passed.around_in self.now) < levels }
    {
        if !takes_one(header) {
            return false;
        }
        match self.outer {
            Some(_) => self.around.len() + 1 >= levels,
            None => self.around.len() >= levels,
        }
    }

    // Ends the innermost level, and answers whether there is one around it.
    #[inline(always)]
    fn end(&mut self) -> bool
        ensures { MatchBool result (levels_in self.new ≡ passed.around_in self.old)
            (passed.around_in self.old ≡ []) }
    {
        let outer = match self.outer.take() {
            Some(level) => Some(level),
            None => self.around.pop(),
        };
        match outer {
            Some(level) => {
                self.level = level;
                true
            }
            None => false,
        }
    }

    // Drops the levels that are complete, and answers whether all are.
    #[inline(always)]
    fn drop_complete(&mut self) -> bool
        ensures { MatchBool result (incomplete (levels_in self.old) ≡ [])
            ((levels_in self.new ≡ incomplete (levels_in self.old))
            × (incomplete (levels_in self.new) ≡ levels_in self.new)) }
    {
        while let Level::Items(0) = self.level {
            if !self.end() {
                return true;
            }
        }
        false
    }
}

impl<'a, R, A: Access<R>> ByteSource<'a, R, A> {
    // Passes over what stands behind the head of a tag, which was taken last, where it is a bignum
    // that folds: that takes no level. Anything else would, and none is left.
    #[inline(never)]
    fn skip_bignum(&mut self, header: Header) -> Result<(), BareReadError>
        requires { self.old.pending ≡ None }
        ensures keeps { KeepsSource A.remaining self.old self.new }
        ensures ok { OnOk result (TakesBignum (IsUnread A.remaining self.old)
            (IsUnread A.remaining self.new) header) }
        ensures denied { IfErr result
            (λ e. DeniesBignum (IsUnread A.remaining self.old) (end_at A.remaining self.old) header
            (fault_at A.can_fail A.remaining self.new e)) }
    {
        let Header::Tag(tag) = header else {
            return Err(Error::RecursionLimitExceeded);
        };
        let (content, offset) = self.next_head()?;
        if find_folding(tag, content).is_none() {
            return Err(Error::RecursionLimitExceeded);
        }
        self.skip_payload(content, offset)
    }

    // Passes over a head, with its payload.
    #[inline(always)]
    fn skip_head(&mut self, unfinished: &mut Unfinished) -> Result<(), BareReadError>
        requires { incomplete (levels_in unfinished.old) ≡ levels_in unfinished.old }
        ensures keeps { PassesItem A.remaining self.old self.new result }
        ensures ok { OnOk result (PassesHeads (IsUnread A.remaining self.old)
            (IsUnread A.remaining self.new) self.old.levels (levels_in unfinished.old)
            (levels_in unfinished.new)) }
        ensures denied { IfErr result (λ e. DeniesLevels (IsUnread A.remaining self.old)
            (end_at A.remaining self.old) self.old.levels (levels_in unfinished.old)
            (fault_at A.can_fail A.remaining self.new e)) }
    {
        let (header, offset) = self.next_head()?;
        let step = step_of(header, unfinished.level);
        if let Step::Misplaced = step {
            return Err(misplaced(header, offset));
        }
        self.skip_payload(header, offset)?;
        match step {
            Step::Within(next) => unfinished.level = next,
            Step::Enters(next, inner) => {
                if unfinished.is_full(header, self.levels) {
                    self.skip_bignum(header)?;
                    unfinished.level = next;
                } else {
                    unfinished.begin(next, inner)?;
                }
            }
            _ => unfinished.level = Level::Items(0),
        }
        Ok(())
    }

    // Passes over the item ahead, head by head.
    #[inline(never)]
    fn skip_heads(&mut self, alloc: Global) -> Result<(), BareReadError>
        ensures keeps { PassesItem A.remaining self.old self.new result }
        ensures answer { AnswersItem A.can_fail A.remaining self.old self.new (Some self.old.levels)
            given_skip (λ v. v) result }
    {
        let mut unfinished = Unfinished {
            level: Level::Items(1),
            outer: None,
            around: Vec::new(alloc),
        };
        'heads: loop {
            self.skip_head(&mut unfinished)?;
            if unfinished.drop_complete() {
                return Ok(());
            }
        }
    }

    /// Passes over the item ahead.
    #[inline(always)]
    pub(crate) fn skip(&mut self, alloc: Global) -> Result<(), BareReadError>
        ensures keeps { PassesItem A.remaining self.old self.new result }
        ensures answer { AnswersItem A.can_fail A.remaining self.old self.new (Some self.old.levels)
            given_skip (λ v. v) result }
    {
        let (header, offset) = self.next_head()?;
        if is_lone(header) {
            return self.skip_payload(header, offset);
        }
        self.pending = Some((header, offset));
        self.skip_heads(alloc)
    }
}

// The error of a head that may not stand where it does: a break, or no part of a string.
#[inline(never)]
fn misplaced(header: Header, offset: usize) -> BareReadError
    ensures { (result ≡ Error.Syntax offset)
        ⊎ (result ≡ Error.Semantic (Some offset) Kind.Break) }
{
    match header {
        Header::Break => Error::Semantic(Some(offset), Kind::Break),
        _ => Error::Syntax(offset),
    }
}
