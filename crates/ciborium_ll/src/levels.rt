//! What is unfinished around a place inside an item.

ghost use Rattle.std.specs.Prelude.{◌≡◌, ◌∷◌, List, option_map};
ghost use Rattle.ciborium_ll.specs.Levels as levels;
ghost use Rattle.ciborium_ll.specs.Levels.{behind_head, entered, behind_break, levels_by};

use crate::header::Header;

/// A level around a place inside an item: what is still to come of it (RFC 8949, section 3).
#[derive(Clone, Copy)]
pub enum Level {
    /// So many items.
    Items(u128),
    /// Items up to a break.
    OpenItems,
    /// Pairs up to a break, and a key or the break is next.
    OpenKeys,
    /// A value, and then pairs up to a break.
    OpenValues,
    /// Chunks of a byte string up to a break.
    ByteChunks,
    /// Chunks of a text up to a break.
    TextChunks,
}

// How many levels are kept at most: that of the item itself, and 256 within it.
const MOST_LEVELS: usize = 257;

/// What a head does to the innermost level.
#[derive(Clone, Copy)]
pub enum Step {
    /// It becomes this one.
    Within(Level),
    /// It becomes the first one, and the second is entered inside it.
    Enters(Level, Level),
    /// It has ended.
    Ends,
    /// The head may not stand there.
    Misplaced,
}

// The level behind an item that stands in this one, or `None` where none may.
#[inline(always)]
fn behind_item(level: Level) -> Option<Level>
    ensures { (around : List Level) →
        levels.behind_item (level ∷ around) ≡ option_map (λ next. next ∷ around) result }
{
    match level {
        Level::Items(0) | Level::ByteChunks | Level::TextChunks => None,
        Level::Items(n) => Some(Level::Items(n - 1)),
        Level::OpenItems => Some(Level::OpenItems),
        Level::OpenKeys => Some(Level::OpenValues),
        Level::OpenValues => Some(Level::OpenKeys),
    }
}

// The step of an item without parts.
#[inline(always)]
fn within(level: Level) -> Step
    ensures { (around : List Level) →
        levels.behind_item (level ∷ around) ≡ levels_by result around }
{
    match behind_item(level) {
        Some(level) => Step::Within(level),
        None => Step::Misplaced,
    }
}

// The step of an item with parts.
#[inline(always)]
fn enters(level: Level, inner: Level) -> Step
    ensures { (around : List Level) → entered inner (level ∷ around) ≡ levels_by result around }
{
    match behind_item(level) {
        Some(level) => Step::Enters(level, inner),
        None => Step::Misplaced,
    }
}

// The step of a break.
#[inline(always)]
fn ends(level: Level) -> Step
    ensures { (around : List Level) → behind_break (level ∷ around) ≡ levels_by result around }
{
    match level {
        Level::Items(_) | Level::OpenValues => Step::Misplaced,
        _ => Step::Ends,
    }
}

/// What this head, with the payload behind it, does to this level.
#[inline(always)]
pub fn step_of(header: Header, level: Level) -> Step
    ensures { (around : List Level) →
        behind_head header (level ∷ around) ≡ levels_by result around }
{
    match (header, level) {
        (Header::Bytes(Some(_)), Level::ByteChunks) => Step::Within(level),
        (Header::Text(Some(_)), Level::TextChunks) => Step::Within(level),
        (Header::Bytes(None), _) => enters(level, Level::ByteChunks),
        (Header::Text(None), _) => enters(level, Level::TextChunks),
        (Header::Array(Some(n)), _) => enters(level, Level::Items(n as u128)),
        (Header::Array(None), _) => enters(level, Level::OpenItems),
        (Header::Map(Some(n)), _) => enters(level, Level::Items(n as u128 * 2)),
        (Header::Map(None), _) => enters(level, Level::OpenKeys),
        (Header::Tag(_), _) => enters(level, Level::Items(1)),
        (Header::Break, _) => ends(level),
        _ => within(level),
    }
}

// Why a head cannot be counted.
#[derive(Drop)]
pub(crate) enum Misfit {
    // It may not stand there.
    Misplaced,
    // It enters a level more than are kept.
    TooDeep,
}

// The levels around a place: those kept from `free` on, the innermost first.
#[derive(Drop)]
pub(crate) struct Levels {
    kept: [Level; MOST_LEVELS],
    free: usize,
}

impl Levels {
    ghost use Rattle.std.specs.Prelude.{◌<◌, ◌↔◌, IfSome, IsTrue, [], length};
    ghost use Rattle.ciborium_ll.specs.declared.levels.Level.TheVariants.{Items};
    ghost use Rattle.ciborium_ll.specs.inner.KeptLevels.{IsPassed, levels_in, top_of};
    ghost use Rattle.ciborium_ll.specs.ItemLengths.{chunk_major};
    ghost use Rattle.ciborium_ll.specs.Levels.{incomplete};

    // One item is still to come.
    pub(crate) fn new() -> Levels
        ensures { levels_in result ≡ Items 1 ∷ [] }
    {
        let mut kept = [Level::OpenItems; MOST_LEVELS];
        kept[MOST_LEVELS - 1] = Level::Items(1);
        Levels {
            kept,
            free: MOST_LEVELS - 1,
        }
    }

    // The innermost level.
    fn top(&self) -> Option<Level>
        ensures top { result ≡ top_of (levels_in self.now) }
        ensures within { IfSome result (λ _. self.now.free < 257) }
        ensures kept { length self.now.kept ≡ 257 }
    {
        self.kept.get(self.free).copied()
    }

    // Drops the levels that are complete.
    fn drop_complete(&mut self)
        ensures { levels_in self.new ≡ incomplete (levels_in self.old) }
    {
        while let Some(Level::Items(0)) = self.top() {
            self.free += 1;
        }
    }

    // Counts a head, and the payload of a definite string behind it.
    pub(crate) fn pass(&mut self, header: Header) -> Result<(), Misfit>
        ensures { IsPassed header (levels_in self.old) (levels_in self.new) result }
    {
        let Some(top) = self.top() else {
            return Err(Misfit::Misplaced);
        };
        match step_of(header, top) {
            Step::Within(level) => self.kept[self.free] = level,
            Step::Enters(level, inner) => {
                if self.free == 0 {
                    return Err(Misfit::TooDeep);
                }
                self.kept[self.free] = level;
                self.free -= 1;
                self.kept[self.free] = inner;
            }
            Step::Ends => self.free += 1,
            Step::Misplaced => return Err(Misfit::Misplaced),
        }
        self.drop_complete();
        Ok(())
    }

    // Whether all levels are complete.
    pub(crate) fn is_empty(&self) -> bool
        ensures { IsTrue result ↔ (levels_in self.now ≡ []) }
    {
        self.top().is_none()
    }

    // How many levels are unfinished.
    pub(crate) fn depth(&self) -> usize
        ensures { result ≡ length (levels_in self.now) }
    {
        if self.free > MOST_LEVELS {
            return 0;
        }
        MOST_LEVELS - self.free
    }

    // The major type of the chunks of the innermost level, where it is an open string.
    pub(crate) fn chunk_major(&self) -> Option<u8>
        ensures { result ≡ chunk_major (levels_in self.now) }
    {
        match self.top() {
            Some(Level::ByteChunks) => Some(2),
            Some(Level::TextChunks) => Some(3),
            _ => None,
        }
    }
}
