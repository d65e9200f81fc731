//! The heads of an item, one by one, where its bytes stand.

ghost use Rattle.std.specs.Prelude.{IsFalse, IsTrue, ℕ};
ghost use Rattle.ciborium_ll.specs.Bytes.{AreBytes};
ghost use Rattle.ciborium_ll.specs.ItemLengths.{IsLengthOf, IsNoItem};
ghost use Rattle.ciborium_ll.specs.Levels.{AreItem};
ghost use Rattle.ciborium_ll.specs.declared.item_heads.NoItem.TheVariants.{TooDeep};
ghost use Rattle.ciborium_ll.specs.inner.Fronts.{IsFront, IsPayloadAt};

use crate::header::Header;
use crate::levels::{Levels, Misfit};
use crate::parsing::parse_held;
use crate::reading::{front_size, payload_size};
use crate::texts::begin_text;

/// Why no item stands at the front of some bytes (RFC 8949, section 5.3.1).
#[derive(Clone, Copy, Debug, PartialEq, Eq)]
pub enum NoItem {
    /// They end inside one: some bytes behind them complete it.
    Incomplete,
    /// Whatever follows, none does: the head at this offset is not well-formed or may not stand
    /// there, or it is that of a text that is not UTF-8.
    Malformed(usize),
    /// The head at this offset enters a level within 256 others. A level is an array, a map, a tag
    /// or a string of indefinite length.
    TooDeep(usize),
}

/// A head of an item, where it stands.
#[derive(Clone, Copy, Debug)]
pub struct ItemHead<'b> {
    /// What it says.
    pub header: Header,
    /// Its offset from the front of the item.
    pub offset: usize,
    /// How many levels are unfinished around it.
    pub depth: usize,
    /// Its bytes.
    pub bytes: &'b [u8],
    /// The payload of a definite string; none behind any other head.
    pub payload: &'b [u8],
}

/// Reads the heads of the item at the front of some bytes, one by one, in their order: floats and
/// simple values too, the chunks of a string of indefinite length, and breaks. It takes no memory.
///
/// It is no `Iterator`, since it may be refused: call `next` until it answers `Ok(None)`.
#[derive(Drop)]
pub struct ItemHeads<'b> {
    bytes: &'b [u8],
    offset: usize,
    levels: Levels,
}

// What stands at the front of some bytes.
pub(crate) enum Front {
    // A head of so many bytes.
    Head(Header, usize),
    // No well-formed head, whatever follows.
    IllFormed,
    // Bytes that end before a head does.
    Cut,
}

// What stands at the front.
#[inline(always)]
pub(crate) fn front_of(held: &[u8]) -> Front
    ensures front { IsFront held.now result }
    ensures bytes { AreBytes held.now }
{
    if held.is_empty() {
        return Front::Cut;
    }
    let initial = held[0];
    let size = front_size(initial % 32);
    if held.len() < size {
        return Front::Cut;
    }
    match parse_held(initial, held, &held[1..size]) {
        Some(header) => Front::Head(header, size),
        None => Front::IllFormed,
    }
}

// What stands where the payload of a definite string should, or nothing of another head.
enum Payload {
    // So many bytes, all of it.
    Whole(usize),
    // The beginning of it.
    Cut,
    // What begins no text of its length.
    NotText,
}

// What stands behind a head as its payload.
#[inline(always)]
fn payload_of(header: Header, rest: &[u8]) -> Payload
    ensures { IsPayloadAt header rest.now result }
{
    let size = payload_size(header);
    let there = &rest[..size.min(rest.len())];
    if let Header::Text(Some(_)) = header {
        if !begin_text(there, size) {
            return Payload::NotText;
        }
    }
    if there.len() < size {
        Payload::Cut
    } else {
        Payload::Whole(size)
    }
}

impl<'b> ItemHeads<'b> {
    ghost use Rattle.std.specs.Prelude.{◌≡◌, ◌∷◌, [], IsFalse, IsTrue};
    ghost use Rattle.ciborium_ll.specs.declared.levels.Level.TheVariants.{Items};
    ghost use Rattle.ciborium_ll.specs.ItemHeads.{HasRead, IsNext, levels_of, unread};
    ghost use Rattle.ciborium_ll.specs.inner.Fronts.{IsNoChunk, MayBeChunk};

    /// Reads the heads of the item at the front of these bytes.
    pub fn new(bytes: &'b [u8]) -> ItemHeads<'b>
        ensures bytes { result.bytes.now ≡ bytes.now }
        ensures offset { result.offset ≡ 0 }
        ensures levels { levels_of result ≡ Items 1 ∷ [] }
        ensures begins { HasRead result }
    {
        ItemHeads {
            bytes,
            offset: 0,
            levels: Levels::new(),
        }
    }

    /// How many bytes were read, which is the offset of the next head.
    pub fn offset(&self) -> usize
        ensures { result ≡ self.now.offset }
    {
        self.offset
    }

    /// What is unread.
    pub fn rest(&self) -> &'b [u8]
        ensures { result.now ≡ unread self.now }
    {
        if self.offset > self.bytes.len() {
            return &[];
        }
        &self.bytes[self.offset..]
    }

    // Whether this begins no chunk of the string of indefinite length that is read, and no break.
    fn is_no_chunk(&self, rest: &[u8]) -> bool
        ensures yes { IsTrue result → IsNoChunk (levels_of self.now) rest.now }
        ensures no { IsFalse result → MayBeChunk (levels_of self.now) rest.now }
    {
        let Some(major) = self.levels.chunk_major() else {
            return false;
        };
        !rest.is_empty() && rest[0] / 32 != major
    }

    /// The next head, or `None` behind the last one of the item.
    ///
    /// # Errors
    ///
    /// Those of `NoItem`, of all the bytes. Then no further head can be asked for.
    pub fn next(&mut self) -> Result<Option<ItemHead<'b>>, NoItem>
        ensures { HasRead self.old → IsNext self.old self.new result }
    {
        if self.levels.is_empty() {
            return Ok(None);
        }
        let rest = self.rest();
        let (header, size) = match front_of(rest) {
            Front::Head(header, size) => (header, size),
            Front::IllFormed => return Err(NoItem::Malformed(self.offset)),
            Front::Cut if self.is_no_chunk(rest) => return Err(NoItem::Malformed(self.offset)),
            Front::Cut => return Err(NoItem::Incomplete),
        };
        let depth = self.levels.depth() - 1;
        match self.levels.pass(header) {
            Ok(()) => {}
            Err(Misfit::Misplaced) => return Err(NoItem::Malformed(self.offset)),
            Err(Misfit::TooDeep) => return Err(NoItem::TooDeep(self.offset)),
        }
        let behind = &rest[size..];
        let length = match payload_of(header, behind) {
            Payload::Whole(length) => length,
            Payload::Cut => return Err(NoItem::Incomplete),
            Payload::NotText => return Err(NoItem::Malformed(self.offset)),
        };
        let head = ItemHead {
            header,
            offset: self.offset,
            depth,
            bytes: &rest[..size],
            payload: &behind[..length],
        };
        self.offset += size + length;
        Ok(Some(head))
    }
}

/// How many bytes the item at the front of these has.
///
/// Who frames items over a socket asks it of what has come: at `Incomplete` more is needed, and
/// what follows an item is the next one's.
///
/// # Errors
///
/// Those of `NoItem`.
pub fn item_len(bytes: &[u8]) -> Result<usize, NoItem>
    ensures { IsLengthOf bytes.now result }
{
    let mut heads = ItemHeads::new(bytes);
    while heads.next()?.is_some() {}
    Ok(heads.offset())
}

/// Whether these bytes are one well-formed item, of at most 256 levels (RFC 8949, section 5.3.1).
pub fn is_well_formed(bytes: &[u8]) -> bool
    ensures yes { IsTrue result → AreItem bytes.now }
    ensures no { IsFalse result → AreItem bytes.now → (p : ℕ) × IsNoItem bytes.now (TooDeep p) }
{
    match item_len(bytes) {
        Ok(length) => length == bytes.len(),
        Err(_) => false,
    }
}
