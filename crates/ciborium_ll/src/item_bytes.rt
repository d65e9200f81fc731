//! The bytes of an item, copied out of a reader.

ghost use Rattle.std.specs.Prelude.{◌≡◌, ◌++◌, ◌<◌, ◌≤◌, ℕ, IfOk, IsTrue, List, MatchResult};
ghost use Rattle.std.specs.Prelude.{Some, []};
ghost use Rattle.ciborium_ll.specs.ItemBytes.{HasCopied, HasEnded, IsCopyOf, IsFault};

use crate::item_heads::{Front, NoItem, front_of, item_len};
use crate::levels::Levels;
use crate::reading::{front_size, payload_size};
use std::io::{self, BufRead, ErrorKind};

/// Why no item was copied.
#[derive(Debug, Drop)]
pub enum NotCopied {
    /// None stands at the front.
    NoItem(NoItem),
    /// The reader failed.
    Io(io::Error),
    /// An allocation failed.
    Memory,
}

/// Copies the bytes of the item at the front of a reader behind what `item` holds, and takes
/// nothing else. Of an item only heads are looked at, and whether texts are UTF-8, so that also one
/// that no value is read from is copied (RFC 8949, section 5.3.1).
///
/// No memory is reserved by what a head announces, and the reader is asked for no more bytes than
/// it takes to tell where the item ends.
///
/// # Errors
///
/// `NoItem` where none stands there, and the error of the reader or `Memory` where that or an
/// allocation fails. Also then what was taken of the reader, and nothing else, stands behind what
/// `item` held.
pub fn copy_item<R: BufRead>(reader: &mut R, item: &mut Vec<u8>) -> Result<(), NotCopied>
    ensures { HasCopied (R.remaining reader.old) (R.remaining reader.new) item.old.items
        item.new.items (λ copied. (b : List ℕ) → R.remaining reader.old ≡ Some b →
        IsCopyOf b copied result) }
{
    let start = item.len();
    let is_end = copy_heads(reader, item)?;
    judge_copy(&item[start..], is_end)
}

// Whether what was copied is an item, and why it is none, where nothing follows or something may.
fn judge_copy(copied: &[u8], is_end: bool) -> Result<(), NotCopied>
    ensures { (left : List ℕ) → (IsTrue is_end → left ≡ []) →
        IsCopyOf (copied.now ++ left) copied.now result }
{
    match item_len(copied) {
        Ok(length) if length == copied.len() => Ok(()),
        Err(NoItem::Incomplete) if is_end => Err(NotCopied::NoItem(NoItem::Incomplete)),
        Err(NoItem::Malformed(at)) => Err(NotCopied::NoItem(NoItem::Malformed(at))),
        Err(NoItem::TooDeep(at)) => Err(NotCopied::NoItem(NoItem::TooDeep(at))),
        // Unreachable in practice: copying goes on until it is known where the item ends.
        _ => Err(NotCopied::Io(io::Error::from(ErrorKind::InvalidData))),
    }
}

// Copies heads and payloads up to the end of an item, or of what begins none, or of all bytes, and
// says whether nothing follows.
fn copy_heads<R: BufRead>(reader: &mut R, item: &mut Vec<u8>) -> Result<bool, NotCopied>
    ensures copied { HasCopied (R.remaining reader.old) (R.remaining reader.new) item.old.items
        item.new.items (λ _. Unit {0}) }
    ensures end { MatchResult result (λ is_end. IsTrue is_end →
        HasEnded (R.remaining reader.old) (R.remaining reader.new)) IsFault }
{
    let start = item.len();
    let mut walk = Walk::new();
    let mut missing = 1;
    'pieces: for _ in 0..u64::MAX {
        let count = copy_held(reader, missing, item)?;
        if count == 0 {
            return Ok(true);
        }
        missing = if count < missing {
            missing - count
        } else {
            walk.find_missing(&item[start..])
        };
        if missing == 0 {
            return Ok(false);
        }
    }
    // Unreachable in practice: no memory holds so many bytes.
    Err(NotCopied::Memory)
}

// Copies bytes that a reader holds, so many at most, and says how many: none only where it has no
// more, or none are asked for.
fn copy_held<R: BufRead>(
    reader: &mut R,
    most: usize,
    item: &mut Vec<u8>,
) -> Result<usize, NotCopied>
    ensures at_most { IfOk result (λ count. count ≤ most) }
    ensures copied { HasCopied (R.remaining reader.old) (R.remaining reader.new) item.old.items
        item.new.items (λ _. Unit {0}) }
    ensures end { MatchResult result (λ count. count ≡ 0 → 0 < most →
        HasEnded (R.remaining reader.old) (R.remaining reader.new)) IsFault }
{
    let count = match reader.fill_buf() {
        Ok(held) => {
            let count = most.min(held.len());
            if item.extend_from_slice(&held[..count]).is_err() {
                return Err(NotCopied::Memory);
            }
            count
        }
        Err(error) => return Err(NotCopied::Io(error)),
    };
    reader.consume(count);
    Ok(count)
}

// How far an item is known.
#[derive(Drop)]
struct Walk {
    // Where the next head begins.
    offset: usize,
    // What is unfinished before it.
    levels: Levels,
}

impl Walk {
    fn new() -> Walk {
        Walk {
            offset: 0,
            levels: Levels::new(),
        }
    }

    // How many bytes an item that begins with these has at least behind them: none where they are
    // all of it, or begin none.
    fn find_missing(&mut self, bytes: &[u8]) -> usize {
        if self.offset < bytes.len() {
            let rest = &bytes[self.offset..];
            match front_of(rest) {
                Front::Head(header, size) => {
                    if self.levels.pass(header).is_err() {
                        return 0;
                    }
                    let end = self.offset.saturating_add(size);
                    self.offset = end.saturating_add(payload_size(header));
                }
                Front::Cut => return front_size(rest[0] % 32).saturating_sub(rest.len()),
                Front::IllFormed => return 0,
            }
        }
        if self.offset > bytes.len() {
            return self.offset - bytes.len();
        }
        if self.levels.is_empty() { 0 } else { 1 }
    }
}
