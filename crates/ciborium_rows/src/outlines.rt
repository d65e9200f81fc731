//! The heads of the item at the front of some bytes, and its length.

use ciborium::ll::{ItemHeads, NoItem, is_well_formed, item_len};
use std::alloc::{AllocError, Global};

/// What stands at the front of the bytes, whether they are one item, and the offset and the depth
/// of each head that is read.
///
/// # Errors
///
/// `AllocError` where an allocation fails for the answer.
pub fn outline(alloc: Global, bytes: &[u8]) -> Result<String, AllocError> {
    let length = item_len(bytes);
    let (heads, end) = read_heads(alloc, bytes)?;
    if length != end {
        return String::from_str(alloc, "the heads end elsewhere");
    }
    let word = if is_well_formed(bytes) {
        "all"
    } else {
        "not all"
    };
    match end {
        Ok(length) => format!(in alloc; "complete {length}, {word}:{heads}"),
        Err(NoItem::Incomplete) => format!(in alloc; "incomplete, {word}:{heads}"),
        Err(NoItem::Malformed(offset)) => format!(in alloc; "malformed {offset}, {word}:{heads}"),
        Err(NoItem::TooDeep(offset)) => format!(in alloc; "deep {offset}, {word}:{heads}"),
    }
}

// The heads that are read, and what stands behind them: the end at its offset, or a refusal.
fn read_heads(alloc: Global, bytes: &[u8]) -> Result<(String, Result<usize, NoItem>), AllocError> {
    let mut text = String::new(alloc);
    let mut heads = ItemHeads::new(bytes);
    for _ in 0..u64::MAX {
        match heads.next() {
            Ok(Some(head)) => {
                let part = format!(in alloc; " {}/{}", head.offset, head.depth)?;
                text.push_str(&part)?;
            }
            Ok(None) => return Ok((text, Ok(heads.offset()))),
            Err(refusal) => return Ok((text, Err(refusal))),
        }
    }
    Err(AllocError)
}
