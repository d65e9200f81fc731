//! Lines on bytes whose first is at an offset: `at OFFSET TYPE LIMIT HEX`.

use crate::alike::Alike;
use crate::devices::{Cut, Source, cuts_of};
use crate::fronts::show_front;
use crate::pieces::{parse_typed, split_number};
use crate::types::{Job, ask_type};
use ciborium::de::{Deserialize, from_reader_at};
use ciborium::ser::Serialize;
use std::alloc::{AllocError, Global};

/// What the bytes give as a type within the limit, where the first of them is at an offset.
#[derive(Clone, Copy)]
struct ReadingAt<'a> {
    offset: usize,
    limit: usize,
    bytes: &'a [u8],
}

impl Job for ReadingAt<'_> {
    fn answer<T: Deserialize + Serialize>(&self, alloc: Global) -> Result<String, AllocError> {
        let mut alike = Alike::new(read_slowly::<T>(alloc, *self, Cut::Most(usize::MAX))?);
        for cut in cuts_of(self.bytes) {
            alike.compare(alloc, read_slowly::<T>(alloc, *self, cut))?;
        }
        Ok(alike.into_text())
    }
}

// What is read, in hex, or why it is refused, and how many bytes are left, from a reader that cuts
// its bytes so.
fn read_slowly<T: Deserialize + Serialize>(
    alloc: Global,
    reading: ReadingAt<'_>,
    cut: Cut,
) -> Result<String, AllocError> {
    let mut source = Source::new(reading.bytes, cut, None);
    let read = from_reader_at::<T, Source>(alloc, &mut source, reading.offset, reading.limit);
    let front = show_front(alloc, read)?;
    let left = source.left();
    match front {
        Ok(digits) => format!(in alloc; "ok {digits} {left}"),
        Err(refusal) => format!(in alloc; "{refusal} left {left}"),
    }
}

/// The answer to `OFFSET TYPE LIMIT HEX`, or none where these are other words.
///
/// # Errors
///
/// `AllocError` where an allocation fails for the answer.
pub fn read_at_offset(alloc: Global, rest: &str) -> Result<Option<String>, AllocError> {
    let Some((offset, behind)) = split_number(rest) else {
        return Ok(None);
    };
    let Some((name, limit, bytes)) = parse_typed(alloc, behind)? else {
        return Ok(None);
    };
    let reading = ReadingAt {
        offset,
        limit,
        bytes: &bytes,
    };
    ask_type(alloc, name, &reading)
}
