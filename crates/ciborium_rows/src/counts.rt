//! How often a reader is asked: `asked TYPE LIMIT HEX`.

use crate::devices::{Cut, Source};
use crate::fronts::{Call, ask_call};
use crate::types::Job;
use ciborium::de::Deserialize;
use ciborium::ser::Serialize;
use std::alloc::{AllocError, Global};

/// What the bytes give as a type within the limit, and how their reader was asked.
#[derive(Clone, Copy)]
pub struct CountedReads<'a> {
    pub limit: usize,
    pub bytes: &'a [u8],
}

/// `FRONT; N reads of M gave G; N reads of M gave G`: how many reads were made, how many bytes they
/// asked for and how many they gave, from a reader that gives all that it is asked for, and from
/// one of one byte a read.
impl Job for CountedReads<'_> {
    fn answer<T: Deserialize + Serialize>(&self, alloc: Global) -> Result<String, AllocError> {
        let (mut text, counts) = count_reads::<T>(alloc, *self, Cut::Most(usize::MAX))?;
        text.push_str(counts.as_str())?;
        let (_, counts) = count_reads::<T>(alloc, *self, Cut::Most(1))?;
        text.push_str(counts.as_str())?;
        Ok(text)
    }
}

// What a reader of this cut gives, and how it was asked.
fn count_reads<T: Deserialize + Serialize>(
    alloc: Global,
    reading: CountedReads<'_>,
    cut: Cut,
) -> Result<(String, String), AllocError> {
    let mut source = Source::new(reading.bytes, cut, None);
    let text = match ask_call::<T, Source>(alloc, Call::Limited(reading.limit), &mut source)? {
        Ok(digits) => format!(in alloc; "ok {digits}")?,
        Err(refusal) => refusal,
    };
    let given = reading.bytes.len().saturating_sub(source.left());
    let counts = format!(in alloc; "; {} reads of {} gave {given}", source.reads, source.asked)?;
    Ok((text, counts))
}
