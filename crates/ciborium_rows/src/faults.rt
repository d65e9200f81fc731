//! What a call that reads answers where each read of its reader fails in turn.

use crate::alike::Alike;
use crate::devices::{Cut, FAILURES, Failure, Source, buffer, cuts_of, left_behind};
use crate::fronts::{Call, ask_buffer, ask_call, describe_front};
use crate::refusals::name_io;
use crate::types::Job;
use ciborium::de::Deserialize;
use ciborium::ser::Serialize;
use std::alloc::{AllocError, Global};
use std::io::{BufReader, ErrorKind};

/// What the call answers where each read fails in turn.
#[derive(Clone, Copy)]
pub struct FailedReads<'a> {
    pub call: Call,
    pub bytes: &'a [u8],
}

impl Job for FailedReads<'_> {
    fn answer<T: Deserialize + Serialize>(&self, alloc: Global) -> Result<String, AllocError> {
        fail_reads::<T>(alloc, self.call, self.bytes)
    }
}

/// `io at N reads, then FRONT` where each of N reads of one byte, failing, makes the call answer
/// just that failure, and the answer is FRONT where the read behind the last one would fail. Where
/// it is otherwise `read K: ANSWER`, of the first such read; and where the ways to fail differ, or
/// other cuts into reads, or buffers over them, end at another FRONT, `differs: A / B`.
///
/// # Errors
///
/// `AllocError` where an allocation fails for the text.
pub fn fail_reads<T: Deserialize + Serialize>(
    alloc: Global,
    call: Call,
    bytes: &[u8],
) -> Result<String, AllocError> {
    let text = fail_each_read::<T>(alloc, call, bytes, (Cut::Most(1), Failure::End))?;
    let front = front_of(alloc, text.as_str())?;
    let mut alike = Alike::new(text);
    for failure in FAILURES {
        let way = (Cut::Most(1), failure);
        alike.compare(alloc, fail_each_read::<T>(alloc, call, bytes, way))?;
    }
    let other = fail_cut_reads::<T>(alloc, call, bytes, front)?;
    if !alike.as_str().ends_with(other.as_str()) {
        return Ok(other);
    }
    Ok(alike.into_text())
}

// The same FRONT where reads of other cuts fail in turn, or how it differs.
fn fail_cut_reads<T: Deserialize + Serialize>(
    alloc: Global,
    call: Call,
    bytes: &[u8],
    front: String,
) -> Result<String, AllocError> {
    let mut alike = Alike::new(front);
    let [_, few, drawn] = cuts_of(bytes);
    for cut in [few, drawn, Cut::Most(usize::MAX)] {
        for failure in FAILURES {
            let text = fail_each_read::<T>(alloc, call, bytes, (cut, failure))?;
            alike.compare(alloc, front_of(alloc, text.as_str()))?;
        }
    }
    for failure in FAILURES {
        let whole = (Cut::Most(usize::MAX), failure);
        let text = fail_each_fill::<T>(alloc, call, bytes, whole, 1)?;
        alike.compare(alloc, front_of(alloc, text.as_str()))?;
        let text = fail_each_fill::<T>(alloc, call, bytes, (drawn, failure), 3)?;
        alike.compare(alloc, front_of(alloc, text.as_str()))?;
    }
    Ok(alike.into_text())
}

// The FRONT of an answer, without the number of reads.
fn front_of(alloc: Global, text: &str) -> Result<String, AllocError> {
    match text.split_once(" reads, then ") {
        Some((_, front)) => String::from_str(alloc, front),
        None => String::from_str(alloc, text),
    }
}

// The same for one cut and one way to fail. A call reads no more often than there are bytes, and
// then once.
fn fail_each_read<T: Deserialize + Serialize>(
    alloc: Global,
    call: Call,
    bytes: &[u8],
    (cut, failure): (Cut, Failure),
) -> Result<String, AllocError> {
    for at in 0..bytes.len().saturating_add(2) {
        if let Some(end) = fail_read::<T>(alloc, call, (bytes, cut), (at, failure))? {
            return Ok(end);
        }
    }
    String::from_str(alloc, "reads without end")
}

// The same where the reader stands behind a buffer of so many bytes.
fn fail_each_fill<T: Deserialize + Serialize>(
    alloc: Global,
    call: Call,
    bytes: &[u8],
    (cut, failure): (Cut, Failure),
    capacity: usize,
) -> Result<String, AllocError> {
    for at in 0..bytes.len().saturating_add(2) {
        let fault = (at, failure);
        let mut reader = buffer(alloc, capacity, Source::new(bytes, cut, Some(fault)))?;
        let front = ask_buffer::<T, BufReader<Source<'_>>>(alloc, call, &mut reader)?;
        let text = describe_front(alloc, front, left_behind(&reader))?;
        let failed = reader.get_ref().failed;
        if let Some(end) = judge_fault(alloc, text.as_str(), failed, fault)? {
            return Ok(end);
        }
    }
    String::from_str(alloc, "reads without end")
}

// What is said of the call where one read fails, unless just that failure is the answer.
fn fail_read<T: Deserialize + Serialize>(
    alloc: Global,
    call: Call,
    (bytes, cut): (&[u8], Cut),
    fault: (usize, Failure),
) -> Result<Option<String>, AllocError> {
    let mut source = Source::new(bytes, cut, Some(fault));
    let front = ask_call::<T, Source>(alloc, call, &mut source)?;
    let text = describe_front(alloc, front, source.left())?;
    judge_fault(alloc, text.as_str(), source.failed, fault)
}

/// None where a call that came to the read that fails answers just that failure; else what is said
/// of it, by the answer.
///
/// # Errors
///
/// `AllocError` where an allocation fails for the text.
pub fn judge_fault(
    alloc: Global,
    answer: &str,
    failed: bool,
    (at, failure): (usize, Failure),
) -> Result<Option<String>, AllocError> {
    let text = if !failed {
        format!(in alloc; "io at {at} reads, then {answer}")?
    } else if answer != name_io(failure.kind(ErrorKind::UnexpectedEof)) {
        format!(in alloc; "read {at}: {answer}")?
    } else {
        return Ok(None);
    };
    Ok(Some(text))
}
