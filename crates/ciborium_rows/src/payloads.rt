//! Bytes that an encoder writes to a writer that fails.

use crate::alike::Alike;
use crate::devices::{FAILURES, Failure, Sink};
use ciborium::ll::Encoder;
use std::alloc::{AllocError, Global};
use std::io::ErrorKind;

// The most bytes that the writer takes at once.
const MOST: usize = 3;

/// What `write_all` puts out where each write in turn fails or takes nothing: `io at N writes, then
/// HEX`, where at each of the first N writes the bytes before it are out and its error is the
/// answer, and without a fault HEX is out. The writer takes three bytes a write.
///
/// # Errors
///
/// `AllocError` where an allocation fails for the text.
pub fn write_failing(alloc: Global, bytes: &[u8]) -> Result<String, AllocError> {
    let mut alike = Alike::new(fail_by(alloc, bytes, Failure::End)?);
    for failure in FAILURES {
        alike.compare(alloc, fail_by(alloc, bytes, failure))?;
    }
    Ok(alike.into_text())
}

// The same of faults of one kind.
fn fail_by(alloc: Global, bytes: &[u8], failure: Failure) -> Result<String, AllocError> {
    for at in 0..usize::MAX {
        let mut sink = Sink::new(alloc, MOST, Some((at, failure)));
        let answer = Encoder::new(&mut sink).write_all(bytes);
        if !sink.failed {
            let held = hex::encode(alloc, &sink.held)?;
            return if answer.is_ok() && !sink.flushed {
                format!(in alloc; "io at {at} writes, then {held}")
            } else {
                format!(in alloc; "refused with {held}")
            };
        }
        let kind = answer.err().map(|e| e.kind());
        let out = bytes.get(..at.saturating_mul(MOST));
        if kind != Some(failure.kind(ErrorKind::WriteZero)) || out != Some(sink.held.as_slice()) {
            return format!(in alloc; "wrong at write {at}");
        }
    }
    String::from_str(alloc, "no end")
}
