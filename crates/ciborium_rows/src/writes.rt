//! What values write, also to a writer whose writes fail in turn.

use crate::alike::Alike;
use crate::devices::{FAILURES, Failure, Sink};
use crate::fronts::encode_to_hex;
use crate::refusals::{describe_tree, describe_write, name_io};
use crate::types::Job;
use ciborium::de::Deserialize;
use ciborium::ser::{self, Serialize};
use ciborium::value::Value;
use ciborium::{from_reader_with_recursion_limit, into_writer};
use std::alloc::{AllocError, Global};
use std::io::{self, ErrorKind};

/// What is asked of a value that is written.
#[derive(Clone, Copy, Debug)]
pub enum Writing {
    /// Its bytes and its tree.
    Whole,
    /// What is answered where each write fails in turn.
    Failing,
}

/// What the value that these bytes give, read without a limit, writes.
#[derive(Clone, Copy)]
pub struct Rewriting<'a> {
    pub writing: Writing,
    pub bytes: &'a [u8],
}

impl Job for Rewriting<'_> {
    fn answer<T: Deserialize + Serialize>(&self, alloc: Global) -> Result<String, AllocError> {
        match read_whole::<T>(alloc, self.bytes) {
            Some(value) => write_by(alloc, self.writing, &value),
            None => no_value(alloc),
        }
    }
}

/// The value that the bytes give, read without a limit.
pub fn read_whole<T: Deserialize>(alloc: Global, bytes: &[u8]) -> Option<T> {
    let mut rest = bytes;
    from_reader_with_recursion_limit(alloc, &mut rest, usize::MAX).ok()
}

/// The answer where the bytes give no value.
///
/// # Errors
///
/// `AllocError` where an allocation fails for the text.
pub fn no_value(alloc: Global) -> Result<String, AllocError> {
    String::from_str(alloc, "no value")
}

/// What the value writes: `BYTES | TREE`, the tree by its encoding, or why it is not written; or
/// `io at N writes, then BYTES` where each of N writes of at most three bytes, failing, makes
/// `into_writer` answer just that failure, with a proper beginning of the bytes written and nothing
/// flushed. Where it is otherwise `write K: ..`; where the ways to fail differ `differs: A / B`.
///
/// # Errors
///
/// `AllocError` where an allocation fails for the text.
pub fn write_by<T: Serialize>(
    alloc: Global,
    writing: Writing,
    value: &T,
) -> Result<String, AllocError> {
    match writing {
        Writing::Whole => write_both(alloc, value),
        Writing::Failing => fail_writes(alloc, value),
    }
}

// The bytes and the tree of a value.
fn write_both<T: Serialize>(alloc: Global, value: &T) -> Result<String, AllocError> {
    let mut bytes = Vec::new(alloc);
    let mut text = match into_writer(value, &mut bytes) {
        Ok(()) => hex::encode(alloc, &bytes)?,
        Err(error) => describe_write(alloc, error)?,
    };
    let tree = match Value::serialized(alloc, value) {
        Ok(tree) => encode_to_hex(alloc, &tree)?,
        Err(error) => describe_tree(alloc, error)?,
    };
    text.push_str(" | ")?;
    text.push_str(tree.as_str())?;
    Ok(text)
}

// Where each write fails in turn, in each way.
fn fail_writes<T: Serialize>(alloc: Global, value: &T) -> Result<String, AllocError> {
    let mut bytes = Vec::new(alloc);
    if let Err(error) = into_writer(value, &mut bytes) {
        return describe_write(alloc, error);
    }
    let mut alike = Alike::new(fail_each_write(alloc, value, &bytes, Failure::End)?);
    for failure in FAILURES {
        alike.compare(alloc, fail_each_write(alloc, value, &bytes, failure))?;
    }
    Ok(alike.into_text())
}

// The same for one way to fail. There are no more writes than bytes.
fn fail_each_write<T: Serialize>(
    alloc: Global,
    value: &T,
    bytes: &[u8],
    failure: Failure,
) -> Result<String, AllocError> {
    for at in 0..bytes.len().saturating_add(1) {
        if let Some(end) = fail_write(alloc, value, bytes, (at, failure))? {
            return Ok(end);
        }
    }
    String::from_str(alloc, "writes without end")
}

// What is said of the value where one write fails, unless just that failure is the answer.
fn fail_write<T: Serialize>(
    alloc: Global,
    value: &T,
    bytes: &[u8],
    (at, failure): (usize, Failure),
) -> Result<Option<String>, AllocError> {
    let mut sink = Sink::new(alloc, 3, Some((at, failure)));
    let answer = describe_answer(alloc, into_writer(value, &mut sink))?;
    let text = answer.as_str();
    if is_cut(&sink, bytes) && text == name_io(failure.kind(ErrorKind::WriteZero)) {
        return Ok(None);
    }
    let is_right = is_complete(&sink, bytes) && text == "written";
    Ok(Some(name_end(alloc, is_right, at, text, &sink.held)?))
}

// What is said of a value where a write gives another answer than its failure.
fn name_end(
    alloc: Global,
    is_right: bool,
    at: usize,
    text: &str,
    held: &[u8],
) -> Result<String, AllocError> {
    let digits = hex::encode(alloc, held)?;
    if is_right {
        format!(in alloc; "io at {at} writes, then {digits}")
    } else {
        format!(in alloc; "write {at}: {text} {digits}")
    }
}

// What `into_writer` answers.
fn describe_answer(
    alloc: Global,
    answer: Result<(), ser::Error<io::Error>>,
) -> Result<String, AllocError> {
    match answer {
        Ok(()) => String::from_str(alloc, "written"),
        Err(error) => describe_write(alloc, error),
    }
}

// Whether all of the bytes are out, with no failure and nothing flushed.
fn is_complete(sink: &Sink, bytes: &[u8]) -> bool {
    !sink.failed && !sink.flushed && sink.held.as_slice() == bytes
}

// Whether a proper beginning of the bytes is out, with a failure and nothing flushed.
fn is_cut(sink: &Sink, bytes: &[u8]) -> bool {
    let held = sink.held.as_slice();
    sink.failed && !sink.flushed && bytes.starts_with(held) && held.len() < bytes.len()
}
