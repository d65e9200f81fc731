//! Heads, and why they are refused, as texts.

ghost use Rattle.std.specs.Prelude.{IsTrue};
ghost use Rattle.ciborium_ll.specs.Header.{IsWritable};

use crate::devices::Sink;
use crate::refusals::name_io;
use ciborium::ll::{Encoder, Error, Header};
use std::alloc::{AllocError, Global};
use std::io;

/// A text for what was pulled, or for why it was refused.
pub type Pulled = Result<String, String>;

/// A head, the payload behind it where it begins a string, and the offset behind both.
#[derive(Drop)]
pub struct Front {
    pub header: Header,
    pub payload: Vec<u8>,
    pub end: usize,
}

/// A front as a text: `HEADER PAYLOAD end OFFSET | HEX`, where HEX is the head that an encoder
/// writes for the header. A head that may not be pushed has none.
///
/// # Errors
///
/// `AllocError` where an allocation fails for the text.
pub fn show_front(alloc: Global, front: &Front) -> Result<String, AllocError> {
    let mut text = name_header(alloc, front.header)?;
    if !front.payload.is_empty() {
        text.push(' ')?;
        text.push_str(hex::encode(alloc, &front.payload)?.as_str())?;
    }
    let end = front.end;
    text.push_str(format!(in alloc; " end {end}")?.as_str())?;
    if is_writable(front.header) {
        text.push_str(" | ")?;
        text.push_str(write_head(alloc, front.header)?.as_str())?;
    }
    Ok(text)
}

/// What was pulled, or the refusal, with how many bytes are left if that is given.
///
/// # Errors
///
/// `AllocError` where an allocation fails for the text.
pub fn describe_front(
    alloc: Global,
    pulled: Pulled,
    left: Option<usize>,
) -> Result<String, AllocError> {
    match (pulled, left) {
        (Ok(text), _) => Ok(text),
        (Err(text), Some(count)) => format!(in alloc; "{text} left {count}"),
        (Err(text), None) => Ok(text),
    }
}

/// Why a head was refused.
///
/// # Errors
///
/// `AllocError` where an allocation fails for the text.
pub fn describe_refusal(alloc: Global, error: Error<io::Error>) -> Result<String, AllocError> {
    match error {
        Error::Io(e) => String::from_str(alloc, name_io(e.kind())),
        Error::Syntax(offset) => format!(in alloc; "syntax {offset}"),
        Error::TooLong => String::from_str(alloc, "toolong"),
        Error::Memory => String::from_str(alloc, "memory"),
    }
}

// A header as a text; an open length or count is `-`.
fn name_header(alloc: Global, header: Header) -> Result<String, AllocError> {
    match header {
        Header::Positive(n) => format!(in alloc; "positive {n}"),
        Header::Negative(n) => format!(in alloc; "negative {n}"),
        Header::Bytes(len) => name_length(alloc, "bytes", len),
        Header::Text(len) => name_length(alloc, "text", len),
        Header::Array(count) => name_length(alloc, "array", count),
        Header::Map(count) => name_length(alloc, "map", count),
        Header::Tag(n) => format!(in alloc; "tag {n}"),
        Header::Simple(n) => format!(in alloc; "simple {n}"),
        Header::Float(size) => format!(in alloc; "float {size}"),
        Header::Break => String::from_str(alloc, "break"),
    }
}

fn name_length(alloc: Global, name: &str, len: Option<usize>) -> Result<String, AllocError> {
    match len {
        Some(n) => format!(in alloc; "{name} {n}"),
        None => format!(in alloc; "{name} -"),
    }
}

// Whether a header may be pushed.
fn is_writable(header: Header) -> bool
    ensures { IsTrue result → IsWritable header }
{
    match header {
        Header::Simple(n) => n < 24 || n >= 32,
        Header::Float(_) => false,
        _ => true,
    }
}

// The head that an encoder writes, in hex. It is one write, or more where the writer takes few
// bytes, and nothing is flushed.
fn write_head(alloc: Global, header: Header) -> Result<String, AllocError>
    requires { IsWritable header }
{
    let mut writer = Sink::new(alloc, usize::MAX, None);
    if Encoder::new(&mut writer).push(header).is_err() {
        return Err(AllocError);
    }
    if writer.writes != 1 || writer.flushed {
        return String::from_str(alloc, "not one write");
    }
    let mut slow = Sink::new(alloc, 3, None);
    if Encoder::new(&mut slow).push(header).is_err() || slow.held != writer.held {
        return String::from_str(alloc, "other bytes by short writes");
    }
    hex::encode(alloc, &writer.held)
}
