//! What the bytes of a line give at their front, read in several ways.

use crate::alike::Alike;
use crate::devices::{Cut, Source, buffer, cuts_of, left_behind};
use crate::refusals::{describe_read, describe_tree};
use crate::types::Job;
use crate::writes::read_whole;
use ciborium::de::{self, Deserialize};
use ciborium::ser::Serialize;
use ciborium::value::{self, Kind, Value};
use ciborium::{
    from_buf_reader, from_buf_reader_deterministic, from_buf_reader_with_recursion_limit,
    from_reader, from_reader_deterministic, from_reader_with_buffer,
    from_reader_with_recursion_limit, from_slice_with_recursion_limit, into_writer,
};
use std::alloc::{AllocError, Global};
use std::io::{self, BufRead, BufReader, Read};

/// The limit of `from_reader`.
pub const USUAL_LIMIT: usize = 256;

/// A call that reads.
#[derive(Clone, Copy, Debug)]
pub enum Call {
    /// `from_reader`.
    Plain,
    /// `from_reader_with_recursion_limit`, with this limit.
    Limited(usize),
    /// `from_reader_with_buffer`, with a scratch of so many bytes.
    Scratch(usize),
    /// `from_reader_deterministic`, with this limit.
    Strict(usize),
}

/// What was read, in hex, or why it was refused.
pub type Front = Result<String, String>;

/// What the bytes give as a type within the limit, and what the value of the bytes gives.
#[derive(Clone, Copy)]
pub struct Reading<'a> {
    pub limit: usize,
    pub bytes: &'a [u8],
}

impl Job for Reading<'_> {
    fn answer<T: Deserialize + Serialize>(&self, alloc: Global) -> Result<String, AllocError> {
        let mut text = read_alike::<T>(alloc, Call::Limited(self.limit), self.bytes)?;
        text.push_str(" | ")?;
        text.push_str(read_tree::<T>(alloc, self.bytes)?.as_str())?;
        Ok(text)
    }
}

/// What a call gives of the front of the bytes, from the slice as a plain reader and from readers
/// of one byte a read, of three and of drawn numbers; also from buffers of one byte and of three
/// over these, from the slice as a reader with a buffer, and from the slice of the item alone;
/// where the limit is the usual one also with other calls and sizes of a scratch. `differs: A / B`
/// where one of them gives something else than the first.
///
/// # Errors
///
/// `AllocError` where an allocation fails for the text.
pub fn read_alike<T: Deserialize + Serialize>(
    alloc: Global,
    call: Call,
    bytes: &[u8],
) -> Result<String, AllocError> {
    let text = read_slice::<T>(alloc, call, bytes)?;
    let mut alike = Alike::new(text);
    for cut in cuts_of(bytes) {
        alike.compare(alloc, read_slowly::<T>(alloc, call, bytes, cut))?;
        for capacity in [1, 3] {
            let answer = read_buffer::<T>(alloc, call, bytes, (cut, capacity));
            alike.compare(alloc, answer)?;
        }
    }
    alike.compare(alloc, read_held::<T>(alloc, call, bytes))?;
    if let Call::Limited(limit) = call {
        alike.compare(alloc, read_alone::<T>(alloc, limit, bytes))?;
    }
    if matches!(call, Call::Limited(USUAL_LIMIT)) {
        compare_others::<T>(alloc, bytes, &mut alike)?;
    }
    Ok(alike.into_text())
}

// Compares what the other calls with the usual limit give.
fn compare_others<T: Deserialize + Serialize>(
    alloc: Global,
    bytes: &[u8],
    alike: &mut Alike,
) -> Result<(), AllocError> {
    for call in [
        Call::Plain,
        Call::Scratch(0),
        Call::Scratch(1),
        Call::Scratch(4096),
    ] {
        alike.compare(alloc, read_slice::<T>(alloc, call, bytes))?;
        alike.compare(alloc, read_slowly::<T>(alloc, call, bytes, Cut::Most(1)))?;
    }
    Ok(())
}

// What a call gives of the front of a slice, and how many bytes it leaves.
fn read_slice<T: Deserialize + Serialize>(
    alloc: Global,
    call: Call,
    bytes: &[u8],
) -> Result<String, AllocError> {
    let mut rest = bytes;
    let front = ask_call::<T, &[u8]>(alloc, call, &mut rest)?;
    describe_front(alloc, front, rest.len())
}

// The same of a reader that cuts its bytes so.
fn read_slowly<T: Deserialize + Serialize>(
    alloc: Global,
    call: Call,
    bytes: &[u8],
    cut: Cut,
) -> Result<String, AllocError> {
    let mut source = Source::new(bytes, cut, None);
    let front = ask_call::<T, Source>(alloc, call, &mut source)?;
    describe_front(alloc, front, source.left())
}

// The same of a buffer of so many bytes over such a reader.
fn read_buffer<T: Deserialize + Serialize>(
    alloc: Global,
    call: Call,
    bytes: &[u8],
    (cut, capacity): (Cut, usize),
) -> Result<String, AllocError> {
    let source = Source::new(bytes, cut, None);
    let mut reader = buffer(alloc, capacity, source)?;
    let front = ask_buffer::<T, BufReader<Source<'_>>>(alloc, call, &mut reader)?;
    describe_front(alloc, front, left_behind(&reader))
}

// The same of the slice as a reader with a buffer.
fn read_held<T: Deserialize + Serialize>(
    alloc: Global,
    call: Call,
    bytes: &[u8],
) -> Result<String, AllocError> {
    let mut rest = bytes;
    let front = ask_buffer::<T, &[u8]>(alloc, call, &mut rest)?;
    describe_front(alloc, front, rest.len())
}

// The same of the slice of the item alone: where bytes behind it are refused, up to there.
fn read_alone<T: Deserialize + Serialize>(
    alloc: Global,
    limit: usize,
    bytes: &[u8],
) -> Result<String, AllocError> {
    let (item, behind) = match from_slice_with_recursion_limit::<T>(alloc, bytes, limit) {
        Err(de::Error::Semantic(Some(end), Kind::TrailingData)) if end < bytes.len() => {
            bytes.split_at(end)
        }
        answer => {
            let front = show_front(alloc, answer)?;
            return describe_front(alloc, front, 0);
        }
    };
    let answer = from_slice_with_recursion_limit::<T>(alloc, item, limit);
    let front = show_front(alloc, answer)?;
    describe_front(alloc, front, behind.len())
}

/// What the call for a reader with a buffer gives, whatever the scratch.
///
/// # Errors
///
/// `AllocError` where an allocation fails for the text.
pub fn ask_buffer<T: Deserialize + Serialize, R: BufRead>(
    alloc: Global,
    call: Call,
    reader: &mut R,
) -> Result<Front, AllocError> {
    match call {
        Call::Plain | Call::Scratch(_) => show_front::<T>(alloc, from_buf_reader(alloc, reader)),
        Call::Limited(limit) => {
            let answer = from_buf_reader_with_recursion_limit(alloc, reader, limit);
            show_front::<T>(alloc, answer)
        }
        Call::Strict(limit) => {
            show_front(alloc, from_buf_reader_deterministic(alloc, reader, limit))
        }
    }
}

/// What the call gives. The strict one reads a `Value`, whatever the type.
///
/// # Errors
///
/// `AllocError` where an allocation fails for the text.
pub fn ask_call<T: Deserialize + Serialize, R: Read>(
    alloc: Global,
    call: Call,
    reader: &mut R,
) -> Result<Front, AllocError> {
    match call {
        Call::Plain => show_front::<T>(alloc, from_reader(alloc, reader)),
        Call::Limited(limit) => {
            show_front::<T>(
                alloc,
                from_reader_with_recursion_limit(alloc, reader, limit),
            )
        }
        Call::Scratch(size) => ask_with_scratch::<T, R>(alloc, size, reader),
        Call::Strict(limit) => show_front(alloc, from_reader_deterministic(alloc, reader, limit)),
    }
}

// What the call with a scratch of so many bytes gives.
fn ask_with_scratch<T: Deserialize + Serialize, R: Read>(
    alloc: Global,
    size: usize,
    reader: &mut R,
) -> Result<Front, AllocError> {
    let mut scratch = Vec::new(alloc);
    scratch.resize(size, 0)?;
    show_front::<T>(alloc, from_reader_with_buffer(alloc, reader, &mut scratch))
}

/// What was read, in hex, or why it was refused.
///
/// # Errors
///
/// `AllocError` where an allocation fails for the text.
pub fn show_front<T: Serialize + Drop>(
    alloc: Global,
    answer: Result<T, de::Error<io::Error>>,
) -> Result<Front, AllocError> {
    match answer {
        Ok(value) => Ok(Ok(encode_to_hex(alloc, &value)?)),
        Err(error) => Ok(Err(describe_read(alloc, error)?)),
    }
}

/// A front as a text, with the number of bytes that are left behind it.
///
/// # Errors
///
/// `AllocError` where an allocation fails for the text.
pub fn describe_front(alloc: Global, front: Front, left: usize) -> Result<String, AllocError> {
    match front {
        Ok(digits) => format!(in alloc; "ok {digits} {left}"),
        Err(text) => Ok(text),
    }
}

// What the value of the bytes, read without a limit, gives; `none` where they are no value.
fn read_tree<T: Deserialize + Serialize>(
    alloc: Global,
    bytes: &[u8],
) -> Result<String, AllocError> {
    match read_whole::<Value>(alloc, bytes) {
        Some(tree) => show_tree(alloc, tree.deserialized::<T>(alloc)),
        None => String::from_str(alloc, "none"),
    }
}

// What a tree gave, in hex, or why it was refused.
fn show_tree<T: Serialize + Drop>(
    alloc: Global,
    answer: Result<T, value::Error>,
) -> Result<String, AllocError> {
    match answer {
        Ok(value) => {
            let digits = encode_to_hex(alloc, &value)?;
            format!(in alloc; "ok {digits}")
        }
        Err(error) => describe_tree(alloc, error),
    }
}

/// What a value writes, in lower-case hex. Each type here has an item for each value that is read,
/// so that memory alone is refused.
///
/// # Errors
///
/// `AllocError` where an allocation fails.
pub fn encode_to_hex<T: Serialize>(alloc: Global, value: &T) -> Result<String, AllocError> {
    let mut bytes = Vec::new(alloc);
    if into_writer(value, &mut bytes).is_err() {
        return Err(AllocError);
    }
    hex::encode(alloc, &bytes)
}
