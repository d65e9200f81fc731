//! Sequences of items, read one by one.

use crate::alike::Alike;
use crate::devices::{Cut, FAILURES, Failure, Source, buffer, cuts_of};
use crate::fronts::show_front;
use crate::refusals::name_io;
use crate::types::Job;
use ciborium::de::{self, Deserialize};
use ciborium::ser::Serialize;
use ciborium::{from_buf_reader_next, from_reader_next};
use std::alloc::{AllocError, Global};
use std::io::{self, BufRead, BufReader, ErrorKind, Read};

/// What is asked of a sequence.
#[derive(Clone, Copy, Debug)]
pub enum Asked {
    /// The items until the end or a refusal.
    Items,
    /// The items until the end, also behind a refusal.
    AllItems,
    /// What is answered where each read fails in turn.
    Faults,
    /// The items of so many such sequences in a row.
    Rows(usize),
}

/// What `from_reader_next` gives of the bytes: each item as `ok HEX`, the end or why the next one
/// is refused, joined by semicolons.
#[derive(Clone, Copy)]
pub struct Sequence<'a> {
    pub asked: Asked,
    pub bytes: &'a [u8],
}

impl Job for Sequence<'_> {
    fn answer<T: Deserialize + Serialize>(&self, alloc: Global) -> Result<String, AllocError> {
        match self.asked {
            Asked::Items => read_alike::<T>(alloc, self.bytes, false),
            Asked::AllItems => read_alike::<T>(alloc, self.bytes, true),
            Asked::Faults => fail_reads::<T>(alloc, self.bytes),
            Asked::Rows(count) => read_rows::<T>(alloc, self.bytes, count),
        }
    }
}

// The sequence of a slice, and `differs: A / B` where it is another one from a reader of few bytes
// a read, from a buffer of one byte or of three over it, or from the slice as a reader with a
// buffer.
fn read_alike<T: Deserialize + Serialize>(
    alloc: Global,
    bytes: &[u8],
    goes_on: bool,
) -> Result<String, AllocError> {
    let text = read_slice::<T>(alloc, bytes, goes_on)?;
    let mut alike = Alike::new(text);
    for cut in cuts_of(bytes) {
        let mut source = Source::new(bytes, cut, None);
        alike.compare(alloc, read_all::<T, Source>(alloc, &mut source, goes_on))?;
        for capacity in [1, 3] {
            let mut reader = buffer(alloc, capacity, Source::new(bytes, cut, None))?;
            alike.compare(
                alloc,
                read_held::<T, BufReader<Source<'_>>>(alloc, &mut reader, goes_on),
            )?;
        }
    }
    let mut rest = bytes;
    alike.compare(alloc, read_held::<T, &[u8]>(alloc, &mut rest, goes_on))?;
    Ok(alike.into_text())
}

// `N times SEQUENCE` where so many rows of these bytes give the items of one so many times, and
// then end; else what they give.
fn read_rows<T: Deserialize + Serialize>(
    alloc: Global,
    bytes: &[u8],
    count: usize,
) -> Result<String, AllocError> {
    let mut rows = Vec::new(alloc);
    for _ in 0..count {
        rows.extend_from_slice(bytes)?;
    }
    let row = read_alike::<T>(alloc, bytes, false)?;
    let all = read_alike::<T>(alloc, &rows, false)?;
    if is_repeated(all.as_str(), row.as_str(), count) {
        format!(in alloc; "{count} times {row}")
    } else {
        Ok(all)
    }
}

// Whether these are the items of a row so many times, and then the end.
fn is_repeated(all: &str, row: &str, count: usize) -> bool {
    let Some(items) = row.strip_suffix("end") else {
        return false;
    };
    let mut rest = all;
    for _ in 0..count {
        let Some(behind) = rest.strip_prefix(items) else {
            return false;
        };
        rest = behind;
    }
    rest == "end"
}

// The items of a slice.
fn read_slice<T: Deserialize + Serialize>(
    alloc: Global,
    bytes: &[u8],
    goes_on: bool,
) -> Result<String, AllocError> {
    let mut rest = bytes;
    read_all::<T, &[u8]>(alloc, &mut rest, goes_on)
}

// The items of a reader until the end or a refusal, or if it goes on until the end.
fn read_all<T: Deserialize + Serialize, R: Read>(
    alloc: Global,
    reader: &mut R,
    goes_on: bool,
) -> Result<String, AllocError> {
    let mut text = String::new(alloc);
    for _ in 0..u64::MAX {
        let next = from_reader_next::<T, R>(alloc, reader);
        if !push_item(alloc, next, goes_on, &mut text)? {
            return Ok(text);
        }
    }
    Ok(text)
}

// The same of a reader with a buffer.
fn read_held<T: Deserialize + Serialize, R: BufRead>(
    alloc: Global,
    reader: &mut R,
    goes_on: bool,
) -> Result<String, AllocError> {
    let mut text = String::new(alloc);
    for _ in 0..u64::MAX {
        let next = from_buf_reader_next::<T, R>(alloc, reader);
        if !push_item(alloc, next, goes_on, &mut text)? {
            return Ok(text);
        }
    }
    Ok(text)
}

// Puts an item, the end or why the next one is refused behind the text, and says whether to go on.
fn push_item<T: Serialize + Drop>(
    alloc: Global,
    next: Result<Option<T>, de::Error<io::Error>>,
    goes_on: bool,
    text: &mut String,
) -> Result<bool, AllocError> {
    let answer = match next {
        Ok(Some(value)) => show_front(alloc, Ok(value))?,
        Ok(None) => {
            text.push_str("end")?;
            return Ok(false);
        }
        Err(error) => show_front::<T>(alloc, Err(error))?,
    };
    match answer {
        Ok(digits) => {
            text.push_str("ok ")?;
            text.push_str(digits.as_str())?;
        }
        Err(refusal) => {
            text.push_str(refusal.as_str())?;
            if !goes_on {
                return Ok(false);
            }
        }
    }
    text.push_str("; ")?;
    Ok(true)
}

// `io after 0 1 1 items, then SEQUENCE` where each read of one byte, failing, ends the sequence as
// that failure, behind the first so many of its items; else `read K: ..`, of the first such read. A
// first read of an item that gives nothing is the end of the sequence.
fn fail_reads<T: Deserialize + Serialize>(
    alloc: Global,
    bytes: &[u8],
) -> Result<String, AllocError> {
    let failure = Failure::Kind(ErrorKind::Interrupted);
    let text = fail_each_read::<T>(alloc, bytes, failure)?;
    let mut alike = Alike::new(text);
    for failure in FAILURES {
        alike.compare(alloc, fail_each_read::<T>(alloc, bytes, failure))?;
        if let Failure::Kind(_) = failure {
            alike.compare(alloc, fail_each_fill::<T>(alloc, bytes, failure))?;
        }
    }
    Ok(alike.into_text())
}

// The same for one way to fail. There are no more reads than bytes, and one that finds the end.
fn fail_each_read<T: Deserialize + Serialize>(
    alloc: Global,
    bytes: &[u8],
    failure: Failure,
) -> Result<String, AllocError> {
    let whole = read_slice::<T>(alloc, bytes, false)?;
    let mut counts = Counts {
        failure,
        last: None,
        answer: String::from_str(alloc, "io after")?,
    };
    for at in 0..bytes.len().saturating_add(2) {
        if fail_read::<T>(alloc, bytes, at, whole.as_str(), &mut counts)? {
            return Ok(counts.answer);
        }
    }
    String::from_str(alloc, "reads without end")
}

// The same where the reader stands behind a buffer of one byte. Where the sequence may end such a
// one asks twice, and only the first of these reads is made to fail.
fn fail_each_fill<T: Deserialize + Serialize>(
    alloc: Global,
    bytes: &[u8],
    failure: Failure,
) -> Result<String, AllocError> {
    let whole = read_slice::<T>(alloc, bytes, false)?;
    let mut counts = Counts {
        failure,
        last: None,
        answer: String::from_str(alloc, "io after")?,
    };
    for number in 0..bytes.len().saturating_add(2) {
        let at = if number > bytes.len() {
            usize::MAX
        } else {
            number
        };
        let source = Source::new(bytes, Cut::Most(1), Some((at, failure)));
        let mut reader = buffer(alloc, 1, source)?;
        let text = read_held::<T, BufReader<Source<'_>>>(alloc, &mut reader, false)?;
        let failed = reader.get_ref().failed;
        if push_read(
            alloc,
            (whole.as_str(), text.as_str()),
            at,
            failed,
            &mut counts,
        )? {
            return Ok(counts.answer);
        }
    }
    String::from_str(alloc, "reads without end")
}

// How reads fail, how many items stood before the last that did, and the answer so far.
#[derive(Drop)]
struct Counts {
    failure: Failure,
    last: Option<usize>,
    answer: String,
}

// Puts what the sequence is where one read fails behind the answer, and says whether that ends it.
fn fail_read<T: Deserialize + Serialize>(
    alloc: Global,
    bytes: &[u8],
    at: usize,
    whole: &str,
    counts: &mut Counts,
) -> Result<bool, AllocError> {
    let mut source = Source::new(bytes, Cut::Most(1), Some((at, counts.failure)));
    let text = read_all::<T, Source>(alloc, &mut source, false)?;
    push_read(alloc, (whole, text.as_str()), at, source.failed, counts)
}

// The same of what was read, where the read has failed or not.
fn push_read(
    alloc: Global,
    (whole, text): (&str, &str),
    at: usize,
    failed: bool,
    counts: &mut Counts,
) -> Result<bool, AllocError> {
    if failed {
        return push_count(alloc, whole, text, at, counts);
    }
    counts.answer.push_str(" items, then ")?;
    counts.answer.push_str(text)?;
    Ok(true)
}

// Puts the number of items before the failure behind the answer, unless there is another one.
fn push_count(
    alloc: Global,
    whole: &str,
    text: &str,
    at: usize,
    counts: &mut Counts,
) -> Result<bool, AllocError> {
    let number = text.matches(';').count();
    let is_first = counts.last != Some(number);
    if is_cut_by(whole, text, word_of(counts.failure, is_first)) {
        counts.last = Some(number);
        counts
            .answer
            .push_str(format!(in alloc; " {number}")?.as_str())?;
        return Ok(false);
    }
    counts.answer = format!(in alloc; "read {at}: {text}")?;
    Ok(true)
}

// What the sequence ends with where a read fails, the first of an item or another.
fn word_of(failure: Failure, is_first: bool) -> &'static str {
    match failure {
        Failure::Kind(kind) => name_io(kind),
        Failure::Nothing | Failure::End => {
            if is_first {
                "end"
            } else {
                name_io(ErrorKind::UnexpectedEof)
            }
        }
    }
}

// Whether the text is the first items of the whole sequence, and then this word.
fn is_cut_by(whole: &str, text: &str, word: &str) -> bool {
    match text.strip_suffix(word) {
        Some(items) => whole.starts_with(items),
        None => false,
    }
}
