//! Lines on heads: what a decoder pulls from the bytes of a line, and why it refuses.

use crate::alike::Alike;
use crate::devices::{Cut, FAILURES, Failure, Source, buffer, cuts_of, left_behind};
use crate::faults::judge_fault;
use crate::header_texts::{Front, Pulled, describe_front, describe_refusal, show_front};
use ciborium::ll::{Access, Buffered, Decoder, Error, Header, Plain, Slice};
use std::alloc::{AllocError, Global};
use std::io::{self, BufReader, ErrorKind};

/// What is asked of a decoder.
#[derive(Clone, Copy, Debug)]
pub enum Question {
    /// A head, and the payload behind it where it begins a string.
    Head,
    /// One such after another, until one is refused.
    Heads,
    /// `pull_first`.
    First,
}

// The offset of the first byte, and the size of the scratch.
#[derive(Clone, Copy)]
struct Way {
    offset: usize,
    scratch: usize,
}

// How many bytes a buffer holds at most.
const CAPACITIES: [usize; 4] = [1, 2, 3, 4096];

/// What the question gives at these bytes, with the number of bytes that are left where it is
/// refused: from a plain reader of the slice, with a scratch of 0, 1 and 4096 bytes, from readers
/// of one byte a read, of three and of drawn numbers, from buffers of 1, 2, 3 and 4096 bytes over
/// each of them, and from the slice where it stands. `differs: A / B` where one of these gives
/// something else than the first.
///
/// # Errors
///
/// `AllocError` where an allocation fails for the text.
pub fn ask_alike(
    alloc: Global,
    question: Question,
    offset: usize,
    bytes: &[u8],
) -> Result<String, AllocError> {
    let text = ask_slice::<Plain>(alloc, question, offset, bytes, 0)?;
    let mut alike = Alike::new(text);
    for scratch in [1, 4096] {
        alike.compare(
            alloc,
            ask_slice::<Plain>(alloc, question, offset, bytes, scratch),
        )?;
        alike.compare(
            alloc,
            ask_slice::<Slice>(alloc, question, offset, bytes, scratch),
        )?;
        alike.compare(
            alloc,
            ask_slice::<Buffered>(alloc, question, offset, bytes, scratch),
        )?;
    }
    for cut in cuts_of(bytes) {
        alike.compare(alloc, ask_slowly(alloc, question, offset, bytes, cut))?;
        for capacity in CAPACITIES {
            let answer = ask_buffer(alloc, question, offset, bytes, (cut, capacity));
            alike.compare(alloc, answer)?;
        }
    }
    Ok(alike.into_text())
}

// The answer from a slice.
fn ask_slice<'s, A: Access<&'s [u8]>>(
    alloc: Global,
    question: Question,
    offset: usize,
    bytes: &'s [u8],
    scratch: usize,
) -> Result<String, AllocError> {
    let mut rest = bytes;
    let way = Way { offset, scratch };
    let pulled = ask::<&'s [u8], A>(alloc, question, way, &mut rest)?;
    describe_front(alloc, pulled, Some(rest.len()))
}

// The answer from a reader that cuts its bytes so.
fn ask_slowly(
    alloc: Global,
    question: Question,
    offset: usize,
    bytes: &[u8],
    cut: Cut,
) -> Result<String, AllocError> {
    let mut source = Source::new(bytes, cut, None);
    let way = Way { offset, scratch: 2 };
    let pulled = ask::<Source<'_>, Plain>(alloc, question, way, &mut source)?;
    describe_front(alloc, pulled, Some(source.left()))
}

// The answer from a buffer of so many bytes over such a reader.
fn ask_buffer(
    alloc: Global,
    question: Question,
    offset: usize,
    bytes: &[u8],
    (cut, capacity): (Cut, usize),
) -> Result<String, AllocError> {
    let source = Source::new(bytes, cut, None);
    let mut reader = buffer(alloc, capacity, source)?;
    let way = Way { offset, scratch: 2 };
    let pulled = ask::<BufReader<Source<'_>>, Buffered>(alloc, question, way, &mut reader)?;
    describe_front(alloc, pulled, Some(left_behind(&reader)))
}

/// What the question gives where each read in turn fails, from a reader of one byte a read: `io at
/// N reads, then A`, where each of the first N reads has its fault answered, and without them the
/// answer is A. A first head has no fault where its first read gives nothing: that is the end. A
/// buffer of one byte answers the same, but where it may end it asks twice, which is not tried.
///
/// # Errors
///
/// `AllocError` where an allocation fails for the text.
pub fn ask_failing(alloc: Global, question: Question, bytes: &[u8]) -> Result<String, AllocError> {
    let interrupted = Failure::Kind(ErrorKind::Interrupted);
    let text = fail_by(alloc, question, bytes, interrupted, Held::Nothing)?;
    let mut alike = Alike::new(text);
    for failure in FAILURES {
        alike.compare(
            alloc,
            fail_by(alloc, question, bytes, failure, Held::Nothing),
        )?;
        if !is_end(question, (0, failure)) && !bytes.is_empty() {
            alike.compare(
                alloc,
                fail_by(alloc, question, bytes, failure, Held::OneByte),
            )?;
        }
    }
    Ok(alike.into_text())
}

// What stands between a reader that fails and the decoder.
#[derive(Clone, Copy)]
enum Held {
    Nothing,
    OneByte,
}

// The same of one way to fail.
fn fail_by(
    alloc: Global,
    question: Question,
    bytes: &[u8],
    failure: Failure,
    held: Held,
) -> Result<String, AllocError> {
    for at in 0..usize::MAX {
        let fault = (at, failure);
        let answer = match held {
            Held::Nothing => fail_read(alloc, question, bytes, fault)?,
            Held::OneByte => fail_fill(alloc, question, bytes, fault)?,
        };
        if let Some(end) = answer {
            return Ok(end);
        }
    }
    String::from_str(alloc, "no end")
}

// How a decoder is asked whose reader fails.
const FAILING: Way = Way {
    offset: 0,
    scratch: 4,
};

// What is said of the question where one read fails, unless just that failure is the answer.
fn fail_read(
    alloc: Global,
    question: Question,
    bytes: &[u8],
    fault: (usize, Failure),
) -> Result<Option<String>, AllocError> {
    let mut source = Source::new(bytes, Cut::Most(1), Some(fault));
    let pulled = ask::<Source<'_>, Plain>(alloc, question, FAILING, &mut source)?;
    let text = describe_front(alloc, pulled, None)?;
    if is_end(question, fault) && source.failed && text.as_str() == "none end 0" {
        return Ok(None);
    }
    judge_fault(alloc, text.as_str(), source.failed, fault)
}

// The same where one fill of a buffer of one byte fails.
fn fail_fill(
    alloc: Global,
    question: Question,
    bytes: &[u8],
    fault: (usize, Failure),
) -> Result<Option<String>, AllocError> {
    let source = Source::new(bytes, Cut::Most(1), Some(fault));
    let mut reader = buffer(alloc, 1, source)?;
    let pulled = ask::<BufReader<Source<'_>>, Buffered>(alloc, question, FAILING, &mut reader)?;
    let text = describe_front(alloc, pulled, None)?;
    judge_fault(alloc, text.as_str(), reader.get_ref().failed, fault)
}

// Whether there is no first head where this read fails so.
fn is_end(question: Question, (at, failure): (usize, Failure)) -> bool {
    matches!(question, Question::First)
        && at == 0
        && matches!(failure, Failure::Nothing | Failure::End)
}

// What the question gives.
fn ask<R, A: Access<R>>(
    alloc: Global,
    question: Question,
    way: Way,
    reader: &mut R,
) -> Result<Pulled, AllocError> {
    match question {
        Question::Head => ask_head::<R, A>(alloc, way, reader),
        Question::Heads => ask_heads::<R, A>(alloc, way, reader),
        Question::First => ask_first::<R, A>(alloc, reader),
    }
}

// One head, with its payload.
fn ask_head<R, A: Access<R>>(
    alloc: Global,
    way: Way,
    reader: &mut R,
) -> Result<Pulled, AllocError> {
    let mut scratch = Vec::new(alloc);
    scratch.resize(way.scratch, 0)?;
    let mut decoder = Decoder::<R, A>::begin(reader, way.offset);
    match take_front(alloc, &mut decoder, &mut scratch) {
        Ok(front) => Ok(Ok(show_front(alloc, &front)?)),
        Err(error) => Ok(Err(describe_refusal(alloc, error)?)),
    }
}

// One head after another, each with its payload, its offset and its length, until one is refused.
fn ask_heads<R, A: Access<R>>(
    alloc: Global,
    way: Way,
    reader: &mut R,
) -> Result<Pulled, AllocError> {
    let mut scratch = Vec::new(alloc);
    scratch.resize(way.scratch, 0)?;
    let mut decoder = Decoder::<R, A>::begin(reader, way.offset);
    let mut text = String::new(alloc);
    for _ in 0..usize::MAX {
        let pulled = take_front(alloc, &mut decoder, &mut scratch);
        let place = (decoder.last_offset(), decoder.head_len());
        if !push_front(alloc, pulled, place, &mut text)? {
            return Ok(Err(text));
        }
    }
    Ok(Ok(text))
}

// Puts a head with its offset and its length behind the text, or why it is refused, and answers
// whether it was pulled.
fn push_front(
    alloc: Global,
    pulled: Result<Front, Error<io::Error>>,
    (at, len): (usize, usize),
    text: &mut String,
) -> Result<bool, AllocError> {
    match pulled {
        Ok(front) => {
            let shown = show_front(alloc, &front)?;
            text.push_str(format!(in alloc; "{shown} at {at} len {len}; ")?.as_str())?;
            Ok(true)
        }
        Err(error) => {
            text.push_str(describe_refusal(alloc, error)?.as_str())?;
            Ok(false)
        }
    }
}

// The first head, if there is one, with its length.
fn ask_first<R, A: Access<R>>(alloc: Global, reader: &mut R) -> Result<Pulled, AllocError> {
    let mut decoder = Decoder::<R, A>::begin(reader, 0);
    match decoder.pull_first() {
        Ok(None) => {
            let end = decoder.offset();
            Ok(Ok(format!(in alloc; "none end {end}")?))
        }
        Ok(Some(header)) => {
            let front = Front {
                header,
                payload: Vec::new(alloc),
                end: decoder.offset(),
            };
            let shown = show_front(alloc, &front)?;
            let len = decoder.head_len();
            Ok(Ok(format!(in alloc; "{shown} len {len}")?))
        }
        Err(error) => Ok(Err(describe_refusal(alloc, error)?)),
    }
}

// Takes a head, and a payload where it begins a string.
fn take_front<R, A: Access<R>>(
    alloc: Global,
    decoder: &mut Decoder<'_, R, A>,
    scratch: &mut [u8],
) -> Result<Front, Error<io::Error>> {
    let header = decoder.pull()?;
    let payload = match header {
        Header::Bytes(len) => {
            let mut bytes = Vec::new(alloc);
            decoder.bytes_into(len, scratch, &mut bytes)?;
            bytes
        }
        Header::Text(len) => {
            let mut text = String::new(alloc);
            decoder.text_into(len, scratch, &mut text)?;
            text.into_bytes()
        }
        _ => Vec::new(alloc),
    };
    Ok(Front {
        header,
        payload,
        end: decoder.offset(),
    })
}
