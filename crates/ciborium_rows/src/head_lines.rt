//! Lines on the lowest layer: heads, payloads and integers.

use crate::growth::{find_call, make_call, name_outcome};
use crate::heads::{Question, ask_alike, ask_failing};
use crate::integers::{compare_in_row, describe_number};
use crate::outlines::outline;
use crate::payloads::write_failing;
use crate::pieces::{decode_pieces, parse_limited};
use std::alloc::{AllocError, Global};

/// The answer to a line whose first word is this one, or none where the line is another.
///
/// - `head OFFSET HEX`, `heads OFFSET HEX`: the first head at that offset, with its payload and as
///   it is written again, or each of the heads, with its offset and length
/// - `first HEX`: what `pull_first` gives
/// - `item HEX`: how long the item at the front is, and the offset and depth of each of its heads
/// - `head-faults HEX`, `first-faults HEX`: the same where each read in turn fails
/// - `payload HEX`: what `write_all` puts out where each write in turn fails
/// - `growth CALL`: what comes of that call
/// - `integer NUMBER`, `canonical NUMBER,NUMBER,..`: an integer, and the canonical order
///
/// # Errors
///
/// `AllocError` where an allocation fails for the answer.
pub fn answer_head_line(
    alloc: Global,
    word: &str,
    rest: &str,
) -> Result<Option<String>, AllocError> {
    match word {
        "head" => read_at(alloc, Question::Head, rest),
        "heads" => read_at(alloc, Question::Heads, rest),
        "integer" => describe_number(alloc, rest),
        "growth" => make_named(alloc, rest),
        "canonical" => compare_in_row(alloc, rest),
        "first" | "item" | "head-faults" | "first-faults" | "payload" => answer_bytes(
            alloc, word, rest,
        ),
        _ => Ok(None),
    }
}

// The answer to a line of a word and bytes.
fn answer_bytes(alloc: Global, word: &str, rest: &str) -> Result<Option<String>, AllocError> {
    let Some(bytes) = decode_pieces(alloc, rest)? else {
        return Ok(None);
    };
    let answer = match word {
        "first" => ask_alike(alloc, Question::First, 0, &bytes)?,
        "item" => outline(alloc, &bytes)?,
        "head-faults" => ask_failing(alloc, Question::Head, &bytes)?,
        "first-faults" => ask_failing(alloc, Question::First, &bytes)?,
        _ => write_failing(alloc, &bytes)?,
    };
    Ok(Some(answer))
}

// The answer to `OFFSET HEX`.
fn read_at(alloc: Global, question: Question, rest: &str) -> Result<Option<String>, AllocError> {
    match parse_limited(alloc, rest)? {
        Some((offset, bytes)) => Ok(Some(ask_alike(alloc, question, offset, &bytes)?)),
        None => Ok(None),
    }
}

// The answer to `growth CALL`.
fn make_named(alloc: Global, name: &str) -> Result<Option<String>, AllocError> {
    let Some(call) = find_call(name) else {
        return Ok(None);
    };
    let outcome = name_outcome(make_call(alloc, call));
    Ok(Some(String::from_str(alloc, outcome.trim_end())?))
}
