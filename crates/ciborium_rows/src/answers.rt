//! The lines of an input, each with its answer.

use crate::counts::CountedReads;
use crate::faults::{FailedReads, fail_reads};
use crate::forms::{answer_falling, answer_form};
use crate::fronts::{Call, Reading, read_alike};
use crate::head_lines::answer_head_line;
use crate::lines::read_line;
use crate::literals::write_literal;
use crate::loads::Loading;
use crate::notations::{Lines, answer_notation};
use crate::offsets::read_at_offset;
use crate::orders::{answer_sort, answer_visits};
use crate::pieces::{decode_pieces, parse_limited, parse_typed, split_number};
use crate::sequences::{Asked, Sequence};
use crate::types::ask_type;
use crate::writes::Writing;
use crate::written_types::write_type;
use ciborium::value::{BytewiseValue, CanonicalValue, KeyOrder, Value};
use std::alloc::{AllocError, Global};
use std::io::{self, BufReader, ErrorKind, Read, Write};

/// Answers each line of the input by `LINE = ANSWER` on the output. An empty line, and one that
/// begins with `#`, is written as it is. The answer to any other is `unknown line`.
///
/// # Errors
///
/// The first one: the input or the output fails, or an allocation fails for a line.
pub fn answer_lines<R: Read, W: Write>(
    alloc: Global,
    input: &mut R,
    output: &mut W,
) -> io::Result<()> {
    let mut reader = BufReader::new(alloc, input)?;
    let mut line = Vec::new(alloc);
    for _ in 0..u64::MAX {
        if !read_line(&mut reader, &mut line)? {
            return Ok(());
        }
        complete_line(alloc, &mut line)?;
        output.write_all(&line)?;
    }
    Err(io::Error::from(ErrorKind::Other))
}

// Puts the answer behind a line that has one, and a line feed.
fn complete_line(alloc: Global, line: &mut Vec<u8>) -> Result<(), AllocError> {
    if !line.is_empty() && !line.starts_with(b"#") {
        let answer = answer_line(alloc, line)?;
        line.extend_from_slice(b" = ")?;
        line.extend_from_slice(answer.as_bytes())?;
    }
    line.extend_from_slice(b"\n")
}

// The answer to a line.
fn answer_line(alloc: Global, line: &[u8]) -> Result<String, AllocError> {
    let answer = match split_word(line) {
        Some((word, rest)) => answer_words(alloc, word, rest)?,
        None => None,
    };
    match answer {
        Some(text) => Ok(text),
        None => String::from_str(alloc, "unknown line"),
    }
}

// The first word of a line, and what stands behind the blank.
fn split_word(line: &[u8]) -> Option<(&str, &str)> {
    str::from_utf8(line).ok()?.split_once(' ')
}

// The answer to a line by its first word, or none where the line is another.
fn answer_words(alloc: Global, word: &str, rest: &str) -> Result<Option<String>, AllocError> {
    match answer_head_line(alloc, word, rest)? {
        Some(answer) => Ok(Some(answer)),
        None => answer_value_line(alloc, word, rest),
    }
}

// The same of a line on values that are written or ordered, or any other one.
fn answer_value_line(alloc: Global, word: &str, rest: &str) -> Result<Option<String>, AllocError> {
    match word {
        "write" => write_value(alloc, rest, Writing::Whole),
        "write-faults" => write_value(alloc, rest, Writing::Failing),
        "sort" => answer_sort::<CanonicalValue>(alloc, rest),
        "sort-core" => answer_sort::<BytewiseValue>(alloc, rest),
        "visits" => answer_visits(alloc, rest, KeyOrder::LengthFirst),
        "visits-core" => answer_visits(alloc, rest, KeyOrder::Bytewise),
        "form" => answer_form(alloc, rest, KeyOrder::LengthFirst),
        "form-core" => answer_form(alloc, rest, KeyOrder::Bytewise),
        "falling" => answer_falling(alloc, rest, KeyOrder::LengthFirst),
        "falling-core" => answer_falling(alloc, rest, KeyOrder::Bytewise),
        "literal" => write_literal(alloc, rest),
        "notation" => answer_notation(alloc, rest, Lines::One),
        "indented" => answer_notation(alloc, rest, Lines::Many),
        _ => answer_reading(alloc, word, rest),
    }
}

// The same of a line on bytes that are read.
fn answer_reading(alloc: Global, word: &str, rest: &str) -> Result<Option<String>, AllocError> {
    match word {
        "at" => read_at_offset(alloc, rest),
        "again" => read_again(alloc, rest),
        "loaded" => load(alloc, rest, KeyOrder::LengthFirst),
        "loaded-core" => load(alloc, rest, KeyOrder::Bytewise),
        "asked" => count_reading(alloc, rest),
        "faults" => fail_reading(alloc, rest),
        "det" => read_strictly(alloc, rest),
        "det-faults" => fail_strict_reading(alloc, rest),
        "next" => read_sequence(alloc, rest, Asked::Items),
        "next-on" => read_sequence(alloc, rest, Asked::AllItems),
        "next-faults" => read_sequence(alloc, rest, Asked::Faults),
        "next-rows" => read_rows(alloc, rest),
        _ => read_type(alloc, word, rest),
    }
}

// `TYPE LIMIT HEX`: what the bytes give, and what the value of the bytes gives.
fn read_type(alloc: Global, name: &str, rest: &str) -> Result<Option<String>, AllocError> {
    match parse_limited(alloc, rest)? {
        Some((limit, bytes)) => {
            let reading = Reading {
                limit,
                bytes: &bytes,
            };
            ask_type(alloc, name, &reading)
        }
        None => Ok(None),
    }
}

// `again TYPE LIMIT HEX`: what `TYPE LIMIT HEX` answers, but `again` where all that is read is
// written as these very bytes.
fn read_again(alloc: Global, rest: &str) -> Result<Option<String>, AllocError> {
    let Some((name, limit, bytes)) = parse_typed(alloc, rest)? else {
        return Ok(None);
    };
    let reading = Reading {
        limit,
        bytes: &bytes,
    };
    let Some(text) = ask_type(alloc, name, &reading)? else {
        return Ok(None);
    };
    let digits = hex::encode(alloc, &bytes)?;
    let same = format!(in alloc; "ok {digits} 0 | ok {digits}")?;
    if text == same {
        return Ok(Some(String::from_str(alloc, "again")?));
    }
    Ok(Some(text))
}

// `loaded TYPE LIMIT HEX`, and `loaded-core` by the other order of keys: what the bytes load.
fn load(alloc: Global, rest: &str, order: KeyOrder) -> Result<Option<String>, AllocError> {
    let Some((name, limit, bytes)) = parse_typed(alloc, rest)? else {
        return Ok(None);
    };
    let loading = Loading {
        order,
        limit,
        bytes: &bytes,
    };
    ask_type(alloc, name, &loading)
}

// `asked TYPE LIMIT HEX`: what the bytes give, and how often their reader is asked.
fn count_reading(alloc: Global, rest: &str) -> Result<Option<String>, AllocError> {
    let Some((name, limit, bytes)) = parse_typed(alloc, rest)? else {
        return Ok(None);
    };
    let counted = CountedReads {
        limit,
        bytes: &bytes,
    };
    ask_type(alloc, name, &counted)
}

// `faults TYPE LIMIT HEX`: what the bytes give where each read fails in turn.
fn fail_reading(alloc: Global, rest: &str) -> Result<Option<String>, AllocError> {
    let Some((name, limit, bytes)) = parse_typed(alloc, rest)? else {
        return Ok(None);
    };
    let faults = FailedReads {
        call: Call::Limited(limit),
        bytes: &bytes,
    };
    ask_type(alloc, name, &faults)
}

// `det LIMIT HEX`: what a deterministic reader gives of the bytes.
fn read_strictly(alloc: Global, rest: &str) -> Result<Option<String>, AllocError> {
    match parse_limited(alloc, rest)? {
        Some((limit, bytes)) => {
            let text = read_alike::<Value>(alloc, Call::Strict(limit), &bytes)?;
            Ok(Some(text))
        }
        None => Ok(None),
    }
}

// `det-faults LIMIT HEX`: the same where each read fails in turn.
fn fail_strict_reading(alloc: Global, rest: &str) -> Result<Option<String>, AllocError> {
    match parse_limited(alloc, rest)? {
        Some((limit, bytes)) => {
            let text = fail_reads::<Value>(alloc, Call::Strict(limit), &bytes)?;
            Ok(Some(text))
        }
        None => Ok(None),
    }
}

// `next TYPE HEX` and its kin: the items of a sequence.
fn read_sequence(alloc: Global, rest: &str, asked: Asked) -> Result<Option<String>, AllocError> {
    let Some((name, digits)) = rest.split_once(' ') else {
        return Ok(None);
    };
    match decode_pieces(alloc, digits)? {
        Some(bytes) => {
            let sequence = Sequence {
                asked,
                bytes: &bytes,
            };
            ask_type(alloc, name, &sequence)
        }
        None => Ok(None),
    }
}

// `next-rows COUNT TYPE HEX`: the items of so many such sequences in a row.
fn read_rows(alloc: Global, rest: &str) -> Result<Option<String>, AllocError> {
    match split_number(rest) {
        Some((count, behind)) => read_sequence(alloc, behind, Asked::Rows(count)),
        None => Ok(None),
    }
}

// `write TYPE HEX` and its kin: what the value of the bytes writes.
fn write_value(alloc: Global, rest: &str, writing: Writing) -> Result<Option<String>, AllocError> {
    let Some((name, digits)) = rest.split_once(' ') else {
        return Ok(None);
    };
    match decode_pieces(alloc, digits)? {
        Some(bytes) => write_type(alloc, name, &bytes, writing),
        None => Ok(None),
    }
}
