//! Values as they are shown, in diagnostic notation (RFC 8949, section 8).

use crate::pieces::decode_pieces;
use crate::writes::{no_value, read_whole};
use ciborium::value::Value;
use std::alloc::{AllocError, Global};
use std::fmt::{self, Write};

/// How a value is shown.
#[derive(Clone, Copy)]
pub enum Lines {
    /// On one line, by `{}`.
    One,
    /// Each part on a line of its own, by `{:#}`.
    Many,
}

/// `HEX`: the value in notation, with a tab in place of each line feed, where the other options of
/// a formatter change nothing and a writer that fails at any one call fails the whole, behind a
/// beginning of it; else `differs`.
///
/// # Errors
///
/// `AllocError` where an allocation fails.
pub fn answer_notation(
    alloc: Global,
    rest: &str,
    lines: Lines,
) -> Result<Option<String>, AllocError> {
    let Some(bytes) = decode_pieces(alloc, rest)? else {
        return Ok(None);
    };
    let answer = match read_whole::<Value>(alloc, &bytes) {
        Some(value) => show_line(alloc, &value, lines)?,
        None => no_value(alloc)?,
    };
    Ok(Some(answer))
}

// The answer for a value.
fn show_line(alloc: Global, value: &Value, lines: Lines) -> Result<String, AllocError> {
    let (shown, styled) = match lines {
        Lines::One => (
            format!(in alloc; "{value}")?,
            format!(in alloc; "{value:*^+033.3}")?,
        ),
        Lines::Many => (
            format!(in alloc; "{value:#}")?,
            format!(in alloc; "{value:*^+#033.3}")?,
        ),
    };
    if shown == styled && fails_in_turn(alloc, value, lines, &shown)? {
        show_line_feeds(alloc, &shown)
    } else {
        String::from_str(alloc, "differs")
    }
}

// The text with a tab for each line feed: a notation has no tab of its own.
fn show_line_feeds(alloc: Global, text: &str) -> Result<String, AllocError> {
    let mut line = String::new(alloc);
    for (index, part) in text.split('\n').enumerate() {
        if index > 0 {
            line.push('\t')?;
        }
        line.push_str(part)?;
    }
    Ok(line)
}

// Whether each call of the writer, failing, fails the whole, and a beginning of the text went out.
fn fails_in_turn(
    alloc: Global,
    value: &Value,
    lines: Lines,
    text: &str,
) -> Result<bool, AllocError> {
    for calls in 0..u64::MAX {
        let mut writer = Failing {
            text: String::new(alloc),
            calls,
        };
        let written = match lines {
            Lines::One => write!(writer, "{value}"),
            Lines::Many => write!(writer, "{value:#}"),
        };
        let is_beginning = text.starts_with(writer.text.as_str());
        if written.is_ok() {
            return Ok(is_beginning && writer.text.len() == text.len());
        }
        if !is_beginning {
            return Ok(false);
        }
    }
    Ok(false)
}

// A writer that fails behind so many calls.
#[derive(Drop)]
struct Failing {
    text: String,
    calls: u64,
}

impl fmt::Write for Failing {
    fn write_str(&mut self, text: &str) -> fmt::Result {
        if self.calls == 0 {
            return Err(fmt::Error);
        }
        self.calls = self.calls.saturating_sub(1);
        self.text.push_str(text).map_err(|_| fmt::Error)
    }
}
