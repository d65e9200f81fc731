//! Values in human-readable form: diagnostic notation (RFC 8949, section 8).

ghost use Rattle.std.specs.Prelude.{◌≡◌, ◌≤◌, ◌<◌, ◌++◌, IfOk, IfSome, IsNone, Some, [], codes};
ghost use Rattle.std.specs.Prelude.{length, decimal, slice_index, take, true};
ghost use Rattle.std.specs.Fmt.{WritesStyledOnOk, signed_decimal, spec_alternate};
ghost use Rattle.hex.specs.Hex.{encode_lower};
ghost use Rattle.ciborium_value.specs.Notation.{IsPlain, comma, escape, line_break, needs_escape};
ghost use Rattle.ciborium_value.specs.Notation.{one_level_more};
ghost use Rattle.ciborium_value.specs.Notation.{last_break, notation, notation_on, notations_on};
ghost use Rattle.ciborium_value.specs.Notation.{pair_notations_on, quoted, styled_notation};
ghost use Rattle.ciborium_value.specs.Tree as trees;
ghost use Rattle.ciborium_value.specs.ValueLists.{tree_pairs_of, trees_of};
ghost use Rattle.ciborium_value.specs.View.{tree_of};

use crate::tree::Value;
use std::fmt::{InlineText, Write};
use std::{fmt, str};

/// The value in diagnostic notation (RFC 8949, section 8): `{}` writes it on one line, and `{:#}`
/// each item and each pair on a line of its own, indented by two spaces a level. The other options
/// of a formatter change nothing. It takes no memory.
///
/// Numbers are decimal, and byte strings base16 in lower case, as `h'0aff'`. Texts stand in
/// quotation marks, escaped as in JSON. A tag is its number before its content in parentheses, and
/// so is a bignum. `Value::from_notation` reads what is printed as the value
/// (`printed_is_denoted`).
///
/// # Errors
///
/// `fmt::Error` where the writer failed; a prefix of the notation was written.
impl fmt::Display for Value {
    ghost output = { λ v. Some (notation (tree_of v)) };

    ghost styled_output = { λ v spec.
        Some (styled_notation (spec_alternate spec) (tree_of v)) };

    fn fmt<W: fmt::Write>(&self, f: &mut fmt::Formatter<W>) -> fmt::Result {
        let lines = if f.alternate() { Some(0) } else { None };
        write_value(self, lines, f)
    }
}

// A value, on one line, or over lines of which its own has this level.
#[cycle(write_value)]
fn write_value<W: fmt::Write>(
    value: &Value,
    lines: Option<usize>,
    f: &mut fmt::Formatter<W>,
) -> fmt::Result
    ensures { WritesStyledOnOk W.write_str_gives f.old result
        (notation_on lines (tree_of value.now)) f.new }
{
    match value {
        Value::Integer(number) => write_integer(i128::from(*number), f),
        Value::Bytes(bytes) => write_bytes(bytes, f),
        Value::Text(text) => write_text(text, f),
        Value::Bool(true) => f.write_str("true"),
        Value::Bool(false) => f.write_str("false"),
        Value::Null => f.write_str("null"),
        Value::Tag(tag, content) => write_tagged(*tag, content, lines, f),
        Value::Array(items) => write_array(items, lines, f),
        Value::Map(pairs) => write_map(pairs, lines, f),
    }
}

// A tag's number before its content.
#[cycle(write_value)]
fn write_tagged<W: fmt::Write>(
    tag: u64,
    content: &Value,
    lines: Option<usize>,
    f: &mut fmt::Formatter<W>,
) -> fmt::Result
    ensures { WritesStyledOnOk W.write_str_gives f.old result
        (notation_on lines (trees.tag tag (tree_of content.now))) f.new }
{
    write_tag(tag, f)?;
    write_value(content, lines, f)?;
    f.write_str(")")
}

// An array.
#[cycle(write_value)]
fn write_array<W: fmt::Write>(
    items: &Vec<Value>,
    lines: Option<usize>,
    f: &mut fmt::Formatter<W>,
) -> fmt::Result
    ensures { WritesStyledOnOk W.write_str_gives f.old result
        (notation_on lines (trees.array (trees_of items.now.items))) f.new }
{
    f.write_str("[")?;
    write_items(items, one_level_more(lines)?, f)?;
    write_end(items.len(), lines, "]", f)
}

// A map.
#[cycle(write_value)]
fn write_map<W: fmt::Write>(
    pairs: &Vec<(Value, Value)>,
    lines: Option<usize>,
    f: &mut fmt::Formatter<W>,
) -> fmt::Result
    ensures { WritesStyledOnOk W.write_str_gives f.old result
        (notation_on lines (trees.map (tree_pairs_of pairs.now.items))) f.new }
{
    f.write_str("{")?;
    write_pairs(pairs, one_level_more(lines)?, f)?;
    write_end(pairs.len(), lines, "}", f)
}

// Each of the items, with commas between them.
#[cycle(write_value)]
fn write_items<W: fmt::Write>(
    items: &Vec<Value>,
    lines: Option<usize>,
    f: &mut fmt::Formatter<W>,
) -> fmt::Result
    ensures { WritesStyledOnOk W.write_str_gives f.old result
        (notations_on lines [] (trees_of items.now.items)) f.new }
{
    let mut lead = "";
    for item in items {
        f.write_str(lead)?;
        write_line_break(lines, f)?;
        write_value(item, lines, f)?;
        lead = comma(lines);
    }
    Ok(())
}

// Each of the pairs, with commas between them.
#[cycle(write_value)]
fn write_pairs<W: fmt::Write>(
    pairs: &Vec<(Value, Value)>,
    lines: Option<usize>,
    f: &mut fmt::Formatter<W>,
) -> fmt::Result
    ensures { WritesStyledOnOk W.write_str_gives f.old result
        (pair_notations_on lines [] (tree_pairs_of pairs.now.items)) f.new }
{
    let mut lead = "";
    for pair in pairs {
        f.write_str(lead)?;
        write_line_break(lines, f)?;
        write_value(&pair.0, lines, f)?;
        f.write_str(": ")?;
        write_value(&pair.1, lines, f)?;
        lead = comma(lines);
    }
    Ok(())
}

// ---- lines

// One level more; there is none behind the last `usize`.
fn one_level_more(lines: Option<usize>) -> Result<Option<usize>, fmt::Error>
    ensures { IfOk result (λ inner. inner ≡ one_level_more lines) }
{
    match lines {
        None => Ok(None),
        Some(level) => match level.checked_add(1) {
            Some(inner) => Ok(Some(inner)),
            None => Err(fmt::Error),
        },
    }
}

// What stands between two parts.
fn comma(lines: Option<usize>) -> &'static str
    ensures { result.now ≡ comma lines }
{
    match lines {
        None => ", ",
        Some(_) => ",",
    }
}

// A line break and the indentation of the next line, where there are lines.
fn write_line_break<W: fmt::Write>(lines: Option<usize>, f: &mut fmt::Formatter<W>) -> fmt::Result
    ensures { WritesStyledOnOk W.write_str_gives f.old result (line_break lines) f.new }
{
    match lines {
        None => Ok(()),
        Some(level) => {
            f.write_str("\n")?;
            f.write_repeated("  ", level)
        }
    }
}

// A closing bracket, behind a line break where there are parts.
fn write_end<W: fmt::Write>(
    count: usize,
    lines: Option<usize>,
    bracket: &str,
    f: &mut fmt::Formatter<W>,
) -> fmt::Result
    ensures { WritesStyledOnOk W.write_str_gives f.old result
        (last_break lines count ++ bracket.now) f.new }
{
    if count == 0 {
        return f.write_str(bracket);
    }
    write_line_break(lines, f)?;
    f.write_str(bracket)
}

// ---- numbers

// The most characters of a number from -2^64 to 2^64 - 1.
const DIGITS: usize = 21;

// A number in decimal.
fn write_integer<W: fmt::Write>(number: i128, f: &mut fmt::Formatter<W>) -> fmt::Result
    ensures { WritesStyledOnOk W.write_str_gives f.old result (signed_decimal number) f.new }
{
    let mut digits = InlineText::<DIGITS>::new();
    digits.write(number)?;
    f.write_str(digits.as_str())
}

// A tag's number in decimal, and the bracket that opens its content.
fn write_tag<W: fmt::Write>(tag: u64, f: &mut fmt::Formatter<W>) -> fmt::Result
    ensures { WritesStyledOnOk W.write_str_gives f.old result (decimal tag ++ codes "(") f.new }
{
    let mut digits = InlineText::<DIGITS>::new();
    digits.write(tag)?;
    f.write_str(digits.as_str())?;
    f.write_str("(")
}

// ---- byte strings

// How many bytes are shown at once.
const RUN: usize = 64;

// A byte string in base16.
fn write_bytes<W: fmt::Write>(bytes: &[u8], f: &mut fmt::Formatter<W>) -> fmt::Result
    ensures { WritesStyledOnOk W.write_str_gives f.old result
        (codes "h'" ++ (encode_lower bytes.now ++ codes "'")) f.new }
{
    f.write_str("h'")?;
    let mut rest = bytes;
    while !rest.is_empty() {
        let (run, behind) = rest.split_at(rest.len().min(RUN));
        write_digits(run, f)?;
        rest = behind;
    }
    f.write_str("'")
}

// Two hex digits for each of at most `RUN` bytes.
fn write_digits<W: fmt::Write>(bytes: &[u8], f: &mut fmt::Formatter<W>) -> fmt::Result
    requires { length bytes.now ≤ 64 }
    ensures { WritesStyledOnOk W.write_str_gives f.old result (encode_lower bytes.now) f.new }
{
    let mut buffer = [0u8; 2 * RUN];
    let digits = &mut buffer[..2 * bytes.len()];
    if hex::encode_to_slice(bytes, digits).is_err() {
        return Err(fmt::Error);
    }
    match str::from_utf8(digits) {
        Ok(text) => f.write_str(text),
        Err(_) => Err(fmt::Error),
    }
}

// ---- texts

// A text in quotation marks. What stands between two escapes is written at once.
fn write_text<W: fmt::Write>(text: &str, f: &mut fmt::Formatter<W>) -> fmt::Result
    ensures { WritesStyledOnOk W.write_str_gives f.old result (quoted text.now) f.new }
{
    f.write_str("\"")?;
    let mut rest = text;
    while let Some(end) = next_escape(rest.as_bytes()) {
        f.write_str(&rest[..end])?;
        write_escape(rest.as_bytes()[end], f)?;
        rest = &rest[end + 1..];
    }
    f.write_str(rest)?;
    f.write_str("\"")
}

/// Where the next byte stands that needs an escape; the bytes before it stand as they are.
pub(crate) fn next_escape(bytes: &[u8]) -> Option<usize>
    ensures found { IfSome result (λ end. needs_escape (slice_index bytes.now end) ≡ true) }
    ensures within { IfSome result (λ end. end < length bytes.now) }
    ensures before { IfSome result (λ end. IsPlain (take end bytes.now)) }
    ensures absent { IsNone result → IsPlain bytes.now }
{
    for (end, byte) in bytes.iter().enumerate() {
        if needs_escape(*byte) {
            return Some(end);
        }
    }
    None
}

// Whether a byte of a text is escaped.
fn needs_escape(byte: u8) -> bool
    ensures { result ≡ needs_escape byte }
{
    byte < 0x20 || byte == b'"' || byte == b'\\'
}

// The escape of such a byte.
fn write_escape<W: fmt::Write>(byte: u8, f: &mut fmt::Formatter<W>) -> fmt::Result
    ensures { WritesStyledOnOk W.write_str_gives f.old result (escape byte) f.new }
{
    let escape = match byte {
        b'"' => "\\\"",
        b'\\' => "\\\\",
        0x08 => "\\b",
        b'\t' => "\\t",
        b'\n' => "\\n",
        0x0c => "\\f",
        b'\r' => "\\r",
        _ => {
            f.write_str("\\u00")?;
            return write_digits(&[byte], f);
        }
    };
    f.write_str(escape)
}
