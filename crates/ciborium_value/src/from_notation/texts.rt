//! Texts as JSON writes them (RFC 8949, section 8; RFC 8259, section 7).

ghost use Rattle.std.specs.Prelude.{◌≡◌, ◌≢◌, ◌<◌, ◌≤◌, ◌++◌, ℕ, List, IfErr, IfOk, IfSome, IsTrue};
ghost use Rattle.std.specs.Prelude.{MatchOption};
ghost use Rattle.std.specs.Prelude.{None, OnOk, Some, encode_utf8, length, string_bytes};
ghost use Rattle.ciborium_value.specs.Tokens.{escape_at, is_high, is_low, leaf, low_at};
ghost use Rattle.ciborium_value.specs.Tokens.{low_unit_at, one_digit_more};
ghost use Rattle.ciborium_value.specs.Tokens.{prepended, text_at};
ghost use Rattle.ciborium_value.specs.Tokens.{text_token, unit_at, unit_in};
ghost use Rattle.ciborium_value.specs.Tree as trees;
ghost use Rattle.ciborium_value.specs.inner.ReadTokens.{Stops};
ghost use Rattle.ciborium_value.specs.Denotes.{Memory};

use super::error::{NotationError, NotationFault};
use super::numbers::digit_of;
use crate::notation::next_escape;
use std::alloc::{AllocError, Global};

/// The text up to a quotation mark, and what follows it. What stands between two escapes is
/// appended at once.
///
/// # Errors
///
/// `Character` where a control character stands there, or no escape behind a backslash, or the text
/// does not end, and `Memory`. The place is counted from the end of the text.
pub fn read_text(alloc: Global, text: &[u8]) -> Result<(String, &[u8]), NotationError>
    ensures found { IfOk result (λ p. text_token (text_at text.now)
        ≡ Some (leaf (trees.text (string_bytes p.0)), p.1.now)) }
    ensures refused { IfErr result (λ e. e ≢ Memory → text_token (text_at text.now) ≡ None) }
    ensures shorter { IfOk result (λ p. length p.1.now ≤ length text.now) }
{
    let mut bytes = Vec::new(alloc);
    let mut rest = text;
    'parts: loop {
        let special = push_plain(rest, &mut bytes)?;
        match special {
            [b'"', behind @ ..] => return end_text(bytes, behind),
            [b'\\', escape @ ..] => rest = push_escape(escape, special.len(), &mut bytes)?,
            _ => return Err(NotationError::At(special.len(), NotationFault::Character)),
        }
    }
}

// Appends the bytes before the next quotation mark, escape or control character, and gives what
// begins with it.
fn push_plain<'t>(text: &'t [u8], bytes: &mut Vec<u8>) -> Result<&'t [u8], AllocError>
    ensures plain { IfOk result (λ rest. (whole : List ℕ) →
        text_at whole ≡ prepended bytes.old.items (text_at text.now) →
        text_at whole ≡ prepended bytes.new.items (text_at rest.now)) }
    ensures special { IfOk result (λ rest. Stops rest.now) }
    ensures shorter { IfOk result (λ rest. length rest.now ≤ length text.now) }
{
    let Some(end) = next_escape(text) else {
        bytes.extend_from_slice(text)?;
        return Ok(&[]);
    };
    bytes.extend_from_slice(&text[..end])?;
    Ok(&text[end..])
}

// Appends the character of an escape behind its backslash, and gives what follows it.
fn push_escape<'t>(
    text: &'t [u8],
    place: usize,
    bytes: &mut Vec<u8>,
) -> Result<&'t [u8], NotationError>
    ensures character { IfOk result (λ rest. (whole : List ℕ) →
        text_at whole ≡ prepended bytes.old.items (escape_at text.now) →
        text_at whole ≡ prepended bytes.new.items (text_at rest.now)) }
    ensures shorter { IfOk result (λ rest. length rest.now < length text.now) }
    ensures refused { IfErr result (λ e. e ≢ Memory → escape_at text.now ≡ None) }
{
    let Some((character, behind)) = read_escape(text) else {
        return Err(NotationError::At(place, NotationFault::Character));
    };
    push_character(character, bytes)?;
    Ok(behind)
}

// The text of these bytes, with what follows it.
fn end_text(bytes: Vec<u8>, behind: &[u8]) -> Result<(String, &[u8]), NotationError>
    ensures found { IfOk result (λ p. text_token (Some (bytes.items, behind.now))
        ≡ Some (leaf (trees.text (string_bytes p.0)), p.1.now)) }
    ensures refused { IfErr result (λ _. text_token (Some (bytes.items, behind.now)) ≡ None) }
    ensures shorter { IfOk result (λ p. length p.1.now ≤ length behind.now) }
{
    match String::from_utf8(bytes) {
        Ok(text) => Ok((text, behind)),
        Err(_) => Err(NotationError::At(behind.len(), NotationFault::Character)),
    }
}

// Appends a character.
fn push_character(character: char, bytes: &mut Vec<u8>) -> Result<(), AllocError>
    ensures { OnOk result (bytes.new.items ≡ bytes.old.items ++ encode_utf8 character) }
{
    let mut buffer = [0; 4];
    bytes.extend_from_slice(character.encode_utf8(&mut buffer).as_bytes())?;
    Ok(())
}

// The character of an escape behind its backslash, and what follows it.
fn read_escape(text: &[u8]) -> Option<(char, &[u8])>
    ensures character { MatchOption result (escape_at text.now ≡ None)
        (λ p. escape_at text.now ≡ prepended (encode_utf8 p.0) (text_at p.1.now)) }
    ensures shorter { IfSome result (λ p. length p.1.now < length text.now) }
{
    let [letter, behind @ ..] = text else {
        return None;
    };
    let character = match letter {
        b'"' => '"',
        b'\\' => '\\',
        b'/' => '/',
        b'b' => '\u{8}',
        b'f' => '\u{c}',
        b'n' => '\n',
        b'r' => '\r',
        b't' => '\t',
        b'u' => return read_units(behind),
        _ => return None,
    };
    Some((character, behind))
}

// The character of an escape behind `\u`: of one unit, or of a surrogate pair.
fn read_units(text: &[u8]) -> Option<(char, &[u8])>
    ensures character { MatchOption result (unit_at text.now ≡ None)
        (λ p. unit_at text.now ≡ prepended (encode_utf8 p.0) (text_at p.1.now)) }
    ensures shorter { IfSome result (λ p. length p.1.now < length text.now) }
{
    let Some((unit, behind)) = read_unit(text) else {
        return None;
    };
    if is_high(unit) {
        return read_low(unit, behind);
    }
    match char::from_u32(unit) {
        Some(character) => Some((character, behind)),
        None => None,
    }
}

// The character of a surrogate pair behind its first unit, and what follows it.
fn read_low(high: u32, text: &[u8]) -> Option<(char, &[u8])>
    requires { IsTrue (is_high high) }
    ensures character { MatchOption result (low_at high text.now ≡ None)
        (λ p. low_at high text.now ≡ prepended (encode_utf8 p.0) (text_at p.1.now)) }
    ensures shorter { IfSome result (λ p. length p.1.now < length text.now) }
{
    match text {
        [b'\\', b'u', behind @ ..] => read_low_unit(high, behind),
        _ => None,
    }
}

// The same behind `\u`.
fn read_low_unit(high: u32, text: &[u8]) -> Option<(char, &[u8])>
    requires { IsTrue (is_high high) }
    ensures character { MatchOption result (low_unit_at high text.now ≡ None)
        (λ p. low_unit_at high text.now ≡ prepended (encode_utf8 p.0) (text_at p.1.now)) }
    ensures shorter { IfSome result (λ p. length p.1.now < length text.now) }
{
    let Some((low, behind)) = read_unit(text) else {
        return None;
    };
    if !is_low(low) {
        return None;
    }
    match char::from_u32(0x10000 + (high - 0xd800) * 0x400 + (low - 0xdc00)) {
        Some(character) => Some((character, behind)),
        None => None,
    }
}

// The number of four hex digits, and what follows them.
fn read_unit(text: &[u8]) -> Option<(u32, &[u8])>
    ensures unit { MatchOption result (unit_in text.now ≡ None)
        (λ p. unit_in text.now ≡ Some (p.0, p.1.now)) }
    ensures shorter { IfSome result (λ p. length p.1.now < length text.now) }
    ensures below { IfSome result (λ p. p.0 < 65536) }
{
    let [a, b, c, d, behind @ ..] = text else {
        return None;
    };
    let high = two_digits(*a, *b)?;
    let low = two_digits(*c, *d)?;
    Some((high * 256 + low, behind))
}

// The number of two hex digits.
fn two_digits(high: u8, low: u8) -> Option<u32>
    ensures { MatchOption result (one_digit_more (one_digit_more (Some 0) high) low ≡ None)
        (λ n. (one_digit_more (one_digit_more (Some 0) high) low ≡ Some n) × (n < 256)) }
{
    Some(u32::from(digit_of(high, 16)?) * 16 + u32::from(digit_of(low, 16)?))
}

// Whether a unit is the first of a surrogate pair.
fn is_high(unit: u32) -> bool
    ensures { result ≡ is_high unit }
{
    0xd800 <= unit && unit < 0xdc00
}

// Whether a unit is the second of a surrogate pair.
fn is_low(unit: u32) -> bool
    ensures { result ≡ is_low unit }
{
    0xdc00 <= unit && unit < 0xe000
}
