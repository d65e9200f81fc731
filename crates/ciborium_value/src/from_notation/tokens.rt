//! The tokens of diagnostic notation.

ghost use Rattle.std.specs.Prelude.{◌≡◌, ◌≢◌, ◌≤◌, ◌<◌, ◌+◌, ◌^◌, IfErr, IfOk, IfSome};
ghost use Rattle.std.specs.Prelude.{MatchOption, None, Some, length};
ghost use Rattle.ciborium_value.specs.Tokens.{behind, leaf, letter_token, mark_of, minus_token};
ghost use Rattle.ciborium_value.specs.Tokens.{negated, number_token, plus_token, token_at};
ghost use Rattle.ciborium_value.specs.Tokens.{whole_at, word_token};
ghost use Rattle.ciborium_value.specs.Number.{number_tree};
ghost use Rattle.ciborium_value.specs.View.{tree_of};
ghost use Rattle.ciborium_value.specs.inner.ReadTokens.{IsNoNumber, token_read};
ghost use Rattle.ciborium_value.specs.Denotes.{Memory};

use super::byte_strings::{read_base64, read_hex};
use super::error::{NotationError, NotationFault};
use super::numbers::read_unsigned;
use super::texts::read_text;
use crate::tree::Value;
use std::alloc::{AllocError, Global};

/// A token of notation.
#[derive(Drop)]
pub enum Token {
    /// A value without parts of its own: a number, a string or a word.
    Leaf(Value),
    /// The number of a tag and the parenthesis behind it.
    BeginTag(u64),
    EndTag,
    BeginArray,
    EndArray,
    BeginMap,
    EndMap,
    Comma,
    Colon,
}

impl Token {
    ghost use Rattle.ciborium_value.specs.inner.ReadTokens.{enters, token_read};

    /// Whether it enters a level.
    pub fn enters_level(&self) -> bool
        ensures { result ≡ enters (token_read self.now) }
    {
        matches!(
            self,
            Token::BeginTag(_) | Token::BeginArray | Token::BeginMap
        )
    }
}

/// The token at the front, where no blank stands, and what follows it.
///
/// # Errors
///
/// Why no token stands there, and `Memory`. The place is counted from the end of the text.
pub fn read_token(alloc: Global, text: &[u8]) -> Result<(Token, &[u8]), NotationError>
    ensures found { IfOk result (λ p. token_at text.now ≡ Some (token_read p.0, p.1.now)) }
    ensures refused { IfErr result (λ e. e ≢ Memory → token_at text.now ≡ None) }
    ensures shorter { IfOk result (λ p. length p.1.now < length text.now) }
{
    let [first, behind @ ..] = text else {
        return Err(NotationError::At(0, NotationFault::Item));
    };
    if *first == b'"' {
        let (text, behind) = read_text(alloc, behind)?;
        return Ok((Token::Leaf(Value::Text(text)), behind));
    }
    if let b'-' | b'0'..=b'9' = *first {
        return read_number(alloc, text);
    }
    match mark_of(*first) {
        Some(mark) => Ok((mark, behind)),
        None => read_letters(alloc, text),
    }
}

// A bracket, a parenthesis, a comma or a colon.
fn mark_of(byte: u8) -> Option<Token>
    ensures { MatchOption result (mark_of byte ≡ None) (λ k. mark_of byte ≡ Some (token_read k)) }
{
    match byte {
        b'[' => Some(Token::BeginArray),
        b']' => Some(Token::EndArray),
        b'{' => Some(Token::BeginMap),
        b'}' => Some(Token::EndMap),
        b')' => Some(Token::EndTag),
        b',' => Some(Token::Comma),
        b':' => Some(Token::Colon),
        _ => None,
    }
}

// A byte string or a word.
fn read_letters(alloc: Global, text: &[u8]) -> Result<(Token, &[u8]), NotationError>
    ensures found { IfOk result (λ p. letter_token text.now ≡ Some (token_read p.0, p.1.now)) }
    ensures refused { IfErr result (λ e. e ≢ Memory → letter_token text.now ≡ None) }
    ensures shorter { IfOk result (λ p. length p.1.now < length text.now) }
{
    if let Some(behind) = skip_word(text, b"h'") {
        let (bytes, behind) = read_hex(alloc, behind)?;
        return Ok((Token::Leaf(Value::Bytes(bytes)), behind));
    }
    if let Some(behind) = skip_word(text, b"b64'") {
        let (bytes, behind) = read_base64(alloc, behind)?;
        return Ok((Token::Leaf(Value::Bytes(bytes)), behind));
    }
    match read_word(text) {
        Some((value, behind)) => Ok((Token::Leaf(value), behind)),
        None => Err(NotationError::At(text.len(), name_word(text))),
    }
}

// A word.
fn read_word(text: &[u8]) -> Option<(Value, &[u8])>
    ensures word { MatchOption result (word_token text.now ≡ None)
        (λ p. word_token text.now ≡ Some (leaf (tree_of p.0), p.1.now)) }
    ensures shorter { IfSome result (λ p. length p.1.now < length text.now) }
{
    if let Some(behind) = skip_word(text, b"true") {
        return Some((Value::Bool(true), behind));
    }
    if let Some(behind) = skip_word(text, b"false") {
        return Some((Value::Bool(false), behind));
    }
    if let Some(behind) = skip_word(text, b"null") {
        return Some((Value::Null, behind));
    }
    match skip_word(text, b"undefined") {
        Some(behind) => Some((Value::Null, behind)),
        None => None,
    }
}

/// What follows a word at the front.
pub fn skip_word<'t>(text: &'t [u8], word: &[u8]) -> Option<&'t [u8]>
    ensures rest { MatchOption result (behind word.now text.now ≡ None)
        (λ rest. behind word.now text.now ≡ Some rest.now) }
    ensures length { IfSome result (λ rest.
        length rest.now + length word.now ≡ length text.now) }
{
    let mut rest = text;
    let mut wanted = word;
    'bytes: while let [byte, others @ ..] = wanted {
        match rest {
            [first, behind @ ..] if first == byte => {
                rest = behind;
                wanted = others;
            }
            _ => return None,
        }
    }
    Some(rest)
}

// What stands where no token does.
fn name_word(text: &[u8]) -> NotationFault {
    if text.starts_with(b"simple(") {
        return NotationFault::Simple;
    }
    if text.starts_with(b"NaN") || text.starts_with(b"Infinity") || text.starts_with(b"float'") {
        return NotationFault::Float;
    }
    NotationFault::Item
}

// A number, or that of a tag.
fn read_number(alloc: Global, text: &[u8]) -> Result<(Token, &[u8]), NotationError>
    ensures found { IfOk result (λ p. number_token text.now ≡ Some (token_read p.0, p.1.now)) }
    ensures refused { IfErr result (λ e. e ≢ Memory → number_token text.now ≡ None) }
    ensures shorter { IfOk result (λ p. length p.1.now < length text.now) }
{
    match skip_word(text, b"-") {
        Some(digits) => read_negative(alloc, digits),
        None => read_positive(alloc, text),
    }
}

// A number behind its minus.
fn read_negative(alloc: Global, text: &[u8]) -> Result<(Token, &[u8]), NotationError>
    ensures found { IfOk result (λ p.
        minus_token (whole_at text.now) ≡ Some (token_read p.0, p.1.now)) }
    ensures refused { IfErr result (λ e. e ≢ Memory → minus_token (whole_at text.now) ≡ None) }
    ensures shorter { IfOk result (λ p. length p.1.now ≤ length text.now) }
{
    if text.starts_with(b"Infinity") {
        return Err(NotationError::At(text.len() + 1, NotationFault::Float));
    }
    let (number, behind) = read_whole(text)?;
    if number > 1 << 127 {
        return Err(NotationError::At(text.len() + 1, NotationFault::TooLarge));
    }
    Ok((Token::Leaf(negated(alloc, number)?), behind))
}

// A number without a minus, or that of a tag.
fn read_positive(alloc: Global, text: &[u8]) -> Result<(Token, &[u8]), NotationError>
    ensures found { IfOk result (λ p.
        plus_token (whole_at text.now) ≡ Some (token_read p.0, p.1.now)) }
    ensures refused { IfErr result (λ e. e ≢ Memory → plus_token (whole_at text.now) ≡ None) }
    ensures shorter { IfOk result (λ p. length p.1.now < length text.now) }
{
    let (number, behind) = read_whole(text)?;
    if let [b'(', content @ ..] = behind {
        return match u64::try_from(number) {
            Ok(tag) => Ok((Token::BeginTag(tag), content)),
            Err(_) => Err(NotationError::At(text.len(), NotationFault::TooLarge)),
        };
    }
    Ok((Token::Leaf(Value::from_u128(alloc, number)?), behind))
}

// A number that is no float.
fn read_whole(text: &[u8]) -> Result<(u128, &[u8]), NotationError>
    ensures found { IfOk result (λ p. whole_at text.now ≡ Some (p.0, p.1.now)) }
    ensures refused { IfErr result (λ e. e ≢ Memory × IsNoNumber (whole_at text.now)) }
    ensures shorter { IfOk result (λ p. length p.1.now < length text.now) }
{
    match read_unsigned(text) {
        Ok((_, [b'.' | b'e' | b'E', ..])) => {
            Err(NotationError::At(text.len(), NotationFault::Float))
        }
        Ok(read) => Ok(read),
        Err(fault) => Err(NotationError::At(text.len(), fault)),
    }
}

// Minus a number of at most 2^127.
fn negated(alloc: Global, number: u128) -> Result<Value, AllocError>
    requires { number ≤ 2 ^ 127 }
    ensures { IfOk result (λ v. tree_of v ≡ number_tree (negated number)) }
{
    if number == 0 {
        return Value::from_i128(alloc, 0);
    }
    Value::from_i128(alloc, -1 - (number - 1) as i128)
}
