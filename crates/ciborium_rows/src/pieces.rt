//! Bytes as hex, in pieces that may be repeated: `9f,300*00,ff`.

use hex::FromHexError;
use std::alloc::{AllocError, Global};

// The most repetitions of a piece.
const MOST: usize = 1_000_000;

/// The bytes that pieces joined by commas name, each hex digits, or `COUNT*HEX` for so many times
/// those bytes; or none where the text is another. No text at all is no byte.
///
/// # Errors
///
/// `AllocError` where an allocation fails for the bytes.
pub fn decode_pieces(alloc: Global, text: &str) -> Result<Option<Vec<u8>>, AllocError> {
    let mut bytes = Vec::new(alloc);
    for piece in text.split(',') {
        let Some((count, digits)) = split_piece(piece) else {
            return Ok(None);
        };
        let Some(content) = decode_digits(alloc, digits)? else {
            return Ok(None);
        };
        for _ in 0..count {
            bytes.extend_from_slice(&content)?;
        }
    }
    Ok(Some(bytes))
}

/// `LIMIT HEX`: the limit and the bytes, or none where the text is another.
///
/// # Errors
///
/// `AllocError` where an allocation fails for the bytes.
pub fn parse_limited(alloc: Global, text: &str) -> Result<Option<(usize, Vec<u8>)>, AllocError> {
    let Some((limit, digits)) = split_number(text) else {
        return Ok(None);
    };
    match decode_pieces(alloc, digits)? {
        Some(bytes) => Ok(Some((limit, bytes))),
        None => Ok(None),
    }
}

/// `TYPE LIMIT HEX`: the type's name, the limit and the bytes, or none where the text is
/// another.
///
/// # Errors
///
/// `AllocError` where an allocation fails for the bytes.
pub fn parse_typed(
    alloc: Global,
    text: &str,
) -> Result<Option<(&str, usize, Vec<u8>)>, AllocError> {
    let Some((name, behind)) = text.split_once(' ') else {
        return Ok(None);
    };
    match parse_limited(alloc, behind)? {
        Some((limit, bytes)) => Ok(Some((name, limit, bytes))),
        None => Ok(None),
    }
}

/// A number, and what stands behind the blank.
pub fn split_number(text: &str) -> Option<(usize, &str)> {
    let (digits, behind) = text.split_once(' ')?;
    Some((parse_number(digits)?, behind))
}

/// The number of one digit or more, if it is a `usize`. No sign stands before it.
pub fn parse_number(text: &str) -> Option<usize> {
    if text.starts_with('+') {
        return None;
    }
    text.parse().ok()
}

// How often a piece stands, and its digits.
fn split_piece(piece: &str) -> Option<(usize, &str)> {
    match piece.split_once('*') {
        Some((text, digits)) => {
            let count = parse_number(text)?;
            if count <= MOST {
                Some((count, digits))
            } else {
                None
            }
        }
        None => Some((1, piece)),
    }
}

// The bytes of hex digits, or none where they are none.
fn decode_digits(alloc: Global, digits: &str) -> Result<Option<Vec<u8>>, AllocError> {
    match hex::decode(alloc, digits.as_bytes()) {
        Ok(bytes) => Ok(Some(bytes)),
        Err(FromHexError::OutOfMemory) => Err(AllocError),
        Err(_) => Ok(None),
    }
}
