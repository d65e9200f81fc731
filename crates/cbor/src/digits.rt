//! From the hex digits of a line to its bytes, and from the encoding of a value to hex digits.

ghost use Rattle.std.specs.Prelude.{◌≡◌, ◌<◌, ◌≤◌, ◌++◌, ◌*◌, IfErr, IsErr, MatchOption};
ghost use Rattle.std.specs.Prelude.{Ok, OnOk, decimal, length};
ghost use Rattle.std.specs.Bool.{MatchBool};
ghost use Rattle.hex.specs.Hex.{decode_of, decode_pairs, encode_lower, hex_digit_value};
ghost use Rattle.cbor.specs.Answer.{IsHexRefused};

use crate::answer::LineRefusal;
use std::alloc::AllocError;
use std::io::Write;

// What stands for the value of a byte that is no hex digit.
const NO_DIGIT: u8 = 16;

/// Makes `bytes` the bytes of a line of hex digits of either case.
///
/// # Errors
///
/// `Hex` where the line is not an even number of hex digits, `Memory` where an allocation failed.
pub fn decode_line(line: &[u8], bytes: &mut Vec<u8>) -> Result<(), LineRefusal>
    ensures bytes { OnOk result (decode_of line.now ≡ Ok bytes.new.items) }
    ensures refused { IfErr result (λ refusal. IsHexRefused line.now refusal) }
{
    if line.len() % 2 != 0 {
        return Err(LineRefusal::Hex);
    }
    bytes.resize(line.len() / 2, 0)?;
    if !decode_pairs(line, bytes.as_mut_slice()) {
        return Err(LineRefusal::Hex);
    }
    Ok(())
}

// Fills `bytes` with the bytes of pairs of digits, or says that a digit is none.
fn decode_pairs(digits: &[u8], bytes: &mut [u8]) -> bool
    requires { length digits.now ≡ 2 * length bytes.old }
    ensures { MatchBool result (decode_pairs 0 digits.now ≡ Ok bytes.new)
        (IsErr (decode_pairs 0 digits.now)) }
{
    'bytes: for index in 0..bytes.len() {
        let high = digit_value(digits[2 * index]);
        let low = digit_value(digits[2 * index + 1]);
        if high == NO_DIGIT || low == NO_DIGIT {
            return false;
        }
        bytes[index] = high * 16 + low;
    }
    true
}

// The value of a hex digit of either case, or `NO_DIGIT`.
#[inline(always)]
fn digit_value(digit: u8) -> u8
    ensures value { MatchOption (hex_digit_value digit) (result ≡ 16)
        (λ v. (result ≡ v) × (v < 16)) }
    ensures most { result ≤ 16 }
{
    // Each test chooses between two numbers, so that no jump depends on the digits.
    let mut value = NO_DIGIT;
    if b'0' <= digit && digit <= b'9' {
        value = digit - b'0';
    }
    if b'a' <= digit && digit <= b'f' {
        value = digit - b'a' + 10;
    }
    if b'A' <= digit && digit <= b'F' {
        value = digit - b'A' + 10;
    }
    value
}

/// Appends a word to a text, and behind it a number in decimal.
///
/// # Errors
///
/// `AllocError` where an allocation fails.
pub fn push_number(word: &[u8], number: u128, text: &mut Vec<u8>) -> Result<(), AllocError>
    ensures { OnOk result (text.new.items ≡ text.old.items ++ (word.now ++ decimal number)) }
{
    text.extend_from_slice(word)?;
    if write!(text, "{number}").is_err() {
        return Err(AllocError);
    }
    Ok(())
}

/// Appends bytes in lower-case hex to a text.
///
/// # Errors
///
/// `AllocError` where an allocation fails.
pub fn push_digits(bytes: &[u8], text: &mut Vec<u8>) -> Result<(), AllocError>
    ensures { OnOk result (text.new.items ≡ text.old.items ++ encode_lower bytes.now) }
{
    let start = text.len();
    let Some(count) = bytes.len().checked_mul(2) else {
        return Err(AllocError);
    };
    let Some(end) = start.checked_add(count) else {
        return Err(AllocError);
    };
    text.resize(end, 0)?;
    // The call fails only where the buffer has another size.
    if hex::encode_to_slice(bytes, &mut text.as_mut_slice()[start..]).is_err() {
        return Err(AllocError);
    }
    Ok(())
}
