//! Byte strings in base16 and base64 (RFC 4648), with white space anywhere between their digits
//! (RFC 8610, appendix G.1).

ghost use Rattle.std.specs.Prelude.{◌≡◌, ◌≢◌, ◌<◌, ◌≤◌, ◌∷◌, length, ℕ, List, false, IfErr, IfOk};
ghost use Rattle.std.specs.Prelude.{IfSome, MatchOption, None, Some};
ghost use Rattle.ciborium_value.specs.Tokens.{base64_at, base64_end, hex_at, is_white};
ghost use Rattle.ciborium_value.specs.Tokens.{sextet_of};
ghost use Rattle.ciborium_value.specs.inner.ReadTokens.{IsGroup, completed};
ghost use Rattle.ciborium_value.specs.Denotes.{Memory};

use super::blanks::is_white;
use super::error::{NotationError, NotationFault};
use super::numbers::digit_of;
use super::tokens::skip_word;
use std::alloc::Global;

/// The bytes of the hex digits up to an apostrophe, two digits each, and what follows it.
///
/// # Errors
///
/// `Digit` where something else stands there, or an odd number of digits, and `Memory`. The place
/// is counted from the end of the text.
pub fn read_hex(alloc: Global, text: &[u8]) -> Result<(Vec<u8>, &[u8]), NotationError>
    ensures found { IfOk result (λ p. hex_at None text.now ≡ Some (p.0.items, p.1.now)) }
    ensures refused { IfErr result (λ e. e ≢ Memory → hex_at None text.now ≡ None) }
    ensures shorter { IfOk result (λ p. length p.1.now ≤ length text.now) }
{
    let mut bytes = Vec::new(alloc);
    let mut waiting = None;
    let mut rest = text;
    'digits: while let [byte, behind @ ..] = rest {
        if !is_white(*byte) {
            match (digit_of(*byte, 16), waiting) {
                (Some(digit), None) => waiting = Some(digit),
                (Some(digit), Some(high)) => {
                    bytes.push(high * 16 + digit)?;
                    waiting = None;
                }
                (None, None) if *byte == b'\'' => return Ok((bytes, behind)),
                _ => return Err(NotationError::At(rest.len(), NotationFault::Digit)),
            }
        }
        rest = behind;
    }
    Err(NotationError::At(0, NotationFault::Digit))
}

/// The bytes of base64 up to an apostrophe, and what follows it: of either alphabet, with padding
/// or without, and with zeros in the bits that are left over.
///
/// # Errors
///
/// `Digit` where something else stands there, and `Memory`. The place is counted from the end of
/// the text.
pub fn read_base64(alloc: Global, text: &[u8]) -> Result<(Vec<u8>, &[u8]), NotationError>
    ensures found { IfOk result (λ p. base64_at 0 0 text.now ≡ Some (p.0.items, p.1.now)) }
    ensures refused { IfErr result (λ e. e ≢ Memory → base64_at 0 0 text.now ≡ None) }
    ensures shorter { IfOk result (λ p. length p.1.now ≤ length text.now) }
{
    let mut bytes = Vec::new(alloc);
    let mut group = Group { count: 0, bits: 0 };
    let mut rest = text;
    'digits: while let [byte, behind @ ..] = rest {
        if !is_white(*byte) {
            let Some(sextet) = sextet_of(*byte) else {
                return match end_base64(group, rest) {
                    Some(behind) => Ok((bytes, behind)),
                    None => Err(NotationError::At(rest.len(), NotationFault::Digit)),
                };
            };
            if let Some(byte) = group.push(sextet) {
                bytes.push(byte)?;
            }
        }
        rest = behind;
    }
    Err(NotationError::At(0, NotationFault::Digit))
}

// How many characters of a group of four were read, and the bits of them that are in no byte yet.
#[derive(Clone, Copy)]
struct Group {
    count: u8,
    bits: u8,
}

impl Group {
    // Reads one more character. Answers the byte that it completes.
    fn push(&mut self, sextet: u8) -> Option<u8>
        requires group { IsGroup self.old }
        requires sextet { sextet < 64 }
        ensures completed { (b : ℕ) (t : List ℕ) → is_white b ≡ false → sextet_of b ≡ Some sextet →
            base64_at self.old.count self.old.bits (b ∷ t)
            ≡ completed result (base64_at self.new.count self.new.bits t) }
        ensures group { IsGroup self.new }
    {
        let Group { count, bits } = *self;
        match count {
            0 => {
                *self = Group {
                    count: 1,
                    bits: sextet,
                };
                None
            }
            1 => {
                *self = Group {
                    count: 2,
                    bits: sextet % 16,
                };
                Some(bits * 4 + sextet / 16)
            }
            2 => {
                *self = Group {
                    count: 3,
                    bits: sextet % 4,
                };
                Some(bits * 16 + sextet / 4)
            }
            _ => {
                *self = Group { count: 0, bits: 0 };
                Some(bits * 64 + sextet)
            }
        }
    }
}

// The six bits of a character of base64.
fn sextet_of(byte: u8) -> Option<u8>
    ensures sextet { result ≡ sextet_of byte }
    ensures below { IfSome result (λ sextet. sextet < 64) }
{
    match byte {
        b'A'..=b'Z' => Some(byte - b'A'),
        b'a'..=b'z' => Some(byte - b'a' + 26),
        b'0'..=b'9' => Some(byte - b'0' + 52),
        b'+' | b'-' => Some(62),
        b'/' | b'_' => Some(63),
        _ => None,
    }
}

// What follows the end of base64 behind this group.
fn end_base64(group: Group, text: &[u8]) -> Option<&[u8]>
    ensures end { MatchOption result (base64_end group.count group.bits text.now ≡ None)
        (λ rest. base64_end group.count group.bits text.now ≡ Some rest.now) }
    ensures shorter { IfSome result (λ rest. length rest.now ≤ length text.now) }
{
    if group.count == 1 || group.bits > 0 {
        return None;
    }
    if let Some(behind) = skip_word(text, b"'") {
        return Some(behind);
    }
    match group.count {
        2 => skip_word(text, b"=='"),
        3 => skip_word(text, b"='"),
        _ => None,
    }
}
