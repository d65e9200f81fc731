//! Numbers in decimal, hex, octal and binary (RFC 8610, appendix B, `uint`).

ghost use Rattle.std.specs.Prelude.{◌≡◌, ◌≤◌, ◌<◌, ◌+◌, ◌*◌, ◌^◌, IfErr, IfOk, IfSome, MatchOption};
ghost use Rattle.std.specs.Prelude.{Some, length};
ghost use Rattle.ciborium_value.specs.Tokens.{decimal_at, digit_of, digits_at, unsigned_at};
ghost use Rattle.ciborium_value.specs.inner.ReadTokens.{IsNoNumber};

use super::error::NotationFault;

/// The value of a digit of a base of at most 36.
pub fn digit_of(byte: u8, base: u8) -> Option<u8>
    ensures digit { result ≡ digit_of base byte }
    ensures below { IfSome result (λ digit. digit < base) }
{
    let value = match byte {
        b'0'..=b'9' => byte - b'0',
        b'A'..=b'Z' => byte - b'A' + 10,
        b'a'..=b'z' => byte - b'a' + 10,
        _ => 36,
    };
    if value < base { Some(value) } else { None }
}

/// The number at the front, and what follows it.
///
/// # Errors
///
/// `Digit` where its first digit is missing, and `TooLarge` where it is 2^128 at least.
pub fn read_unsigned(text: &[u8]) -> Result<(u128, &[u8]), NotationFault>
    ensures found { IfOk result (λ p. unsigned_at text.now ≡ Some (p.0, p.1.now)) }
    ensures refused { IfErr result (λ _. IsNoNumber (unsigned_at text.now)) }
    ensures shorter { IfOk result (λ p. length p.1.now < length text.now) }
{
    match text {
        [b'0', b'x', digits @ ..] => read_digits(digits, 16),
        [b'0', b'o', digits @ ..] => read_digits(digits, 8),
        [b'0', b'b', digits @ ..] => read_digits(digits, 2),
        _ => read_decimal(text),
    }
}

// The decimal number at the front: zero has one digit, and no other begins with zero.
fn read_decimal(text: &[u8]) -> Result<(u128, &[u8]), NotationFault>
    ensures found { IfOk result (λ p. decimal_at text.now ≡ Some (p.0, p.1.now)) }
    ensures refused { IfErr result (λ _. IsNoNumber (decimal_at text.now)) }
    ensures shorter { IfOk result (λ p. length p.1.now < length text.now) }
{
    match text {
        [b'0', behind @ ..] => Ok((0, behind)),
        _ => read_digits(text, 10),
    }
}

// The number of one digit at least.
fn read_digits(text: &[u8], base: u8) -> Result<(u128, &[u8]), NotationFault>
    requires { (2 ≤ base) × (base ≤ 36) }
    ensures found { IfOk result (λ p. digits_at base text.now ≡ Some (p.0, p.1.now)) }
    ensures refused { IfErr result (λ _. IsNoNumber (digits_at base text.now)) }
    ensures shorter { IfOk result (λ p. length p.1.now < length text.now) }
{
    let [byte, behind @ ..] = text else {
        return Err(NotationFault::Digit);
    };
    let Some(first) = digit_of(*byte, base) else {
        return Err(NotationFault::Digit);
    };
    let mut number = u128::from(first);
    let mut rest = behind;
    'digits: while let [byte, behind @ ..] = rest {
        let Some(digit) = digit_of(*byte, base) else {
            return Ok((number, rest));
        };
        let Some(longer) = push_digit(number, base, digit) else {
            return Err(NotationFault::TooLarge);
        };
        number = longer;
        rest = behind;
    }
    Ok((number, rest))
}

// The number with one more digit behind its digits, or `None` from 2^128 on.
fn push_digit(number: u128, base: u8, digit: u8) -> Option<u128>
    ensures { MatchOption result (2 ^ 128 ≤ number * base + digit)
        (λ longer. longer ≡ number * base + digit) }
{
    number
        .checked_mul(u128::from(base))?
        .checked_add(u128::from(digit))
}
