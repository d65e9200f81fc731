//! The claims of a token (RFC 8392).

ghost use Rattle.std.specs.Prelude.{◌≡◌, IfErr, IfOk, Option, String, ℤ};
ghost use Rattle.std.specs.declared.alloc.Global.{Global};
ghost use Rattle.ciborium.specs.View.{tree_of};
ghost use Rattle.ciborium_value.specs.declared.byte_buf.ByteBuf.{ByteBuf};
ghost use Rattle.ciborium_uses.specs.Envelopes.{AreClaimBytes, AreClaims, IsOutside};
ghost use Rattle.ciborium_uses.specs.Envelopes.{bytes_claim, number_claim, text_claim, value_at};
ghost use Rattle.ciborium_uses.specs.declared.envelopes.claims.Claims.{Claims};

use super::error::{EnvelopeError, Part};
use super::labels::{read_labels, value_of};
use ciborium::value::{ByteBuf, Integer, Value};
use std::alloc::Global;

/// What a token claims: each registered claim that it has (RFC 8392, section 3.1), and all claims
/// by their keys. Times are in whole seconds since 1970; a float is refused, as in every `Value`.
#[derive(Debug, Drop)]
pub struct Claims {
    /// Who issued the token.
    pub issuer: Option<String>,
    /// Of whom it speaks.
    pub subject: Option<String>,
    /// For whom it is.
    pub audience: Option<String>,
    /// From when on it must not be accepted.
    pub expires: Option<Integer>,
    /// Before when it must not be accepted.
    pub not_before: Option<Integer>,
    /// When it was issued.
    pub issued: Option<Integer>,
    /// What tells it from other tokens.
    pub id: Option<ByteBuf>,
    /// The map of every claim, of keys that are not registered too.
    pub every: Value,
}

/// Reads all of a payload as claims.
///
/// # Errors
///
/// Those of `read_labels`, and `Claim` where a registered claim has another type.
pub fn read_claims(alloc: Global, payload: &[u8]) -> Result<Claims, EnvelopeError>
    ensures ok { IfOk result (λ c. AreClaimBytes payload.now c) }
    ensures refused { IfErr result
        (λ e. (c : Claims) → AreClaimBytes payload.now c → IsOutside e) }
{
    let labels = read_labels(alloc, payload, Part::Claims)?;
    claims_of(alloc, labels.map)
}

// The claims at their keys.
fn claims_of(alloc: Global, every: Value) -> Result<Claims, EnvelopeError>
    ensures ok { IfOk result (λ c. AreClaims (tree_of every) c) }
    ensures refused { IfErr result
        (λ e. (c : Claims) → AreClaims (tree_of every) c → IsOutside e) }
{
    Ok(Claims {
        issuer: text_at(alloc, &every, 1)?,
        subject: text_at(alloc, &every, 2)?,
        audience: text_at(alloc, &every, 3)?,
        expires: number_at(&every, 4)?,
        not_before: number_at(&every, 5)?,
        issued: number_at(&every, 6)?,
        id: bytes_at(alloc, &every, 7)?,
        every,
    })
}

// The claim at this key, which is a text.
fn text_at(alloc: Global, claims: &Value, key: u8) -> Result<Option<String>, EnvelopeError>
    ensures ok { IfOk result (λ c. value_at key (tree_of claims.now) ≡ text_claim c) }
    ensures refused { IfErr result (λ e. (c : Option (String Global)) →
        value_at key (tree_of claims.now) ≡ text_claim c → IsOutside e) }
{
    let Some(value) = value_of(claims, key) else {
        return Ok(None);
    };
    let Some(text) = value.as_text() else {
        return Err(EnvelopeError::Claim(key));
    };
    match String::from_str(alloc, text) {
        Ok(text) => Ok(Some(text)),
        Err(_) => Err(EnvelopeError::Memory),
    }
}

// The claim at this key, which is a number.
fn number_at(claims: &Value, key: u8) -> Result<Option<Integer>, EnvelopeError>
    ensures ok { IfOk result (λ c. value_at key (tree_of claims.now) ≡ number_claim c) }
    ensures refused { IfErr result (λ e. (c : Option ℤ) →
        value_at key (tree_of claims.now) ≡ number_claim c → IsOutside e) }
{
    let Some(value) = value_of(claims, key) else {
        return Ok(None);
    };
    match value.as_integer() {
        Some(number) => Ok(Some(number)),
        None => Err(EnvelopeError::Claim(key)),
    }
}

// The claim at this key, which is a byte string.
fn bytes_at(alloc: Global, claims: &Value, key: u8) -> Result<Option<ByteBuf>, EnvelopeError>
    ensures ok { IfOk result (λ c. value_at key (tree_of claims.now) ≡ bytes_claim c) }
    ensures refused { IfErr result (λ e. (c : Option ByteBuf) →
        value_at key (tree_of claims.now) ≡ bytes_claim c → IsOutside e) }
{
    let Some(value) = value_of(claims, key) else {
        return Ok(None);
    };
    let Some(bytes) = value.as_bytes() else {
        return Err(EnvelopeError::Claim(key));
    };
    match bytes.clone() {
        Ok(bytes) => Ok(Some(ByteBuf(bytes))),
        Err(_) => Err(EnvelopeError::Memory),
    }
}
