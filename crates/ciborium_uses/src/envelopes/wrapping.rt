//! The tags around a message.

ghost use Rattle.std.specs.Prelude.{◌≡◌, IfErr, IfNone, IfOk, IfSome, List, Some, ℕ};
ghost use Rattle.ciborium.specs.Tree.{Tree};
ghost use Rattle.ciborium.specs.View.{tree_of};
ghost use Rattle.ciborium_uses.specs.Envelopes.{message_tree, other_tag, other_text};
ghost use Rattle.ciborium_uses.specs.Envelopes.{wrapped_tree, wrapping_text};
ghost use Rattle.ciborium_uses.specs.declared.envelopes.wrapping.OtherMessage.{OtherMessage};
ghost use Rattle.ciborium_uses.specs.declared.envelopes.wrapping.Wrapping.{Wrapping};

use super::error::EnvelopeError;
use ciborium::Value;
use std::fmt;

/// The tags around a message, by which a receiver tells what it is given.
#[derive(Clone, Copy, Debug, PartialEq, Eq)]
pub enum Wrapping {
    /// None.
    Bare,
    /// That of a signed message, 18 (RFC 9052, section 4.2).
    Signed,
    /// The same under that of a token, 61 (RFC 8392, section 6).
    Token,
}

impl fmt::Display for Wrapping {
    ghost output = { λ w. Some (wrapping_text w) };

    fn fmt<W: fmt::Write>(&self, f: &mut fmt::Formatter<W>) -> fmt::Result {
        match self {
            Wrapping::Bare => f.write_str("none"),
            Wrapping::Signed => f.write_str("18"),
            Wrapping::Token => f.write_str("61 over 18"),
        }
    }
}

/// Takes the tags off a message. What stands under them is looked at later.
///
/// # Errors
///
/// `Other` where another message of COSE stands there, also under the tag of a token, and `Tags`
/// where these are other tags.
pub fn unwrapped(value: Value) -> Result<(Wrapping, Value), EnvelopeError>
    ensures ok { IfOk result (λ r. tree_of value ≡ wrapped_tree r.0 (tree_of r.1)) }
    ensures only { IfOk result (λ r. (w : Wrapping) (p : List ℕ) (u : Tree) (c s : List ℕ) →
        tree_of value ≡ wrapped_tree w (message_tree p u c s) →
        (r.0 ≡ w) × (tree_of r.1 ≡ message_tree p u c s)) }
    ensures refused { IfErr result (λ e. (w : Wrapping) (p : List ℕ) (u : Tree) (c s : List ℕ) →
        ¬ (tree_of value ≡ wrapped_tree w (message_tree p u c s))) }
{
    let (tag, content) = match value.into_tag() {
        Ok(tagged) => tagged,
        Err(message) => return Ok((Wrapping::Bare, message)),
    };
    if tag == 18 {
        let message = Box::into_inner(content);
        if message.is_tag() {
            return Err(EnvelopeError::Tags);
        }
        return Ok((Wrapping::Signed, message));
    }
    if tag != 61 {
        return Err(refusal_of(tag));
    }
    match Box::into_inner(content).into_tag() {
        Ok((18, message)) => Ok((Wrapping::Token, Box::into_inner(message))),
        Ok((tag, _)) => Err(refusal_of(tag)),
        Err(_) => Err(EnvelopeError::Tags),
    }
}

/// A message of COSE that is no signed one of one signer (RFC 9052, section 2).
#[derive(Clone, Copy, Debug, PartialEq, Eq)]
pub enum OtherMessage {
    /// Encrypted to one recipient, tag 16.
    Encrypt0,
    /// Authenticated to one recipient, tag 17.
    Mac0,
    /// Encrypted, tag 96.
    Encrypt,
    /// Authenticated, tag 97.
    Mac,
    /// Signed by several, tag 98.
    Sign,
}

impl fmt::Display for OtherMessage {
    ghost output = { λ m. Some (other_text m) };

    fn fmt<W: fmt::Write>(&self, f: &mut fmt::Formatter<W>) -> fmt::Result {
        match self {
            OtherMessage::Encrypt0 => f.write_str("COSE_Encrypt0"),
            OtherMessage::Mac0 => f.write_str("COSE_Mac0"),
            OtherMessage::Encrypt => f.write_str("COSE_Encrypt"),
            OtherMessage::Mac => f.write_str("COSE_Mac"),
            OtherMessage::Sign => f.write_str("COSE_Sign"),
        }
    }
}

// The other message that this is the tag of.
fn other_of(tag: u64) -> Option<OtherMessage>
    ensures some { IfSome result (λ m. other_tag m ≡ tag) }
    ensures none { IfNone result ((m : OtherMessage) → ¬ (other_tag m ≡ tag)) }
{
    match tag {
        16 => Some(OtherMessage::Encrypt0),
        17 => Some(OtherMessage::Mac0),
        96 => Some(OtherMessage::Encrypt),
        97 => Some(OtherMessage::Mac),
        98 => Some(OtherMessage::Sign),
        _ => None,
    }
}

// Why a tag is refused: another message stands under it, or none.
fn refusal_of(tag: u64) -> EnvelopeError {
    match other_of(tag) {
        Some(message) => EnvelopeError::Other(message),
        None => EnvelopeError::Tags,
    }
}
