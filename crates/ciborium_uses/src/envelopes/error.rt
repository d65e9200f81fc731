//! Why bytes are no envelope.

ghost use Rattle.std.specs.Prelude.{Some};
ghost use Rattle.ciborium_uses.specs.Envelopes.{part_text};

use super::wrapping::OtherMessage;
use ciborium::de;
use ciborium::value::Value;
use std::{error, fmt, io};

/// A part of an envelope that is an item of its own.
#[derive(Clone, Copy, Debug, PartialEq, Eq)]
pub enum Part {
    /// The whole message.
    Message,
    /// Its unprotected header.
    Unprotected,
    /// The map in its protected header.
    Header,
    /// The map of claims in its payload.
    Claims,
}

impl fmt::Display for Part {
    ghost output = { λ p. Some (part_text p) };

    fn fmt<W: fmt::Write>(&self, f: &mut fmt::Formatter<W>) -> fmt::Result {
        match self {
            Part::Message => f.write_str("the message"),
            Part::Unprotected => f.write_str("the unprotected header"),
            Part::Header => f.write_str("the protected header"),
            Part::Claims => f.write_str("the claims"),
        }
    }
}

/// Why bytes are no envelope.
#[derive(Debug, Drop)]
pub enum EnvelopeError {
    /// The bytes are not the wanted item.
    Read(Part, de::Error<io::Error>),
    /// Another message of COSE stands there.
    Other(OtherMessage),
    /// No tag stands around the message where one has to, another one, or one too many.
    Tags,
    /// There are not four parts: a byte string, any item, and two byte strings.
    Shape,
    /// The part is no map.
    NotMap(Part),
    /// A label is neither an integer nor a text.
    Label(Part),
    /// A label stands twice in the map.
    Repeated(Part),
    /// A label stands in both headers.
    Both(Value),
    /// A critical label is not understood.
    Critical(Value),
    /// A critical label does not stand in the protected header.
    CriticalMissing(Value),
    /// The critical labels are no array, or none.
    CriticalShape,
    /// The critical labels stand in the unprotected header.
    CriticalUnprotected,
    /// The claim at this key has another type.
    Claim(u8),
    /// An allocation failed.
    Memory,
}

impl fmt::Display for EnvelopeError {
    fn fmt<W: fmt::Write>(&self, f: &mut fmt::Formatter<W>) -> fmt::Result {
        match self {
            EnvelopeError::Read(part, error) => write!(f, "{part}: {error}"),
            EnvelopeError::Other(message) => {
                write!(f, "the message: expected a signed message, found {message}")
            }
            EnvelopeError::Tags => f.write_str("the message: not the tags of a signed message"),
            EnvelopeError::Shape => f.write_str("the message: not the array of a signed message"),
            EnvelopeError::NotMap(part) => write!(f, "{part}: not a map"),
            EnvelopeError::Label(part) => {
                write!(f, "{part}: a label that is neither an integer nor a text")
            }
            EnvelopeError::Repeated(part) => write!(f, "{part}: a label stands twice"),
            EnvelopeError::Both(label) => write!(f, "label {label} stands in both headers"),
            EnvelopeError::Critical(label) => {
                write!(
                    f,
                    "the protected header: critical label {label} is not understood"
                )
            }
            EnvelopeError::CriticalMissing(label) => {
                write!(
                    f,
                    "the protected header: critical label {label} is not there"
                )
            }
            EnvelopeError::CriticalShape => {
                f.write_str("the protected header: no array of critical labels, or an empty one")
            }
            EnvelopeError::CriticalUnprotected => {
                f.write_str("the unprotected header: critical labels have to be protected")
            }
            EnvelopeError::Claim(key) => write!(f, "the claims: claim {key} has another type"),
            EnvelopeError::Memory => f.write_str("an allocation failed"),
        }
    }
}

impl error::Error for EnvelopeError {}
