//! Signed messages of COSE (RFC 9052, section 4.2) that hold a CBOR Web Token (RFC 8392): what they
//! say, and the bytes that their signature signs. Whether the signature is right is for a library
//! of signatures to tell. A message whose payload is detached has no claims, and is refused.

ghost use Rattle.std.specs.Prelude.{◌≡◌, IfErr, IfOk};
ghost use Rattle.std.specs.Option.{option_map};
ghost use Rattle.ciborium.specs.Encoding.{written_bytes};
ghost use Rattle.ciborium.specs.View.{tree_of};
ghost use Rattle.ciborium_uses.specs.Envelopes.{IsEnvelope, IsMessage, IsOutside, IsWhole};
ghost use Rattle.ciborium_uses.specs.Envelopes.{IsWrapped, OneEnvelope, SpelledIsRead};
ghost use Rattle.ciborium_uses.specs.Envelopes.{signed_header, signed_item, value_at};
ghost use Rattle.ciborium_uses.specs.declared.envelopes.Envelope.{Envelope};
ghost use Rattle.ciborium_uses.specs.declared.envelopes.wrapping.Wrapping.{Wrapping};
ghost use Rattle.ciborium_uses.specs.declared.envelopes.wrapping.Wrapping.TheVariants.{Signed};

mod answer;
mod claims;
mod error;
mod headers;
mod items;
mod labels;
mod message;
mod wrapping;
mod writing;

pub use answer::answer;
use ciborium::value::{ByteBuf, Value};
use ciborium::{ser, to_vec};
pub use claims::Claims;
pub use error::{EnvelopeError, Part};
use headers::check_headers;
use items::read_all;
use labels::{is_empty, labels_of, read_header, value_of};
use std::alloc::Global;
use std::io;
use wrapping::unwrapped;
pub use wrapping::{OtherMessage, Wrapping};
pub use writing::{header_bytes, through_memory, write_again, write_envelope};

/// A signed message whose payload is a set of claims.
#[derive(Debug, Drop)]
pub struct Envelope {
    /// The bytes of the protected header, as they came.
    pub protected: ByteBuf,
    /// The unprotected header, a map of labels.
    pub unprotected: Value,
    /// The bytes of the payload.
    pub payload: ByteBuf,
    /// The signature, of which nothing is tested here.
    pub signature: ByteBuf,
    /// What the protected header holds, a map of labels.
    pub header: Value,
    /// What the payload holds.
    pub claims: Claims,
}

/// Reads all of the bytes as an envelope, under its tag 18. It is whole, so what is written of it
/// is read as this envelope again.
///
/// # Errors
///
/// `Read` where the bytes of a part are not its item, `Other` where another message of COSE stands
/// there, `Tags` where it has another tag or none, `Shape` where the message is no array of
/// four, `NotMap`, `Label` and `Repeated` where a header or the claims are no map, or a key there
/// is neither an integer nor a text, or is there twice, `Both`, `Critical`, `CriticalMissing`,
/// `CriticalShape` and `CriticalUnprotected` where the headers do not go together (RFC 9052,
/// sections 3 and 3.1), `Claim` where a claim has another type, and `Memory`.
pub fn read_envelope(alloc: Global, bytes: &[u8]) -> Result<Envelope, EnvelopeError>
    ensures ok { IfOk result (λ e. IsEnvelope bytes.now e) }
    ensures whole { IfOk result (λ e. IsWhole Signed e) }
    ensures refused { IfErr result (λ e. (v : Envelope) → IsEnvelope bytes.now v → IsOutside e) }
{
    let (wrapping, envelope) = read_wrapped(alloc, bytes)?;
    match wrapping {
        Wrapping::Signed => Ok(envelope),
        _ => Err(EnvelopeError::Tags),
    }
}

/// Reads all of the bytes as an envelope, and says which tags stand around it: none, 18, or 18
/// under 61. It is whole under these, so what is written of it is read as this envelope again.
///
/// # Errors
///
/// Those of `read_envelope`, `Other` and `Tags` where other tags stand there.
pub fn read_wrapped(alloc: Global, bytes: &[u8]) -> Result<(Wrapping, Envelope), EnvelopeError>
    ensures ok { IfOk result (λ r. IsWrapped bytes.now r.0 r.1) }
    ensures whole { IfOk result (λ r. IsWhole r.0 r.1) }
    ensures refused { IfErr result (λ e. (w : Wrapping) (v : Envelope) →
        IsWrapped bytes.now w v → IsOutside e) }
{
    let value = read_all(alloc, bytes, Part::Message)?;
    let (wrapping, message) = unwrapped(value)?;
    let envelope = envelope_of(alloc, message)?;
    Ok((wrapping, envelope))
}

// Opens a message whose tags were read.
fn envelope_of(alloc: Global, message: Value) -> Result<Envelope, EnvelopeError>
    ensures ok { IfOk result (λ e. IsMessage (tree_of message) e) }
    ensures refused { IfErr result
        (λ e. (v : Envelope) → IsMessage (tree_of message) v → IsOutside e) }
{
    let Some(parts) = message::split(message) else {
        return Err(EnvelopeError::Shape);
    };
    let unprotected = labels_of(alloc, &parts.unprotected, Part::Unprotected)?;
    let header = read_header(alloc, &parts.protected)?;
    check_headers(&header, &unprotected)?;
    let claims = claims::read_claims(alloc, &parts.payload)?;
    Ok(Envelope {
        protected: ByteBuf(parts.protected),
        unprotected: unprotected.map,
        payload: ByteBuf(parts.payload),
        signature: ByteBuf(parts.signature),
        header: header.map,
        claims,
    })
}

/// The algorithm of the signature, as the protected header names it (RFC 9052, section 3.1).
pub fn algorithm<'a>(envelope: &'a Envelope) -> Option<&'a Value>
    ensures { option_map (λ v. tree_of v.now) result ≡ value_at 1 (tree_of envelope.now.header) }
{
    value_of(&envelope.header, 1)
}

/// No bytes are two envelopes: the tags around one are told by them, and so are its parts.
pub fn one_envelope()
    ensures { OneEnvelope }
{}

/// What is written of an envelope that is whole under some tags is read as that envelope.
pub fn spelled_is_read()
    ensures { SpelledIsRead }
{}

/// The bytes that the signature of an envelope signs, where the application adds these.
pub fn signed_bytes(
    alloc: Global,
    envelope: &Envelope,
    external: &ByteBuf,
) -> Result<Vec<u8>, ser::Error<io::Error>>
    ensures { IfOk result (λ bytes. bytes.items ≡ written_bytes (signed_item
        (signed_header envelope.now.protected.0.items (tree_of envelope.now.header))
        external.now.0.items envelope.now.payload.0.items)) }
{
    let Envelope {
        protected,
        header,
        payload,
        ..
    } = envelope;
    to_be_signed(alloc, protected, header, external, payload)
}

/// The bytes that a signature has to sign, before there is an envelope: those of the protected
/// header, which are left out where it holds no label, of what the application adds, and of the
/// payload (RFC 9052, section 4.4). `header_bytes` makes those of the header.
///
/// # Errors
///
/// Those of `to_vec`.
pub fn to_be_signed(
    alloc: Global,
    protected: &ByteBuf,
    header: &Value,
    external: &ByteBuf,
    payload: &ByteBuf,
) -> Result<Vec<u8>, ser::Error<io::Error>>
    ensures { IfOk result (λ bytes. bytes.items ≡ written_bytes (signed_item
        (signed_header protected.now.0.items (tree_of header.now))
        external.now.0.items payload.now.0.items)) }
{
    let none = ByteBuf(Vec::new(alloc));
    let sent = if is_empty(header) { &none } else { protected };
    to_vec(alloc, &("Signature1", sent, external, payload))
}
