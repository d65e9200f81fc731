//! Signed messages that are written.

ghost use Rattle.std.specs.Prelude.{◌≡◌, ◌≤◌, IfErr, IfOk};
ghost use Rattle.ciborium.specs.Encoding.{encoding, item_of};
ghost use Rattle.ciborium.specs.Nesting.{nesting};
ghost use Rattle.ciborium.specs.Spells.{Spells};
ghost use Rattle.ciborium.specs.View.{tree_of};
ghost use Rattle.ciborium.specs.declared.ser.error.Error.TheVariants.{Memory};
ghost use Rattle.ciborium_uses.specs.Envelopes.{AreAlike, IsHeader, IsKept, IsOutside, IsWhole};
ghost use Rattle.ciborium_uses.specs.Envelopes.{IsWrapped, IsWrittenAgain, header_bytes};
ghost use Rattle.ciborium_uses.specs.Envelopes.{message_of, message_tree, shortest_bytes};
ghost use Rattle.ciborium_uses.specs.Envelopes.{wrapped_tree};
ghost use Rattle.ciborium_uses.specs.declared.envelopes.Envelope.{Envelope};
ghost use Rattle.ciborium_uses.specs.declared.envelopes.wrapping.Wrapping.{Wrapping};

use super::error::EnvelopeError;
use super::labels::is_empty;
use super::wrapping::Wrapping;
use super::{Envelope, read_wrapped};
use ciborium::tag::Required;
use ciborium::value::{ByteBuf, Value};
use ciborium::{ser, to_vec};
use std::alloc::Global;
use std::io;

/// The bytes of a protected header: none where it is empty, else those of its map (RFC 9052,
/// section 3). They are read as that header.
///
/// # Errors
///
/// Those of `to_vec`.
pub fn header_bytes(alloc: Global, header: &Value) -> Result<ByteBuf, ser::Error<io::Error>>
    ensures bytes { IfOk result (λ bytes. bytes.0.items ≡ header_bytes (tree_of header.now)) }
    ensures again { IfOk result (λ bytes. IsKept (tree_of header.now) →
        nesting (item_of (tree_of header.now)) ≤ 256 →
        IsHeader bytes.0.items (tree_of header.now)) }
{
    if is_empty(header) {
        return Ok(ByteBuf(Vec::new(alloc)));
    }
    Ok(ByteBuf(to_vec(alloc, header)?))
}

/// Writes the message of these parts under its tags, each in its shortest spelling. The bytes of
/// the parts are written as they are given; that they are a header, claims and the signature of
/// both is for the caller to see to.
///
/// # Errors
///
/// `Memory` alone.
pub fn write_envelope(
    alloc: Global,
    wrapping: Wrapping,
    protected: &ByteBuf,
    unprotected: &Value,
    payload: &ByteBuf,
    signature: &ByteBuf,
) -> Result<Vec<u8>, ser::Error<io::Error>>
    ensures bytes { IfOk result (λ bytes. bytes.items ≡ encoding
        (wrapped_tree wrapping (message_tree protected.now.0.items (tree_of unprotected.now)
        payload.now.0.items signature.now.0.items))) }
    ensures item { IfOk result (λ bytes. Spells bytes.items (item_of
        (wrapped_tree wrapping (message_tree protected.now.0.items (tree_of unprotected.now)
        payload.now.0.items signature.now.0.items)))) }
    ensures refused { IfErr result (λ e. e ≡ Memory) }
{
    let message = (protected, unprotected, payload, signature);
    match wrapping {
        Wrapping::Bare => to_vec(alloc, &message),
        Wrapping::Signed => to_vec(alloc, &Required::<_, 18>(message)),
        Wrapping::Token => to_vec(alloc, &Required::<_, 61>(Required::<_, 18>(message))),
    }
}

/// Reads all of the bytes as an envelope, and writes that one again under its tags, in its shortest
/// bytes: bytes that are those stay as they are.
///
/// # Errors
///
/// Those of `read_wrapped`.
pub fn write_again(alloc: Global, bytes: &[u8]) -> Result<Vec<u8>, EnvelopeError>
    ensures again { IfOk result (λ again. IsWrittenAgain bytes.now again.items) }
    ensures shortest { IfOk result (λ again. (w : Wrapping) (e : Envelope) →
        IsWrapped bytes.now w e → again.items ≡ shortest_bytes w e) }
    ensures refused { IfErr result (λ error. (w : Wrapping) (e : Envelope) →
        IsWrapped bytes.now w e → IsOutside error) }
{
    let (wrapping, envelope) = read_wrapped(alloc, bytes)?;
    write_under(alloc, wrapping, &envelope)
}

// Writes the message of an envelope under its tags.
fn write_under(
    alloc: Global,
    wrapping: Wrapping,
    envelope: &Envelope,
) -> Result<Vec<u8>, EnvelopeError>
    ensures bytes { IfOk result (λ bytes. bytes.items ≡ shortest_bytes wrapping envelope.now) }
    ensures item { IfOk result (λ bytes. Spells bytes.items
        (item_of (wrapped_tree wrapping (message_of envelope.now)))) }
    ensures refused { IfErr result IsOutside }
{
    let Envelope {
        protected,
        unprotected,
        payload,
        signature,
        ..
    } = envelope;
    match write_envelope(alloc, wrapping, protected, unprotected, payload, signature) {
        Ok(bytes) => Ok(bytes),
        Err(_) => Err(EnvelopeError::Memory),
    }
}

/// Writes an envelope into memory, and reads it from there: it is the one that was written, under
/// the same tags, and reading refuses it for no more than memory.
///
/// # Errors
///
/// Those of `read_wrapped`, of which an envelope that is whole under these tags leaves `Memory`
/// alone.
pub fn through_memory(
    alloc: Global,
    wrapping: Wrapping,
    envelope: &Envelope,
) -> Result<(Wrapping, Envelope), EnvelopeError>
    ensures again { IsWhole wrapping envelope.now → IfOk result
        (λ again. (again.0 ≡ wrapping) × AreAlike again.1 envelope.now) }
    ensures refused { IsWhole wrapping envelope.now → IfErr result IsOutside }
{
    let bytes = write_under(alloc, wrapping, envelope)?;
    read_wrapped(alloc, &bytes)
}
