//! Sequences of values to bytes (RFC 8742).

ghost use Rattle.std.specs.Prelude.{IfErr, OnOk, map};
ghost use Rattle.ciborium_value.specs.Progress.{IsOwedAmong};
ghost use Rattle.ciborium_value.specs.Sinks.{IsGranted, all_named};
ghost use Rattle.ciborium.specs.SequenceWrites.{AreNamedWritten, WritesInTurn};
ghost use Rattle.ciborium.specs.Writes.{cause_of};

use super::{Error, Serialize, into_writer};
use std::io::{self, Write};

/// Writes values as a CBOR sequence (RFC 8742, section 2): the item of each as `into_writer` writes
/// it, one after the other with nothing between them, and nothing for an empty list. Sequences that
/// are written one after the other are one sequence.
///
/// # Errors
///
/// Those of `into_writer` for the first value that is refused, at which it stops. `Value` holds the
/// kind that the first value without an item names; what was written of that one is up to its type.
/// Where each value has an item, only a strict prefix of all their bytes was written.
pub fn write_sequence<T: Serialize, W: Write>(
    values: &[T],
    writer: &mut W,
) -> Result<(), Error<io::Error>>
    // All the items, one after the other, at `Ok`; at `Err` a strict prefix of them.
    ensures bytes { WritesInTurn (W.contents writer.old) (W.contents writer.new) result
        (all_named (map T.written values.now)) }
    ensures refused { IfErr result (λ e. IsOwedAmong (cause_of e) (map T.written values.now)) }
    ensures memory { IfErr result (λ e. IsGranted (cause_of e) T.takes_memory) }
    ensures written { OnOk result (AreNamedWritten (all_named (map T.written values.now))) }
{
    for value in values {
        into_writer(value, writer)?;
    }
    Ok(())
}
