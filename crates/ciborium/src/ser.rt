//! Values to bytes.

ghost use Rattle.std.specs.Prelude.{◌≡◌, IfErr, IfOk, OnOk};
ghost use Rattle.ciborium_value.specs.Sinks.{IsGranted, IsOwed};
ghost use Rattle.ciborium.specs.Writes.{IsNamedWritten, IsWrittenAs, RefusesToWrite, WritesNamed};
ghost use Rattle.ciborium.specs.Writes.{cause_of};

use byte_sink::{BareWriteError, ByteSink};
pub use ciborium_value::{Array, Field, Item, Kind, MaybeField, NoField, NoItem, Serialize, Sink};
pub use deterministic::{into_writer_deterministic, write_deterministic_value};
pub use error::Error;
pub use sequence::write_sequence;
use std::alloc::Global;
use std::io::{self, Write};

mod byte_sink;
mod deterministic;
mod error;
mod sequence;

/// Writes the item of a value, each head in its shortest form (RFC 8949, section 4.1). A `Value` is
/// written in its one shortest definite encoding: definite lengths, the pairs of a map in their
/// order, a key before its value, and a tag as it stands, a bignum too (section 3.4.3).
///
/// Nothing is buffered, nothing is flushed, and memory is allocated only where the type says so,
/// which no type of this library does.
///
/// # Errors
///
/// `Io` holds the first error of the writer, even `Interrupted`, or a `WriteZero` where a write
/// takes nothing. `Value` holds the kind that a value without an item names, and `Memory` comes
/// only from a type that takes memory. Where there is an item, only a strict prefix of its bytes
/// was written. A `Value` has an item and takes no memory: its only error is `Io`.
pub fn into_writer<T: Serialize, W: Write>(
    value: &T,
    writer: &mut W,
) -> Result<(), Error<io::Error>>
    ensures bytes { WritesNamed (W.contents writer.old) (W.contents writer.new) result
        (T.written value.now) }
    ensures refused { IfErr result (λ e. IsOwed (cause_of e) (T.written value.now)) }
    ensures memory { IfErr result (λ e. IsGranted (cause_of e) T.takes_memory) }
    ensures written { OnOk result (IsNamedWritten (T.written value.now)) }
{
    let mut sink = ByteSink::new(writer);
    match value.serialize(&mut sink) {
        Ok(()) => Ok(()),
        Err(BareWriteError::Io) => Err(Error::Io(sink.take_failure())),
        Err(BareWriteError::Value(kind)) => Err(Error::Value(kind)),
        Err(BareWriteError::Memory) => Err(Error::Memory),
    }
}

/// The bytes of the item of a value, as `into_writer` writes them.
///
/// # Errors
///
/// `Value` holds the kind that a value without an item names, and `Memory` comes where an
/// allocation fails. There is no `Io`.
pub fn to_vec<T: Serialize>(alloc: Global, value: &T) -> Result<Vec<u8>, Error<io::Error>>
    ensures bytes { IfOk result (λ out. IsWrittenAs out.items (T.written value.now)) }
    ensures refused { IfErr result (λ e. RefusesToWrite e (T.written value.now)) }
{
    let mut out = Vec::new(alloc);
    match into_writer(value, &mut out) {
        Ok(()) => Ok(out),
        Err(Error::Value(kind)) => Err(Error::Value(kind)),
        Err(Error::Memory) | Err(Error::Io(_)) => Err(Error::Memory),
    }
}
