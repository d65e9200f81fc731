//! The deterministic forms of values to bytes (RFC 8949, section 4.2).

ghost use Rattle.std.specs.Prelude.{◌≡◌, IfErr, IfOk, IsTrue, OnOk};
ghost use Rattle.ciborium_value.specs.Sinks.{named_value};
ghost use Rattle.ciborium_value.specs.Given.{gives};
ghost use Rattle.ciborium_value.specs.View.{tree_of};
ghost use Rattle.ciborium.specs.DeterministicWrites.{IsFormOwed, IsFormWritten, WritesForm};
ghost use Rattle.ciborium.specs.DeterministicWrites.{named_form};
ghost use Rattle.ciborium.specs.Writes.{IsWriteIo, cause_of};

use super::{Error, Serialize, into_writer};
use ciborium_value::{KeyOrder, Value, error};
use std::alloc::Global;
use std::io::{self, Write};

/// Writes the item of a value in its deterministic form, by this order of keys. Deterministic
/// encoding (RFC 8949, section 4.2) asks for preferred serialization (section 4.1), for definite
/// lengths, and for sorted keys. So every head is the shortest, every string, array and map has a
/// definite length, a bignum of at most 16 bytes has no leading zeros and does not fit in 64 bits,
/// and the pairs of each map are sorted by the encodings of their keys: by `KeyOrder::Bytewise` the
/// bytewise lower key comes first (section 4.2.1), by `KeyOrder::LengthFirst` the shorter key, and
/// of two of equal length the bytewise lower one (section 4.2.3). Duplicate keys are refused, also
/// where only their forms are equal.
///
/// It takes memory for the tree of the item that the value names, as `Value::serialized` does, and
/// writes nothing before the whole tree is in its form. Nothing is flushed.
///
/// # Errors
///
/// `Value` holds the kind that a value without an item names, or the kind for which its tree has no
/// form, as `Value::make_deterministic` says: `DuplicateKey` where two keys of a map have the same
/// form, and `TooLarge` where a bignum of at most 16 bytes is negative and no `i128` holds it.
/// `Memory` comes where an allocation for the tree failed. At both nothing was written, and the
/// writer is as it was. `Io` holds the first error of the writer, as in `into_writer`: only a
/// strict prefix of the encoding of the form was written.
pub fn into_writer_deterministic<T: Serialize, W: Write>(
    alloc: Global,
    value: &T,
    order: KeyOrder,
    writer: &mut W,
) -> Result<(), Error<io::Error>>
    ensures bytes { WritesForm (W.contents writer.old) (W.contents writer.new) result
        (named_form order (T.written value.now)) }
    // Refused, or where an allocation failed, the writer is as it was.
    ensures untouched { IfErr result (λ e. ¬ IsWriteIo e → writer.new ≡ writer.old) }
    ensures refused { IfErr result (λ e.
        IsFormOwed (cause_of e) (named_form order (T.written value.now))) }
    ensures written { OnOk result (IsFormWritten (named_form order (T.written value.now))) }
{
    let form = form_of(alloc, value, order)?;
    into_writer(&form, writer)
}

// The form of the tree of the item that the value names.
fn form_of<T: Serialize>(
    alloc: Global,
    value: &T,
    order: KeyOrder,
) -> Result<Value, Error<io::Error>>
    ensures ok { IfOk result (λ form.
        named_form order (T.written value.now) ≡ gives (tree_of form)) }
    ensures unwritten { IfErr result (λ e. ¬ IsWriteIo e) }
    ensures refused { IfErr result (λ e.
        IsFormOwed (cause_of e) (named_form order (T.written value.now))) }
{
    let mut tree = match Value::serialized(alloc, value) {
        Ok(tree) => tree,
        Err(error::Error::Custom(kind)) => return Err(Error::Value(kind)),
        Err(error::Error::Memory) => return Err(Error::Memory),
    };
    match tree.make_deterministic(order) {
        Ok(()) => Ok(tree),
        Err(kind) => {
            drop(tree);
            Err(Error::Value(kind))
        }
    }
}

/// Writes the deterministic form of a `Value` as `into_writer_deterministic` does, and without a
/// copy of its tree where it is its own form (`Value::is_deterministic`), which allocates nothing.
///
/// # Errors
///
/// Those of `into_writer_deterministic`.
pub fn write_deterministic_value<W: Write>(
    alloc: Global,
    value: &Value,
    order: KeyOrder,
    writer: &mut W,
) -> Result<(), Error<io::Error>>
    ensures bytes { WritesForm (W.contents writer.old) (W.contents writer.new) result
        (named_form order (named_value value.now)) }
    // Refused, or where an allocation failed, the writer is as it was.
    ensures untouched { IfErr result (λ e. ¬ IsWriteIo e → writer.new ≡ writer.old) }
    ensures refused { IfErr result (λ e.
        IsFormOwed (cause_of e) (named_form order (named_value value.now))) }
    ensures written { OnOk result (IsFormWritten (named_form order (named_value value.now))) }
{
    if is_own_form(value, order) {
        return into_writer(value, writer);
    }
    into_writer_deterministic(alloc, value, order, writer)
}

// Whether a value is its own form.
fn is_own_form(value: &Value, order: KeyOrder) -> bool
    ensures { IsTrue result →
        named_form order (named_value value.now) ≡ gives (tree_of value.now) }
{
    value.is_deterministic(order)
}
