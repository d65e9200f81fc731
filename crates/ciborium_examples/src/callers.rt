//! Small callers of the library, as a user writes them, each with a contract of its own.
ghost use Rattle.std.specs.Prelude.{◌≡◌, ◌≢◌, ◌+◌, ◌≤◌, ◌++◌, Any, IfErr, IfSome, List, OnOk, Some};
ghost use Rattle.std.specs.Prelude.{Vec, codes, false, length, pos, string_bytes, ℕ};
ghost use Rattle.std.specs.declared.alloc.Global.{Global};
ghost use Rattle.ciborium.specs.Item as item;
ghost use Rattle.ciborium.specs.Encoding.{encoding, written_bytes};
ghost use Rattle.ciborium.specs.Writing.{Writes};
ghost use Rattle.ciborium.specs.ProperTrees.{IsProperTree};
ghost use Rattle.ciborium.specs.Sinks.{number_item};
ghost use Rattle.ciborium.specs.View.{result_map, tree_of};
ghost use Rattle.ciborium.specs.Spells.{Spells};
ghost use Rattle.ciborium.specs.Tree.{integer, text};
ghost use Rattle.ciborium_value.specs.declared.key_order.KeyOrder.TheVariants.{LengthFirst};
ghost use Rattle.ciborium_value.specs.declared.tree.Value as value;
ghost use Rattle.ciborium.specs.declared.de.error.Error.TheVariants.{TooLong};
ghost use Rattle.ciborium.specs.ValueAnswers.{AnswersGoodItem, TakesBytes};
ghost use Rattle.ciborium.specs.ValueClauses.{AnswersProper, HoldsNoMore};
ghost use Rattle.ciborium.specs.ValueClauses.{RefusesBytes, TakesJustItem, TakesWithin};
ghost use Rattle.ciborium.specs.laws.OrdersOfValues.{KeysRise};
ghost use Rattle.ciborium.specs.Spelling.{IsReadAs, any};
ghost use Rattle.ciborium.specs.Writes.{IsWriteIo};

use crate::own_types::Message;
use ciborium::de::Deserialize;
use ciborium::laws::{canonical_keys_rise, written_reads_back};
use ciborium::ser::Error;
use ciborium::value::CanonicalValue;
use ciborium::{Value, de, from_reader_with_recursion_limit, from_slice, into_writer, to_vec};
use std::alloc::Global;
use std::collections::BTreeMap;
use std::convert::TryFrom;
use std::io::{self, Read, Write};

/// Reads a value within this many levels, and says of it all that is said of reading a `Value`.
pub fn read_value<R: Read>(
    alloc: Global,
    reader: &mut R,
    limit: usize,
) -> Result<Value, de::Error<io::Error>>
    ensures taken { TakesBytes any 0 (R.remaining reader.old) limit (R.remaining reader.new)
        (result_map tree_of result) }
    ensures ok { TakesJustItem any (R.remaining reader.old) limit (R.remaining reader.new)
        (result_map tree_of result) }
    ensures exact { AnswersGoodItem any (R.remaining reader.old) limit (R.remaining reader.new)
        (result_map tree_of result) }
    ensures refused { RefusesBytes any (R.remaining reader.old) limit (R.remaining reader.new)
        (result_map tree_of result) }
    ensures bounded { HoldsNoMore (R.remaining reader.old) (R.remaining reader.new)
        (result_map tree_of result) }
    ensures proper { AnswersProper (result_map tree_of result) }
    ensures within { TakesWithin (R.remaining reader.old) (R.remaining reader.new) }
{
    from_reader_with_recursion_limit(alloc, reader, limit)
}

/// Reads a value before which `offset` bytes stand. An item that ends within the greatest offset is
/// never too long, whatever follows it.
pub fn read_behind<T: Deserialize, R: Read>(
    alloc: Global,
    reader: &mut R,
    offset: usize,
) -> Result<T, de::Error<io::Error>>
    ensures { (i : item.Item) (s left : List ℕ) → Spells s i → offset + length s ≤ usize.MAX →
        R.remaining reader.old ≡ Some (s ++ left) → IfErr result (λ e. e ≢ TooLong) }
{
    de::from_reader_at(alloc, reader, offset, 256)
}

/// The one item that all of the bytes are.
pub fn only_item(alloc: Global, bytes: &[u8]) -> Option<Value>
    ensures { IfSome result (λ v. IsReadAs any bytes.now 0 (Some 256) (tree_of v)) }
{
    from_slice(alloc, bytes).ok()
}

/// The bytes of a value.
pub fn bytes_of(alloc: Global, value: &Value) -> Option<Vec<u8>>
    ensures { IfSome result (λ bytes. bytes.items ≡ encoding (tree_of value.now)) }
{
    to_vec(alloc, value).ok()
}

/// Writes a value: its encoding or a proper beginning of it, and the only error is the writer's.
pub fn write_value<W: Write>(value: &Value, writer: &mut W) -> Result<(), Error<io::Error>>
    ensures bytes { Writes (W.contents writer.old) (W.contents writer.new) result
        (encoding (tree_of value.now)) }
    ensures refused { IfErr result IsWriteIo }
    ensures proper { OnOk result (IsProperTree (tree_of value.now)) }
{
    written_reads_back();
    into_writer(value, writer)
}

/// The bytes of a message, a struct of the caller's own.
pub fn bytes_of_message(alloc: Global, message: &Message) -> Option<Vec<u8>>
    ensures { IfSome result (λ bytes. bytes.items ≡ written_bytes (item.map false
        (item.pair (item.text false (codes "version")) (number_item (pos message.now.version))
        (item.pair (item.text false (codes "body"))
        (item.text false (string_bytes message.now.body)) item.no_pairs)))) }
{
    to_vec(alloc, message).ok()
}

/// Writes a store, whose keys then strictly rise in the canonical order.
pub fn save<W: Write>(
    store: &BTreeMap<CanonicalValue, Value>,
    writer: &mut W,
) -> Result<(), Error<io::Error>>
    ensures { OnOk result (KeysRise LengthFirst store.now.entries) }
{
    into_writer(store, writer)?;
    canonical_keys_rise(store);
    Ok(())
}

/// The version that a message names: the number behind a text "version" of a map.
pub fn version(message: &Value) -> Option<u8>
    ensures { IfSome result (λ n.
        (pairs : Vec (Value × Value) Global) × (message.now ≡ value.Map pairs) × Any
        (λ pair. (tree_of pair.0 ≡ text (codes "version")) × (tree_of pair.1 ≡ integer (pos n)))
        pairs.items) }
{
    for (key, field) in message.as_map()? {
        if let Some(number) = version_in(key, field) {
            return Some(number);
        }
    }
    None
}

// The number behind a key, where that is the text "version".
fn version_in(key: &Value, field: &Value) -> Option<u8>
    ensures { IfSome result (λ n.
        (tree_of key.now ≡ text (codes "version")) × (tree_of field.now ≡ integer (pos n))) }
{
    if key.as_text() == Some("version") {
        u8::try_from(field.as_integer()?).ok()
    } else {
        None
    }
}
