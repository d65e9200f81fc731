//! Maps of labels, as headers and claims are.

ghost use Rattle.std.specs.Prelude.{◌≡◌, IfErr, IfOk};
ghost use Rattle.std.specs.Option.{option_map};
ghost use Rattle.ciborium.specs.GivenParts.{has_key};
ghost use Rattle.ciborium.specs.Order.{tree_cmp};
ghost use Rattle.ciborium.specs.Tree.{Tree};
ghost use Rattle.ciborium.specs.ValueLists.{tree_pairs_of};
ghost use Rattle.ciborium.specs.View.{tree_of};
ghost use Rattle.ciborium_value.specs.declared.error.Error.TheVariants.{Memory};
ghost use Rattle.ciborium_uses.specs.Envelopes.{AreLabelBytes, AreLabels, IsHeader, IsKept};
ghost use Rattle.ciborium_uses.specs.Envelopes.{IsOutside, are_labels, entries_of, entry_trees};
ghost use Rattle.ciborium_uses.specs.Envelopes.{is_empty, is_label, value_at};

use super::error::{EnvelopeError, Part};
use super::items::read_all;
use ciborium::de::{self, UniqueKeys};
use ciborium::value::{Error, Kind, Value};
use std::alloc::Global;
use std::collections::BTreeMap;

/// A map of labels, which are integers and texts (RFC 9052, section 1.4).
#[derive(Debug, Drop)]
pub struct Labels {
    /// The map, its bignums folded.
    pub map: Value,
    /// Its values by their labels.
    pub by_label: BTreeMap<Value, Value>,
}

/// The labels of a map whose keys are labels, none of which stands twice. The map is written as it
/// is read.
///
/// # Errors
///
/// `NotMap`, `Label` where a key is neither an integer nor a text, `Repeated` where a label stands
/// twice, `Read` where a bignum is too large, and `Memory`.
pub fn labels_of(alloc: Global, map: &Value, part: Part) -> Result<Labels, EnvelopeError>
    ensures ok { IfOk result (λ m. AreLabels (tree_of map.now) (tree_of m.map)) }
    ensures by_label { IfOk result (λ m. entry_trees m.by_label ≡ entries_of (tree_of m.map)) }
    ensures kept { IfOk result (λ m. IsKept (tree_of m.map)) }
    ensures refused { IfErr result (λ e. (m : Tree) → AreLabels (tree_of map.now) m →
        IsOutside e) }
{
    let Some(pairs) = map.as_map() else {
        return Err(EnvelopeError::NotMap(part));
    };
    if !are_labels(pairs) {
        return Err(EnvelopeError::Label(part));
    }
    let map: Value = match map.deserialized(alloc) {
        Ok(map) => map,
        Err(error) => return Err(refusal_of(part, error)),
    };
    match map.deserialized(alloc) {
        Ok(UniqueKeys(by_label)) => Ok(Labels { map, by_label }),
        Err(error) => Err(refusal_of(part, error)),
    }
}

// Why a map was not taken.
fn refusal_of(part: Part, error: Error) -> EnvelopeError
    ensures { error ≡ Memory → IsOutside result }
{
    match error {
        Error::Memory => EnvelopeError::Memory,
        Error::Custom(Kind::DuplicateKey) => EnvelopeError::Repeated(part),
        Error::Custom(kind) => EnvelopeError::Read(part, de::Error::semantic(None, kind)),
    }
}

// Whether each key is a label.
fn are_labels(pairs: &[(Value, Value)]) -> bool
    ensures { result ≡ are_labels (tree_pairs_of pairs.now) }
{
    for (key, _) in pairs {
        if !is_label(key) {
            return false;
        }
    }
    true
}

// Whether a key is an integer or a text.
fn is_label(key: &Value) -> bool
    ensures { result ≡ is_label (tree_of key.now) }
{
    matches!(key, Value::Integer(_) | Value::Text(_))
}

/// Reads all of the bytes of a part as such a map.
///
/// # Errors
///
/// Those of `read_all` and of `labels_of`.
pub fn read_labels(alloc: Global, bytes: &[u8], part: Part) -> Result<Labels, EnvelopeError>
    ensures ok { IfOk result (λ m. AreLabelBytes bytes.now (tree_of m.map)) }
    ensures by_label { IfOk result (λ m. entry_trees m.by_label ≡ entries_of (tree_of m.map)) }
    ensures kept { IfOk result (λ m. IsKept (tree_of m.map)) }
    ensures refused { IfErr result (λ e. (m : Tree) → AreLabelBytes bytes.now m → IsOutside e) }
{
    let map = read_all(alloc, bytes, part)?;
    labels_of(alloc, &map, part)
}

/// Reads a protected header: no bytes, or such a map.
///
/// # Errors
///
/// Those of `read_labels`.
pub fn read_header(alloc: Global, bytes: &[u8]) -> Result<Labels, EnvelopeError>
    ensures ok { IfOk result (λ m. IsHeader bytes.now (tree_of m.map)) }
    ensures by_label { IfOk result (λ m. entry_trees m.by_label ≡ entries_of (tree_of m.map)) }
    ensures kept { IfOk result (λ m. IsKept (tree_of m.map)) }
    ensures refused { IfErr result (λ e. (m : Tree) → IsHeader bytes.now m → IsOutside e) }
{
    if bytes.is_empty() {
        Ok(Labels {
            map: Value::Map(Vec::new(alloc)),
            by_label: BTreeMap::new(alloc),
        })
    } else {
        read_labels(alloc, bytes, Part::Header)
    }
}

/// Whether a map has no pairs.
pub fn is_empty(map: &Value) -> bool
    ensures { result ≡ is_empty (tree_of map.now) }
{
    match map {
        Value::Map(pairs) => pairs.is_empty(),
        _ => false,
    }
}

/// The value at a label that is a number.
pub fn value_of<'a>(map: &'a Value, label: u8) -> Option<&'a Value>
    ensures { option_map (λ v. tree_of v.now) result ≡ value_at label (tree_of map.now) }
{
    map.get(i64::from(label))
}

/// Whether a label stands there.
pub fn has_label(labels: &Labels, label: &Value) -> bool
    ensures { result
        ≡ has_key tree_cmp (entry_trees labels.now.by_label) (tree_of label.now) }
{
    labels.by_label.contains_key(label)
}
