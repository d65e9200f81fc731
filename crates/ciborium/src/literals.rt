//! What `cbor!` calls: arrays and maps that are put together part by part.

ghost use Rattle.std.specs.Prelude.{◌≡◌, ◌∷◌, ◌⊎◌, [], Err, IfErr, IfOk, IsOk, Ok, true};
ghost use Rattle.ciborium.specs.Literals.{and_item, and_pair, array_tree, both_trees, had_memory};
ghost use Rattle.ciborium.specs.Literals.{item_trees, map_tree, named_tree, part_tree};
ghost use Rattle.ciborium.specs.Literals.{trees_in_pairs};
ghost use Rattle.ciborium_value.specs.Places.{a_map};
ghost use Rattle.ciborium_value.specs.Sinks.{IsOwed, container_of};
ghost use Rattle.ciborium_value.specs.Tree.{null};
ghost use Rattle.ciborium_value.specs.TreeAnswers.{IsTreeOf, tree_cause};

use crate::cbor;
use crate::ser::Serialize;
use crate::value::{Error, Value};
use std::alloc::Global;

/// The tree of a part.
#[inline(always)]
pub fn part<T: Serialize>(alloc: Global, part: &T) -> Result<Value, Error>
    ensures { (had_memory result ≡ true) → part_tree result ≡ named_tree (T.written part.now) }
{
    Value::serialized(alloc, part)
}

/// The tree of a part that is a literal of the language.
#[inline(always)]
pub fn literal<T: Serialize + Drop>(alloc: Global, part: T) -> Result<Value, Error>
    ensures { (had_memory result ≡ true) → part_tree result ≡ named_tree (T.written part) }
{
    Value::serialized(alloc, &part)
}

/// Null.
#[inline(always)]
pub fn null() -> Result<Value, Error>
    ensures { part_tree result ≡ Ok null }
{
    Ok(Value::Null)
}

/// No items.
#[inline(always)]
pub fn items(alloc: Global) -> Result<Vec<Value>, Error>
    ensures { item_trees result ≡ Ok [] }
{
    Ok(Vec::new(alloc))
}

// Both, or the first refusal. Want of memory comes before a refusal.
#[inline(always)]
fn both<A: Drop, B: Drop>(
    first: Result<A, Error>,
    second: Result<B, Error>,
) -> Result<(A, B), Error>
    ensures first { (had_memory result ≡ true) → had_memory first ≡ true }
    ensures second { (had_memory result ≡ true) → had_memory second ≡ true }
    ensures ok { IfOk result (λ pair. (first ≡ Ok pair.0) × (second ≡ Ok pair.1)) }
    ensures refused { IfErr result (λ e. (had_memory result ≡ true) →
        (first ≡ Err e) ⊎ (IsOk first × (second ≡ Err e))) }
{
    match (first, second) {
        (Ok(first), Ok(second)) => Ok((first, second)),
        (Err(Error::Memory), _) | (_, Err(Error::Memory)) => Err(Error::Memory),
        (Err(error), _) | (Ok(_), Err(error)) => Err(error),
    }
}

/// The items with one more behind them, or the first refusal. Want of memory comes before a
/// refusal.
#[inline(always)]
pub fn item(
    items: Result<Vec<Value>, Error>,
    item: Result<Value, Error>,
) -> Result<Vec<Value>, Error>
    ensures items { (had_memory result ≡ true) → had_memory items ≡ true }
    ensures item { (had_memory result ≡ true) → had_memory item ≡ true }
    ensures added { (had_memory result ≡ true) →
        item_trees result ≡ and_item (item_trees items) (part_tree item) }
{
    let (mut items, item) = both(items, item)?;
    items.push(item)?;
    Ok(items)
}

/// The array of the items.
#[inline(always)]
pub fn array(items: Result<Vec<Value>, Error>) -> Result<Value, Error>
    ensures items { (had_memory result ≡ true) → had_memory items ≡ true }
    ensures tree { part_tree result ≡ array_tree (item_trees items) }
{
    match items {
        Ok(items) => Ok(Value::Array(items)),
        Err(error) => Err(error),
    }
}

/// No pairs.
#[inline(always)]
pub fn pairs(alloc: Global) -> Result<Vec<(Value, Value)>, Error>
    ensures { trees_in_pairs result ≡ Ok [] }
{
    Ok(Vec::new(alloc))
}

/// The pairs with one more behind them, or the first refusal. Want of memory comes before a
/// refusal.
#[inline(always)]
pub fn pair(
    pairs: Result<Vec<(Value, Value)>, Error>,
    key: Result<Value, Error>,
    value: Result<Value, Error>,
) -> Result<Vec<(Value, Value)>, Error>
    ensures pairs { (had_memory result ≡ true) → had_memory pairs ≡ true }
    ensures key { (had_memory result ≡ true) → had_memory key ≡ true }
    ensures value { (had_memory result ≡ true) → had_memory value ≡ true }
    ensures added { (had_memory result ≡ true) → trees_in_pairs result ≡
        and_pair (trees_in_pairs pairs) (both_trees (part_tree key) (part_tree value)) }
{
    let (mut pairs, pair) = both(pairs, both(key, value))?;
    pairs.push(pair)?;
    Ok(pairs)
}

/// The map of the pairs.
#[inline(always)]
pub fn map(pairs: Result<Vec<(Value, Value)>, Error>) -> Result<Value, Error>
    ensures pairs { (had_memory result ≡ true) → had_memory pairs ≡ true }
    ensures tree { part_tree result ≡ map_tree (trees_in_pairs pairs) }
{
    match pairs {
        Ok(pairs) => Ok(Value::Map(pairs)),
        Err(error) => Err(error),
    }
}

/// The map of two pairs as `cbor!` makes it: in the order of the text, each key before its value.
///
/// # Errors
///
/// `Custom` with the kind of the first part that has no item; `Memory` where an allocation failed.
pub fn map_of_two<K: Serialize, V: Serialize, L: Serialize, W: Serialize>(
    alloc: Global,
    key: &K,
    value: &V,
    next_key: &L,
    next_value: &W,
) -> Result<Value, Error>
    ensures ok { IfOk result (IsTreeOf (container_of a_map
        (K.written key.now ∷ V.written value.now ∷
        L.written next_key.now ∷ W.written next_value.now ∷ []))) }
    ensures refused { IfErr result (λ e. IsOwed (tree_cause e) (container_of a_map
        (K.written key.now ∷ V.written value.now ∷
        L.written next_key.now ∷ W.written next_value.now ∷ []))) }
{
    cbor!(alloc, {key => value, next_key => next_value})
}
