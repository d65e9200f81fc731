//! Deterministic forms of values (RFC 8949, section 4.2), made in place.

ghost use Rattle.std.specs.Prelude.{◌≡◌, ◌↔◌, ◌≤◌, ◌⊎◌, IfErr, IfOk, IsTrue, List, MatchOption};
ghost use Rattle.std.specs.Prelude.{None, Some, length, true, ℕ};
ghost use Rattle.ciborium_value.specs.Deterministic.{AreRising, keys_of};
ghost use Rattle.ciborium_value.specs.inner.OwnForms.{AreApart, AreFormed, IsFormed};
ghost use Rattle.ciborium_value.specs.inner.OwnForms.{PairsAreFormed};
ghost use Rattle.ciborium_value.specs.DeterministicForms.{deterministic_form, deterministic_forms};
ghost use Rattle.ciborium_value.specs.DeterministicForms.{pair_forms, sorted_pairs};
ghost use Rattle.ciborium_value.specs.Meaning.{bignum_meaning, is_bignum_tag, without_zeros};
ghost use Rattle.ciborium_value.specs.SameContents.{AreAlike, IsAlike, PairsAreAlike};
ghost use Rattle.ciborium_value.specs.Given.{gives, refuses};
ghost use Rattle.ciborium_value.specs.Tree as trees;
ghost use Rattle.ciborium_value.specs.ValueLists.{tree_pairs_of, trees_of};
ghost use Rattle.ciborium_value.specs.View.{tree_of};
ghost use Rattle.ciborium_ll.specs.declared.kind.Kind.TheVariants.{DuplicateKey, TooLarge};

use crate::bignum::{find_folding, fold_number, without_leading_zeros};
use crate::canonical::{cmp_bytewise, cmp_keys};
use crate::key_order::KeyOrder;
use crate::tree::Value;
use ciborium_ll::Kind;
use std::cmp::Ordering;

impl Value {
    /// Puts the value into its deterministic form, in place: a bignum that fits in 64 bits becomes
    /// an integer, another of at most 16 bytes loses its leading zeros (RFC 8949, section 3.4.3),
    /// and the pairs of each map, inner maps first, are sorted by the encodings of their keys in
    /// this order (sections 4.2.1 and 4.2.3). Its encoding is then the one deterministic encoding.
    /// This takes no memory, and n log n comparisons for a map of n pairs.
    ///
    /// # Errors
    ///
    /// `DuplicateKey` where two keys of a map have the same form, and `TooLarge` where a bignum of
    /// at most 16 bytes is negative and no `i128` holds it: such a value has no deterministic form.
    /// The error is the first of these in the order of the encoding, in which a map comes after its
    /// pairs. The value is then the same as before, but for the order of pairs and folded bignums.
    pub fn make_deterministic(&mut self, order: KeyOrder) -> Result<(), Kind>
        ensures ok { IfOk result (λ u.
            deterministic_form order (tree_of self.old) ≡ gives (tree_of self.new)) }
        ensures refused { IfErr result (λ kind.
            deterministic_form order (tree_of self.old) ≡ refuses kind) }
        ensures kinds { IfErr result (λ kind. (kind ≡ DuplicateKey) ⊎ (kind ≡ TooLarge)) }
        ensures alike { IsAlike (tree_of self.old) (tree_of self.new) }
    {
        make(self, order)
    }

    /// Whether the value is its own deterministic form: whether `make_deterministic` would change
    /// nothing. Where it nests within the limit, its encoding is then what the deterministic reader
    /// of this order accepts (RFC 8949, section 4.2). It takes no memory.
    pub fn is_deterministic(&self, order: KeyOrder) -> bool
        ensures { IsTrue result ↔
            (deterministic_form order (tree_of self.now) ≡ gives (tree_of self.now)) }
    {
        is_formed(self, order)
    }
}

// ---- making a form

#[cycle(make)]
fn make(value: &mut Value, order: KeyOrder) -> Result<(), Kind>
    ensures ok { IfOk result (λ u.
        deterministic_form order (tree_of value.old) ≡ gives (tree_of value.new)) }
    ensures refused { IfErr result (λ kind.
        deterministic_form order (tree_of value.old) ≡ refuses kind) }
    ensures alike { IsAlike (tree_of value.old) (tree_of value.new) }
{
    match value {
        Value::Tag(tag, content) => match find_folding(*tag, content) {
            Some(bytes) => {
                match fold_number(*tag, bytes)? {
                    Some(number) => *value = Value::Integer(number),
                    None => remove_leading_zeros(content),
                }
                Ok(())
            }
            None => make(content, order),
        },
        Value::Array(items) => make_items(items, order),
        Value::Map(pairs) => {
            make_pairs(pairs, order)?;
            sort_pairs(pairs, order)
        }
        _ => Ok(()),
    }
}

// Each of the items.
#[cycle(make)]
fn make_items(items: &mut Vec<Value>, order: KeyOrder) -> Result<(), Kind>
    ensures ok { IfOk result (λ u.
        deterministic_forms order (trees_of items.old.items) ≡ gives (trees_of items.new.items)) }
    ensures refused { IfErr result (λ kind.
        deterministic_forms order (trees_of items.old.items) ≡ refuses kind) }
    ensures alike { AreAlike (trees_of items.old.items) (trees_of items.new.items) }
{
    for item in items.iter_mut() {
        make(item, order)?;
    }
    Ok(())
}

// Each key and each value, the pairs as they stand.
#[cycle(make)]
fn make_pairs(pairs: &mut Vec<(Value, Value)>, order: KeyOrder) -> Result<(), Kind>
    ensures ok { IfOk result (λ u.
        pair_forms order (tree_pairs_of pairs.old.items) ≡ gives (tree_pairs_of pairs.new.items)) }
    ensures refused { IfErr result (λ kind.
        pair_forms order (tree_pairs_of pairs.old.items) ≡ refuses kind) }
    ensures alike { PairsAreAlike (tree_pairs_of pairs.old.items) (tree_pairs_of pairs.new.items) }
{
    for pair in pairs.iter_mut() {
        make(&mut pair.0, order)?;
        make(&mut pair.1, order)?;
    }
    Ok(())
}

// Sorts the pairs by their keys, of which no two may be equal.
fn sort_pairs(pairs: &mut Vec<(Value, Value)>, order: KeyOrder) -> Result<(), Kind>
    ensures ok { IfOk result (λ u. sorted_pairs order (tree_pairs_of pairs.old.items)
        ≡ gives (tree_pairs_of pairs.new.items)) }
    ensures refused { IfErr result (λ kind.
        sorted_pairs order (tree_pairs_of pairs.old.items) ≡ refuses kind) }
    ensures alike { PairsAreAlike (tree_pairs_of pairs.old.items) (tree_pairs_of pairs.new.items) }
{
    pairs.sort_unstable_by(|left, right| cmp_keys(order, &left.0, &right.0));
    if keys_differ(pairs) {
        Ok(())
    } else {
        Err(Kind::DuplicateKey)
    }
}

// Whether each key differs from the one before it. That costs less than to compare their sizes.
fn keys_differ(pairs: &[(Value, Value)]) -> bool
    ensures { IsTrue result ↔ AreApart (keys_of (tree_pairs_of pairs.now)) }
{
    let mut rest = pairs;
    while let [first, behind @ ..] = rest {
        if let [second, ..] = behind
            && cmp_bytewise(&first.0, &second.0).is_eq()
        {
            return false;
        }
        rest = behind;
    }
    true
}

// Takes the leading zeros from a byte string.
fn remove_leading_zeros(content: &mut Value)
    ensures { (b : List ℕ) → tree_of content.old ≡ trees.bytes b →
        tree_of content.new ≡ trees.bytes (without_zeros b) }
{
    if let Value::Bytes(bytes) = content {
        remove_zeros(bytes);
    }
}

// The same of its bytes.
fn remove_zeros(bytes: &mut Vec<u8>)
    ensures { bytes.new.items ≡ without_zeros bytes.old.items }
{
    let zeros = bytes.len() - without_leading_zeros(bytes).len();
    bytes.drain(..zeros);
}

// ---- judging a form

// Whether the value is its own form.
#[cycle(is_formed)]
fn is_formed(value: &Value, order: KeyOrder) -> bool
    ensures { IsTrue result ↔ IsFormed order (tree_of value.now) }
{
    match value {
        Value::Tag(tag, content) => match find_folding(*tag, content) {
            Some(bytes) => is_folded(*tag, bytes),
            None => is_formed(content, order),
        },
        Value::Array(items) => are_formed(items, order),
        Value::Map(pairs) => keys_rise(pairs, order) && pairs_are_formed(pairs, order),
        _ => true,
    }
}

// Whether each of the items is.
#[cycle(is_formed)]
fn are_formed(items: &Vec<Value>, order: KeyOrder) -> bool
    ensures { IsTrue result ↔ AreFormed order (trees_of items.now.items) }
{
    for item in items {
        if !is_formed(item, order) {
            return false;
        }
    }
    true
}

// Whether each key and each value is.
#[cycle(is_formed)]
fn pairs_are_formed(pairs: &Vec<(Value, Value)>, order: KeyOrder) -> bool
    ensures { IsTrue result ↔ PairsAreFormed order (tree_pairs_of pairs.now.items) }
{
    for pair in pairs {
        if !is_formed(&pair.0, order) {
            return false;
        }
        if !is_formed(&pair.1, order) {
            return false;
        }
    }
    true
}

// Whether each key stands behind the one before it.
fn keys_rise(pairs: &[(Value, Value)], order: KeyOrder) -> bool
    ensures { IsTrue result ↔ AreRising order (keys_of (tree_pairs_of pairs.now)) }
{
    let mut rest = pairs;
    while let [first, behind @ ..] = rest {
        if let [second, ..] = behind
            && cmp_keys(order, &first.0, &second.0) != Ordering::Less
        {
            return false;
        }
        rest = behind;
    }
    true
}

// Whether the tag of a bignum stands over these bytes as it folds: they are no number of 64 bits,
// and have no leading zeros.
fn is_folded(tag: u64, bytes: &[u8]) -> bool
    requires tag { is_bignum_tag tag ≡ true }
    requires short { length bytes.now ≤ 16 }
    ensures { IsTrue result ↔
        (bignum_meaning tag bytes.now ≡ Some (trees.tag tag (trees.bytes bytes.now))) }
{
    match fold_number(tag, bytes) {
        Ok(None) => without_leading_zeros(bytes).len() == bytes.len(),
        _ => false,
    }
}
