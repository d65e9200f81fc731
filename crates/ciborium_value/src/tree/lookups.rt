//! What a `Value` holds at a label or an index, and another value put there. None of these calls
//! takes memory.

ghost use Rattle.std.specs.Prelude.{◌≡◌, ◌≢◌, ◌↔◌, ◌<◌, IfErr, IfOk, IfSome, IsTrue, MatchOption};
ghost use Rattle.std.specs.Prelude.{None, OnErr, OnOk, Some, drop, length, option_map, suc, ℕ};
ghost use Rattle.std.specs.List.{HoldsAt};
ghost use Rattle.ciborium_value.specs.Labels.{Label, is_label};
ghost use Rattle.ciborium_value.specs.Lookups.{last_with, parts_of, replaced_at, replaced_under};
ghost use Rattle.ciborium_value.specs.Lookups.{signed_of, tree_at, tree_label, tree_under};
ghost use Rattle.ciborium_value.specs.Lookups.{unsigned_of};
ghost use Rattle.ciborium_value.specs.ValueLists.{tree_pairs_of};
ghost use Rattle.ciborium_value.specs.View.{tree_of};

use crate::labels::SoughtLabel;
use crate::tree::Value;
use std::convert::TryFrom;
use std::mem;

impl Value {
    /// The value under a key of a map, `value.get("name")` or `value.get(7)`: that of the last pair
    /// whose key is this text or this integer, as where a struct is read the last of equal fields
    /// counts (RFC 8949, sections 3.1 and 5.6). `None` where no key is, and where the value is no
    /// map. Tags are not looked through, nor is a byte string a text.
    pub fn get<L: SoughtLabel>(&self, label: L) -> Option<&Value>
        ensures { option_map (λ v. tree_of v.now) result ≡
            tree_under (L.label label) (tree_of self.now) }
    {
        match self {
            Value::Map(pairs) => match last_place(pairs, &label) {
                Some(place) => Some(&pairs[place].1),
                None => None,
            },
            _ => None,
        }
    }

    /// The item of an array at an index, from 0 (RFC 8949, section 3.1). `None` where there are
    /// not so many, and where the value is no array.
    pub fn at(&self, index: usize) -> Option<&Value>
        ensures { option_map (λ v. tree_of v.now) result ≡ tree_at index (tree_of self.now) }
    {
        match self {
            Value::Array(items) => items.get(index),
            _ => None,
        }
    }

    /// Puts a value in the place of the one that `get` finds under a key, and answers that one, as
    /// `std::mem::replace` does: `value.replace("name", new)`. Where `get` finds none nothing
    /// changes, and the new value is handed back: no pair is added.
    pub fn replace<L: SoughtLabel>(&mut self, label: L, value: Value) -> Result<Value, Value>
        ensures ok { IfOk result (λ v.
            tree_under (L.label label) (tree_of self.old) ≡ Some (tree_of v)) }
        ensures tree { OnOk result (tree_of self.new ≡
            replaced_under (L.label label) (tree_of value) (tree_of self.old)) }
        ensures found { OnOk result
            (tree_under (L.label label) (tree_of self.new) ≡ Some (tree_of value)) }
        ensures others { (l : Label) → l ≢ L.label label →
            tree_under l (tree_of self.new) ≡ tree_under l (tree_of self.old) }

        ensures err { OnErr result (tree_under (L.label label) (tree_of self.old) ≡ None) }
        ensures unchanged { IfErr result (λ v. (v ≡ value) × (self.new ≡ self.old)) }
    {
        match self {
            Value::Map(pairs) => match last_place(pairs, &label) {
                Some(place) => Ok(mem::replace(&mut pairs[place].1, value)),
                None => Err(value),
            },
            _ => Err(value),
        }
    }

    /// Puts a value in the place of an array's item at an index, from 0, and answers that item.
    /// Where `at` finds none nothing changes, and the new value is handed back: no item is added.
    pub fn replace_at(&mut self, index: usize, value: Value) -> Result<Value, Value>
        ensures ok { IfOk result (λ v. tree_at index (tree_of self.old) ≡ Some (tree_of v)) }
        ensures tree { OnOk result
            (tree_of self.new ≡ replaced_at index (tree_of value) (tree_of self.old)) }
        ensures found { OnOk result (tree_at index (tree_of self.new) ≡ Some (tree_of value)) }
        ensures others { (i : ℕ) → i ≢ index →
            tree_at i (tree_of self.new) ≡ tree_at i (tree_of self.old) }

        ensures err { OnErr result (tree_at index (tree_of self.old) ≡ None) }
        ensures unchanged { IfErr result (λ v. (v ≡ value) × (self.new ≡ self.old)) }
    {
        match self {
            Value::Array(items) => match items.get_mut(index) {
                Some(item) => Ok(mem::replace(item, value)),
                None => Err(value),
            },
            _ => Err(value),
        }
    }

    /// How many items an array has, or how many pairs a map. `None` where the value is neither.
    pub fn len(&self) -> Option<usize>
        ensures { result ≡ parts_of (tree_of self.now) }
    {
        match self {
            Value::Array(items) => Some(items.len()),
            Value::Map(pairs) => Some(pairs.len()),
            _ => None,
        }
    }

    /// Whether the value is an array without items, or a map without pairs.
    pub fn is_empty(&self) -> bool
        ensures { IsTrue result ↔ (parts_of (tree_of self.now) ≡ Some 0) }
    {
        self.len() == Some(0)
    }

    /// The number of an integer from 0 on. `None` where it is negative, and where the value is no
    /// integer.
    pub fn as_u64(&self) -> Option<u64>
        ensures { result ≡ unsigned_of (tree_of self.now) }
    {
        match self {
            Value::Integer(number) => match number.head() {
                (false, argument) => Some(argument),
                _ => None,
            },
            _ => None,
        }
    }

    /// The number of an integer from -2^63 to 2^63 - 1. `None` where it is another one, and where
    /// the value is no integer.
    pub fn as_i64(&self) -> Option<i64>
        ensures { result ≡ signed_of (tree_of self.now) }
    {
        match self {
            Value::Integer(number) => i64::try_from(*number).ok(),
            _ => None,
        }
    }
}

// Whether a key is this label.
fn is_under<L: SoughtLabel>(key: &Value, label: &L) -> bool
    ensures { result ≡ is_label (tree_label (tree_of key.now)) (L.label label.now) }
{
    match key {
        Value::Text(name) => label.is_name(name),
        Value::Integer(number) => {
            let (negative, argument) = number.head();
            label.is_number(negative, u128::from(argument))
        }
        _ => false,
    }
}

// The index of the last pair under a label.
fn last_place<L: SoughtLabel>(pairs: &[(Value, Value)], label: &L) -> Option<usize>
    ensures value { MatchOption result
        (last_with (L.label label.now) (tree_pairs_of pairs.now) ≡ None)
        (λ i. (i < length pairs.now) × HoldsAt (λ p. last_with (L.label label.now)
        (tree_pairs_of pairs.now) ≡ Some (tree_of p.1)) pairs.now i) }
    ensures label { IfSome result (λ i. HoldsAt (λ p. IsTrue (is_label (tree_label (tree_of p.0))
        (L.label label.now))) pairs.now i) }
    ensures none_behind { IfSome result (λ i.
        last_with (L.label label.now) (tree_pairs_of (drop (suc i) pairs.now)) ≡ None) }
{
    let mut end = pairs.len();
    while end > 0 {
        end -= 1;
        if is_under(&pairs[end].0, label) {
            return Some(end);
        }
    }
    None
}
