//! Values from types of the language.

ghost use Rattle.std.specs.Prelude.{◌≡◌, pos, IfOk, encode_utf8};
ghost use Rattle.ciborium_value.specs.Encoding.{item_of};
ghost use Rattle.ciborium_value.specs.Number.{number_tree, shortest_bytes};
ghost use Rattle.ciborium_value.specs.Sinks.{number_item};
ghost use Rattle.ciborium_value.specs.Tree as trees;
ghost use Rattle.ciborium_value.specs.ValueLists.{tree_pairs_of, trees_of};
ghost use Rattle.ciborium_value.specs.View.{tree_of};
ghost use Rattle.ciborium_value.specs.declared.tree.Value as value;

use crate::bignum::{tag_over, without_leading_zeros};
use crate::clone::{copy_pairs, copy_values};
use crate::tree::Value;
use ciborium_ll::Integer;
use ciborium_ll::tag::{BIGNEG, BIGPOS};
use std::alloc::{AllocError, Global};
use std::convert::TryFrom;

// ---- without memory

/// The integer.
impl From<Integer> for Value {
    ghost from_gives = { λ z v. v ≡ value.Integer z };

    fn from(number: Integer) -> Value {
        Value::Integer(number)
    }
}

/// The same number, as an integer.
impl From<u8> for Value {
    ghost from_gives = { λ n v. v ≡ value.Integer (pos n) };

    fn from(number: u8) -> Value {
        Value::Integer(Integer::from(number))
    }
}

/// The same number, as an integer.
impl From<u16> for Value {
    ghost from_gives = { λ n v. v ≡ value.Integer (pos n) };

    fn from(number: u16) -> Value {
        Value::Integer(Integer::from(number))
    }
}

/// The same number, as an integer.
impl From<u32> for Value {
    ghost from_gives = { λ n v. v ≡ value.Integer (pos n) };

    fn from(number: u32) -> Value {
        Value::Integer(Integer::from(number))
    }
}

/// The same number, as an integer.
impl From<u64> for Value {
    ghost from_gives = { λ n v. v ≡ value.Integer (pos n) };

    fn from(number: u64) -> Value {
        Value::Integer(Integer::from(number))
    }
}

/// The same number, as an integer.
impl From<i8> for Value {
    ghost from_gives = { λ n v. v ≡ value.Integer n };

    fn from(number: i8) -> Value {
        Value::Integer(Integer::from(number))
    }
}

/// The same number, as an integer.
impl From<i16> for Value {
    ghost from_gives = { λ n v. v ≡ value.Integer n };

    fn from(number: i16) -> Value {
        Value::Integer(Integer::from(number))
    }
}

/// The same number, as an integer.
impl From<i32> for Value {
    ghost from_gives = { λ n v. v ≡ value.Integer n };

    fn from(number: i32) -> Value {
        Value::Integer(Integer::from(number))
    }
}

/// The same number, as an integer.
impl From<i64> for Value {
    ghost from_gives = { λ n v. v ≡ value.Integer n };

    fn from(number: i64) -> Value {
        Value::Integer(Integer::from(number))
    }
}

/// False or true.
impl From<bool> for Value {
    ghost from_gives = { λ b v. v ≡ value.Bool b };

    fn from(boolean: bool) -> Value {
        Value::Bool(boolean)
    }
}

/// The text.
impl From<String> for Value {
    ghost from_gives = { λ s v. v ≡ value.Text s };

    fn from(text: String) -> Value {
        Value::Text(text)
    }
}

/// The byte string.
impl From<Vec<u8>> for Value {
    ghost from_gives = { λ b v. v ≡ value.Bytes b };

    fn from(bytes: Vec<u8>) -> Value {
        Value::Bytes(bytes)
    }
}

/// The array.
impl From<Vec<Value>> for Value {
    ghost from_gives = { λ vs v. v ≡ value.Array vs };

    fn from(values: Vec<Value>) -> Value {
        Value::Array(values)
    }
}

/// The map, its pairs in order.
impl From<Vec<(Value, Value)>> for Value {
    ghost from_gives = { λ ps v. v ≡ value.Map ps };

    fn from(pairs: Vec<(Value, Value)>) -> Value {
        Value::Map(pairs)
    }
}

// ---- with memory

/// Each call leaves its arguments as they were, and returns the error only where an allocation
/// failed.
impl Value {
    /// An integer, where the number is below 2^64. A greater number is tag 2 over its bytes, the
    /// most significant first, without leading zeros (RFC 8949, section 3.4.3).
    pub fn from_u128(alloc: Global, number: u128) -> Result<Value, AllocError>
        ensures number { IfOk result (λ v. tree_of v ≡ number_tree (pos number)) }
        ensures item { IfOk result (λ v. item_of (tree_of v) ≡ number_item (pos number)) }
    {
        match Integer::try_from(number) {
            Ok(number) => Ok(Value::Integer(number)),
            Err(_) => tag_number(alloc, BIGPOS, number),
        }
    }

    /// An integer, where the number is from -2^64 to 2^64 - 1. A greater number is tag 2 over its
    /// bytes, and a lower one, -1 - n, tag 3 over the bytes of n, the most significant first,
    /// without leading zeros (section 3.4.3).
    pub fn from_i128(alloc: Global, number: i128) -> Result<Value, AllocError>
        ensures number { IfOk result (λ v. tree_of v ≡ number_tree number) }
        ensures item { IfOk result (λ v. item_of (tree_of v) ≡ number_item number) }
    {
        match Integer::try_from(number) {
            Ok(number) => Ok(Value::Integer(number)),
            Err(_) if number < 0 => tag_number(alloc, BIGNEG, (-1 - number) as u128),
            Err(_) => tag_number(alloc, BIGPOS, number as u128),
        }
    }

    /// A text of this character.
    pub fn from_char(alloc: Global, character: char) -> Result<Value, AllocError>
        ensures text { IfOk result (λ v. tree_of v ≡ trees.text (encode_utf8 character)) }
    {
        let mut text = String::new(alloc);
        text.push(character)?;
        Ok(Value::Text(text))
    }

    /// A copy of the text.
    pub fn from_text(alloc: Global, text: &str) -> Result<Value, AllocError>
        ensures text { IfOk result (λ v. tree_of v ≡ trees.text text.now) }
    {
        let text = String::from_str(alloc, text)?;
        Ok(Value::Text(text))
    }

    /// A byte string, with a copy of the bytes.
    pub fn from_bytes(alloc: Global, bytes: &[u8]) -> Result<Value, AllocError>
        ensures bytes { IfOk result (λ v. tree_of v ≡ trees.bytes bytes.now) }
    {
        let bytes = Vec::from_slice(alloc, bytes)?;
        Ok(Value::Bytes(bytes))
    }

    /// An array, with copies of the values.
    pub fn from_values(alloc: Global, values: &[Value]) -> Result<Value, AllocError>
        ensures array { IfOk result (λ v. tree_of v ≡ trees.array (trees_of values.now)) }
    {
        let values = copy_values(alloc, values)?;
        Ok(Value::Array(values))
    }

    /// A map, with copies of the pairs, in order.
    pub fn from_pairs(alloc: Global, pairs: &[(Value, Value)]) -> Result<Value, AllocError>
        ensures map { IfOk result (λ v. tree_of v ≡ trees.map (tree_pairs_of pairs.now)) }
    {
        let pairs = copy_pairs(alloc, pairs)?;
        Ok(Value::Map(pairs))
    }
}

// The tag over the bytes of the number, without leading zeros.
#[tactic(auto, unfolding(crate::specs::Number::shortest_bytes))]
fn tag_number(alloc: Global, tag: u64, number: u128) -> Result<Value, AllocError>
    ensures { IfOk result (λ v. tree_of v ≡ trees.tag tag (trees.bytes (shortest_bytes number))) }
{
    tag_over(alloc, tag, without_leading_zeros(&number.to_be_bytes()))
}
