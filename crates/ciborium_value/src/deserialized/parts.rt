//! What is found at a value, behind its tags.

ghost use Rattle.std.specs.Prelude.{◌≡◌, ◌+◌, ◌<◌, ◌≤◌, IfErr, IfNone, IfOk, IfSome, MatchOption};
ghost use Rattle.std.specs.Prelude.{Err, None, Ok, chars, false, map, string_bytes};
ghost use Rattle.ciborium_value.specs.Counts.{tree_pairs_node_count, tree_pairs_payload_size};
ghost use Rattle.ciborium_value.specs.Encoding.{pairs_of};
ghost use Rattle.ciborium_value.specs.Labels.{label_type, label_place};
ghost use Rattle.ciborium_value.specs.Sources.{IsGrantedFault};
ghost use Rattle.ciborium_value.specs.Given as given;
ghost use Rattle.ciborium_value.specs.Given.{bignum_of, gives, outcome, outcome_map, refuses};
ghost use Rattle.ciborium_value.specs.Given.{settled, take_each, given_boolean, given_byte};
ghost use Rattle.ciborium_value.specs.Given.{given_bytes, given_character, given_integer};
ghost use Rattle.ciborium_value.specs.Given.{given_name, given_text, given_unit};
ghost use Rattle.ciborium_value.specs.inner.TreeSources.{value_weight};
ghost use Rattle.ciborium_value.specs.TreeAnswers.{IsErrorOf, tree_fault, value_item};
ghost use Rattle.ciborium_value.specs.ValueLists.{tree_pairs_of};
ghost use Rattle.ciborium_ll.specs.declared.kind.Kind.TheVariants as kinds;

use crate::bignum::find_magnitude;
use crate::error::Error;
use crate::labels::{LabelType, Labels};
use crate::tree::Value;
use ciborium_ll::Kind;
use ciborium_ll::tag::{BIGNEG, is_bignum};
use std::alloc::Global;

// A value without its leading tags.
pub(super) fn skip_tags(value: &Value) -> &Value
    ensures item { value_item result.now ≡ given.untagged (value_item value.now) }
    ensures less { value_weight result.now ≤ value_weight value.now }
{
    let mut bare = value;
    while let Value::Tag(_, content) = bare {
        bare = content;
    }
    bare
}

// The number of a bignum's bytes.
fn find_bignum(value: &Value) -> Result<u128, Error>
    ensures ok { IfOk result (λ n. bignum_of (value_item value.now) ≡ Ok n) }
    ensures refused { IfErr result
        (λ e. IsErrorOf e (settled (bignum_of (value_item value.now)))) }
    ensures memory { IfErr result (λ e. IsGrantedFault (tree_fault e) false) }
{
    match value {
        Value::Bytes(bytes) => match find_magnitude(bytes) {
            Some(number) => Ok(number),
            None => Err(Error::Custom(Kind::TooLarge)),
        },
        _ => Err(Error::Custom(Kind::Bytes)),
    }
}

// The number of a value.
pub(super) fn find_number(value: &Value) -> Result<(bool, u128), Error>
    ensures ok { IfOk result (λ v. outcome None (given_integer (value_item value.now)) ≡ gives v) }
    ensures refused { IfErr result
        (λ e. IsErrorOf e (outcome None (given_integer (value_item value.now)))) }
    ensures memory { IfErr result (λ e. IsGrantedFault (tree_fault e) false) }
{
    let mut inner = value;
    'tags: loop {
        match inner {
            Value::Integer(number) => {
                let (negative, argument) = number.head();
                return Ok((negative, u128::from(argument)));
            }
            Value::Tag(tag, content) => {
                if is_bignum(*tag) {
                    let number = find_bignum(content)?;
                    return Ok((*tag == BIGNEG, number));
                }
                inner = content;
            }
            _ => return Err(Error::Custom(Kind::Integer)),
        }
    }
}

// How a value is read as a label.
fn find_label_type(value: &Value) -> LabelType
    ensures { result ≡ label_type (value_item value.now) }
{
    match value {
        Value::Integer(_) => LabelType::Number,
        Value::Bytes(_) | Value::Text(_) => LabelType::Name,
        Value::Tag(tag, _) => {
            if is_bignum(*tag) {
                LabelType::Number
            } else {
                LabelType::Name
            }
        }
        _ => LabelType::Other,
    }
}

// The place of a value among these labels, where it is a key.
pub(super) fn find_place<N: Labels>(value: &Value, labels: &N) -> Result<N::Place, Error>
    ensures ok { IfOk result (λ p.
        outcome None (label_place (N.place_of labels.now) (value_item value.now)) ≡ gives p) }
    ensures refused { IfErr result (λ e. IsErrorOf e
        (outcome None (label_place (N.place_of labels.now) (value_item value.now)))) }
{
    match find_label_type(value) {
        LabelType::Name => Ok(labels.find_name(find_name(value)?)),
        LabelType::Number => {
            let (negative, n) = find_number(value)?;
            Ok(labels.find_number(negative, n))
        }
        LabelType::Other => Ok(labels.find_other()),
    }
}

pub(super) fn find_boolean(value: &Value) -> Result<bool, Error>
    ensures ok { IfOk result (λ v. outcome None (given_boolean (value_item value.now)) ≡ gives v) }
    ensures refused { IfErr result
        (λ e. IsErrorOf e (outcome None (given_boolean (value_item value.now)))) }
    ensures memory { IfErr result (λ e. IsGrantedFault (tree_fault e) false) }
{
    match skip_tags(value) {
        Value::Bool(boolean) => Ok(*boolean),
        _ => Err(Error::Custom(Kind::Bool)),
    }
}

pub(super) fn find_null(value: &Value) -> Result<(), Error>
    ensures ok { IfOk result (λ v. outcome None (given_unit (value_item value.now)) ≡ gives v) }
    ensures refused { IfErr result
        (λ e. IsErrorOf e (outcome None (given_unit (value_item value.now)))) }
    ensures memory { IfErr result (λ e. IsGrantedFault (tree_fault e) false) }
{
    match skip_tags(value) {
        Value::Null => Ok(()),
        _ => Err(Error::Custom(Kind::Unit)),
    }
}

pub(super) fn find_character(value: &Value) -> Result<char, Error>
    ensures ok { IfOk result
        (λ v. outcome None (given_character (value_item value.now)) ≡ gives v) }
    ensures refused { IfErr result
        (λ e. IsErrorOf e (outcome None (given_character (value_item value.now)))) }
    ensures memory { IfErr result (λ e. IsGrantedFault (tree_fault e) false) }
{
    let Value::Text(text) = skip_tags(value) else {
        return Err(Error::Custom(Kind::Char));
    };
    match lone_character(text) {
        Some(character) => Ok(character),
        None => Err(Error::Custom(Kind::Char)),
    }
}

pub(super) fn copy_text(alloc: Global, value: &Value) -> Result<String, Error>
    ensures ok { IfOk result
        (λ v. outcome None (given_text (value_item value.now)) ≡ gives (string_bytes v)) }
    ensures refused { IfErr result
        (λ e. IsErrorOf e (outcome None (given_text (value_item value.now)))) }
{
    match skip_tags(value) {
        Value::Text(text) => Ok(String::from_str(alloc, text)?),
        _ => Err(Error::Custom(Kind::Text)),
    }
}

// The name that a value is.
pub(super) fn find_name(value: &Value) -> Result<&str, Error>
    ensures ok { IfOk result (λ v. outcome None (given_name (value_item value.now)) ≡ gives v.now) }
    ensures refused { IfErr result
        (λ e. IsErrorOf e (outcome None (given_name (value_item value.now)))) }
{
    match skip_tags(value) {
        Value::Text(text) => Ok(text),
        Value::Bytes(bytes) => match str::from_utf8(bytes) {
            Ok(text) => Ok(text),
            Err(_) => Err(Error::Custom(Kind::Name)),
        },
        _ => Err(Error::Custom(Kind::Name)),
    }
}

pub(super) fn copy_name(alloc: Global, value: &Value) -> Result<String, Error>
    ensures ok { IfOk result
        (λ v. outcome None (given_name (value_item value.now)) ≡ gives (string_bytes v)) }
    ensures refused { IfErr result
        (λ e. IsErrorOf e (outcome None (given_name (value_item value.now)))) }
{
    Ok(String::from_str(alloc, find_name(value)?)?)
}

// The one pair of a map that has just one.
pub(super) fn find_lone_pair(pairs: &[(Value, Value)]) -> Option<(&Value, &Value)>
    ensures none { IfNone result
        (outcome None (given.lone_pair (pairs_of (tree_pairs_of pairs.now)))
        ≡ refuses kinds.Variant) }
    ensures some { IfSome result
        (λ p. outcome None (given.lone_pair (pairs_of (tree_pairs_of pairs.now)))
        ≡ outcome_map (λ name. (name, value_item p.1.now))
        (outcome None (given_name (value_item p.0.now)))) }
    ensures less { IfSome result (λ p. value_weight p.1.now
        < tree_pairs_node_count (tree_pairs_of pairs.now)
        + tree_pairs_payload_size (tree_pairs_of pairs.now)) }
{
    let ((key, value), rest) = pairs.split_first()?;
    if rest.is_empty() {
        Some((key, value))
    } else {
        None
    }
}

// A number from 0 to 255.
fn find_byte(value: &Value) -> Result<u8, Error>
    ensures ok { IfOk result (λ v. outcome None (given_byte (value_item value.now)) ≡ gives v) }
    ensures refused { IfErr result
        (λ e. IsErrorOf e (outcome None (given_byte (value_item value.now)))) }
{
    let (negative, number) = find_number(value)?;
    if negative || number > 255 {
        return Err(Error::Custom(Kind::Range));
    }
    Ok(number as u8)
}

fn copy_bytes_of(alloc: Global, values: &[Value]) -> Result<Vec<u8>, Error>
    ensures ok { IfOk result
        (λ v. outcome None (take_each given_byte (map value_item values.now)) ≡ gives v.items) }
    ensures refused { IfErr result
        (λ e. IsErrorOf e (outcome None (take_each given_byte (map value_item values.now)))) }
{
    let mut bytes = Vec::new(alloc);
    for value in values {
        let byte = find_byte(value)?;
        match bytes.push(byte) {
            Ok(()) => {}
            Err(_) => return Err(Error::Memory),
        }
    }
    Ok(bytes)
}

pub(super) fn copy_bytes(alloc: Global, value: &Value) -> Result<Vec<u8>, Error>
    ensures ok { IfOk result
        (λ v. outcome None (given_bytes (value_item value.now)) ≡ gives v.items) }
    ensures refused { IfErr result
        (λ e. IsErrorOf e (outcome None (given_bytes (value_item value.now)))) }
{
    match skip_tags(value) {
        Value::Bytes(bytes) => Ok(Vec::from_slice(alloc, bytes)?),
        Value::Array(values) => copy_bytes_of(alloc, values),
        _ => Err(Error::Custom(Kind::Bytes)),
    }
}

// The character of a text that has just one.
fn lone_character(text: &str) -> Option<char>
    ensures { MatchOption result (given.lone_character (chars text.now) ≡ Err kinds.Char)
        (λ c. given.lone_character (chars text.now) ≡ Ok c) }
{
    let mut characters = text.chars();
    match characters.next() {
        Some(first) => match characters.next() {
            Some(_) => None,
            None => Some(first),
        },
        None => None,
    }
}
