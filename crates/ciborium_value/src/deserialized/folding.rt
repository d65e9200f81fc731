//! Copies of values in which bignums are folded.

ghost use Rattle.std.specs.Prelude.{◌≡◌, IfErr, IfOk, Some};
ghost use Rattle.ciborium_value.specs.Folded.{folded, tree_pairs_folded, trees_folded};
ghost use Rattle.ciborium_value.specs.Tree as trees;
ghost use Rattle.ciborium_value.specs.ValueLists.{tree_pairs_of, trees_of};
ghost use Rattle.ciborium_value.specs.View.{tree_of};
ghost use Rattle.ciborium_value.specs.inner.FoldedCopies.{RefusesFolding};

use crate::bignum::{find_folding, fold};
use crate::error::Error;
use crate::tree::Value;
use std::alloc::Global;

/// A copy in which each tag 2 or 3 that folds is folded (RFC 8949, section 3.4.3).
#[cycle(fold_value)]
pub(super) fn fold_value(alloc: Global, value: &Value) -> Result<Value, Error>
    ensures ok { IfOk result (λ v. folded (tree_of value.now) ≡ Some (tree_of v)) }
    ensures refused { IfErr result (λ e. RefusesFolding e (folded (tree_of value.now))) }
{
    match value {
        Value::Tag(tag, content) => fold_tag(alloc, *tag, content),
        Value::Array(values) => Ok(Value::Array(fold_values(alloc, values)?)),
        Value::Map(pairs) => Ok(Value::Map(fold_pairs(alloc, pairs)?)),
        _ => Ok(value.clone()?),
    }
}

// What the bytes mean over which a tag folds, else the tag over a copy of its content.
#[cycle(fold_value)]
fn fold_tag(alloc: Global, tag: u64, content: &Value) -> Result<Value, Error>
    ensures ok { IfOk result (λ v.
        folded (trees.tag tag (tree_of content.now)) ≡ Some (tree_of v)) }
    ensures refused { IfErr result
        (λ e. RefusesFolding e (folded (trees.tag tag (tree_of content.now)))) }
{
    match find_folding(tag, content) {
        Some(bytes) => fold(alloc, tag, bytes),
        None => {
            let copy = fold_value(alloc, content)?;
            Ok(Value::Tag(tag, Box::new(alloc, copy)?))
        }
    }
}

// Each of the items.
#[cycle(fold_value)]
fn fold_values(alloc: Global, values: &[Value]) -> Result<Vec<Value>, Error>
    ensures ok { IfOk result (λ copies.
        trees_folded (trees_of values.now) ≡ Some (trees_of copies.items)) }
    ensures refused { IfErr result (λ e. RefusesFolding e (trees_folded (trees_of values.now))) }
{
    let mut copies = Vec::new(alloc);
    for value in values {
        copies.push(fold_value(alloc, value)?)?;
    }
    Ok(copies)
}

// Each key and each value.
#[cycle(fold_value)]
fn fold_pairs(alloc: Global, pairs: &[(Value, Value)]) -> Result<Vec<(Value, Value)>, Error>
    ensures ok { IfOk result (λ copies.
        tree_pairs_folded (tree_pairs_of pairs.now) ≡ Some (tree_pairs_of copies.items)) }
    ensures refused { IfErr result
        (λ e. RefusesFolding e (tree_pairs_folded (tree_pairs_of pairs.now))) }
{
    let mut copies = Vec::new(alloc);
    for pair in pairs {
        let key = fold_value(alloc, &pair.0)?;
        let value = match fold_value(alloc, &pair.1) {
            Ok(value) => value,
            Err(e) => {
                drop(key);
                return Err(e);
            }
        };
        copies.push((key, value))?;
    }
    Ok(copies)
}
