//! Copies of values.

ghost use Rattle.std.specs.Prelude.{◌≡◌, IfOk};
ghost use Rattle.ciborium_value.specs.ValueLists.{tree_pairs_of, trees_of};
ghost use Rattle.ciborium_value.specs.View.{tree_of};

use crate::tree::Value;
use std::alloc::{AllocError, Global};

/// A copy of equal content, or the error where an allocation failed.
impl Clone for Value {
    ghost is_clone = { λ v w. tree_of w ≡ tree_of v };

    fn clone(&self) -> Result<Value, AllocError> {
        copy(self)
    }
}

#[cycle(copy)]
fn copy(value: &Value) -> Result<Value, AllocError>
    ensures { IfOk result (λ v. tree_of v ≡ tree_of value.now) }
{
    match value {
        Value::Integer(number) => Ok(Value::Integer(*number)),
        Value::Bytes(bytes) => Ok(Value::Bytes(bytes.clone()?)),
        Value::Text(text) => Ok(Value::Text(text.clone()?)),
        Value::Bool(boolean) => Ok(Value::Bool(*boolean)),
        Value::Null => Ok(Value::Null),
        Value::Tag(tag, content) => {
            let copied = copy(content)?;
            Ok(Value::Tag(*tag, Box::new(*Box::allocator(content), copied)?))
        }
        Value::Array(values) => Ok(Value::Array(copy_values(*values.allocator(), values)?)),
        Value::Map(pairs) => Ok(Value::Map(copy_pairs(*pairs.allocator(), pairs)?)),
    }
}

#[cycle(copy)]
pub(crate) fn copy_values(alloc: Global, values: &[Value]) -> Result<Vec<Value>, AllocError>
    ensures { IfOk result (λ v. trees_of v.items ≡ trees_of values.now) }
{
    let mut copies = Vec::new(alloc);
    for value in values {
        copies.push(copy(value)?)?;
    }
    Ok(copies)
}

#[cycle(copy)]
pub(crate) fn copy_pairs(
    alloc: Global,
    pairs: &[(Value, Value)],
) -> Result<Vec<(Value, Value)>, AllocError>
    ensures { IfOk result (λ v. tree_pairs_of v.items ≡ tree_pairs_of pairs.now) }
{
    let mut copies = Vec::new(alloc);
    for pair in pairs {
        let key = copy(&pair.0)?;
        let Ok(value) = copy(&pair.1) else {
            drop(key);
            return Err(AllocError);
        };
        copies.push((key, value))?;
    }
    Ok(copies)
}
