//! A check of trees against a schema, before anything is made of them.
ghost use Rattle.std.specs.List.{list_all};
ghost use Rattle.std.specs.Prelude.{IfErr, IfOk, IsTrue, Some, map, not, ◌≡◌, ◌↔◌};
ghost use Rattle.ciborium.specs.Spelling.{IsReadAs, any};
ghost use Rattle.ciborium.specs.Tree.{Tree};
ghost use Rattle.ciborium.specs.ValueLists.{tree_pairs_of, trees_of};
ghost use Rattle.ciborium.specs.View.{tree_of};
ghost use Rattle.ciborium.specs.declared.de.error.Error.TheVariants.{Memory};
ghost use Rattle.ciborium_uses.specs.Shapes.{HasShape, all_trees, field_fits, field_test, fits};
ghost use Rattle.ciborium_uses.specs.Shapes.{has_field, is_text_of};
ghost use Rattle.ciborium_uses.specs.declared.schema.SchemaError.TheVariants.{Read as read};

mod lines;

use ciborium::{Value, de, from_slice};
pub use lines::answer;
use std::alloc::Global;
use std::{error, fmt, io};

/// What is asked of a tree.
#[derive(Debug, Drop, PartialEq)]
pub enum Shape {
    /// Any item.
    Any,
    Null,
    Bool,
    /// A number from `least` to `greatest`.
    Integer { least: i128, greatest: i128 },
    Text,
    Bytes,
    /// An array whose items all have the shape.
    Array(Box<Shape>),
    /// A map with a value of the shape under each name. A field that is not required may be
    /// missing; where a name is repeated each value has the shape; and what stands under other
    /// keys is not looked at.
    Map(Vec<(String, bool, Shape)>),
}

/// Why no tree of the wanted shape was read.
#[derive(Debug, Drop)]
pub enum SchemaError {
    /// No tree was read.
    Read(de::Error<io::Error>),
    /// The tree has another shape.
    Shape,
}

impl From<de::Error<io::Error>> for SchemaError {
    ghost from_gives = { λ e f. f ≡ read e };

    fn from(error: de::Error<io::Error>) -> SchemaError {
        SchemaError::Read(error)
    }
}

impl fmt::Display for SchemaError {
    fn fmt<W: fmt::Write>(&self, f: &mut fmt::Formatter<W>) -> fmt::Result {
        match self {
            SchemaError::Read(error) => write!(f, "{error}"),
            SchemaError::Shape => f.write_str("another shape"),
        }
    }
}

impl error::Error for SchemaError {}

/// Reads all of the bytes as a tree that has a shape, and refuses every other one. Bytes that are
/// such a tree within 256 levels are never refused but for want of memory.
pub fn read_shaped(alloc: Global, bytes: &[u8], shape: &Shape) -> Result<Value, SchemaError>
    ensures shape { IfOk result (λ value. HasShape shape.now (tree_of value)) }
    ensures bytes { IfOk result (λ value. IsReadAs any bytes.now 0 (Some 256) (tree_of value)) }
    ensures refused { IfErr result (λ e. (t : Tree) → IsReadAs any bytes.now 0 (Some 256) t →
        HasShape shape.now t → e ≡ read Memory) }
{
    let value: Value = from_slice(alloc, bytes)?;
    if has_shape(shape, &value) {
        Ok(value)
    } else {
        Err(SchemaError::Shape)
    }
}

/// Whether a tree has a shape. It takes no memory, and goes as deep as the shape.
#[cycle(has_shape)]
pub fn has_shape(shape: &Shape, value: &Value) -> bool
    ensures exactly { IsTrue result ↔ HasShape shape.now (tree_of value.now) }
    ensures test { result ≡ fits shape.now (tree_of value.now) }
{
    match (shape, value) {
        (Shape::Any, _) => true,
        (Shape::Null, Value::Null) => true,
        (Shape::Bool, Value::Bool(_)) => true,
        (Shape::Integer { least, greatest }, Value::Integer(number)) => {
            let number = i128::from(*number);
            *least <= number && number <= *greatest
        }
        (Shape::Text, Value::Text(_)) => true,
        (Shape::Bytes, Value::Bytes(_)) => true,
        (Shape::Array(shape), Value::Array(items)) => have_shape(shape, items),
        (Shape::Map(fields), Value::Map(pairs)) => has_fields(fields, pairs),
        _ => false,
    }
}

// Whether each item has the shape.
#[cycle(has_shape)]
fn have_shape(shape: &Shape, items: &[Value]) -> bool
    ensures { result ≡ all_trees (fits shape.now) (trees_of items.now) }
{
    for item in items {
        if !has_shape(shape, item) {
            return false;
        }
    }
    true
}

// Whether a map has each of these fields.
#[cycle(has_shape)]
fn has_fields(fields: &[(String, bool, Shape)], pairs: &[(Value, Value)]) -> bool
    ensures { result ≡ list_all (has_field (tree_pairs_of pairs.now)) (map field_test fields.now) }
{
    for (name, required, shape) in fields {
        if !has_field(name, *required, shape, pairs) {
            return false;
        }
    }
    true
}

// Whether each value under a name has the shape, and there is one where one is required.
#[cycle(has_shape)]
fn has_field(name: &str, required: bool, shape: &Shape, pairs: &[(Value, Value)]) -> bool
    ensures { result ≡ field_fits (not required) name.now (fits shape.now)
        (tree_pairs_of pairs.now) }
{
    let mut is_complete = !required;
    for (key, value) in pairs {
        if is_text_of(name, key) {
            if !has_shape(shape, value) {
                return false;
            }
            is_complete = true;
        }
    }
    is_complete
}

// Whether a key is this text.
fn is_text_of(name: &str, key: &Value) -> bool
    ensures { result ≡ is_text_of name.now (tree_of key.now) }
{
    match key {
        Value::Text(text) => text.as_str() == name,
        _ => false,
    }
}
