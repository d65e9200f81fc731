//! Values.

ghost use Rattle.ciborium_value.specs.Sinks.{named_value};

use super::Serialize;
use super::containers::{serialize_pairs, serialize_tagged};
use crate::sink::Sink;
use crate::tree::Value;

/// The definite item of the value, with no bignum folded. Nothing is allocated.
impl Serialize for Value {
    ghost written = { named_value };

    ghost takes_memory = { ⊥ };

    #[inline(always)]
    fn serialize<S: Sink>(&self, sink: &mut S) -> Result<(), S::Error> {
        match self {
            Value::Integer(number) => sink.integer(i128::from(*number)),
            Value::Bytes(bytes) => sink.bytes(bytes),
            Value::Text(text) => sink.text(text),
            Value::Bool(boolean) => sink.boolean(*boolean),
            Value::Null => sink.null(),
            Value::Tag(tag, content) => serialize_tagged(*tag, &**content, sink),
            Value::Array(items) => items.serialize(sink),
            Value::Map(pairs) => serialize_pairs(pairs, sink),
        }
    }
}
