//! Calls that are made once, for runs in which one allocation fails.

use crate::growing_calls::{
    clone_value, make_literal, make_text, make_tree, read_as_value, read_map, read_value,
    write_form,
};
use crate::outcome::Failure;
use crate::plain_calls::make_plain_calls;
use std::alloc::Global;

/// A call that is made.
#[derive(Clone, Copy, Debug)]
pub enum Call {
    /// `from_reader` as a `Value`.
    ReadValue,
    /// `clone` of a `Value`.
    CloneValue,
    /// `Value::from_text`.
    FromText,
    /// `Value::serialized`.
    Serialized,
    /// `Value::deserialized`.
    Deserialized,
    /// `from_reader` as a `BTreeMap`.
    ReadMap,
    /// `cbor!`.
    Literal,
    /// `into_writer_deterministic`.
    WriteForm,
    /// All calls that take no memory.
    NoMemory,
}

/// The call of this name.
pub fn find_call(name: &str) -> Option<Call> {
    match name {
        "read-value" => Some(Call::ReadValue),
        "clone" => Some(Call::CloneValue),
        "from-text" => Some(Call::FromText),
        "serialized" => Some(Call::Serialized),
        "deserialized" => Some(Call::Deserialized),
        "read-map" => Some(Call::ReadMap),
        "macro" => Some(Call::Literal),
        "write-form" => Some(Call::WriteForm),
        "no-memory" => Some(Call::NoMemory),
        _ => None,
    }
}

/// Makes the call, and says what came of it.
///
/// # Errors
///
/// Why the answer is not the right value.
pub fn make_call(alloc: Global, call: Call) -> Result<(), Failure> {
    match call {
        Call::ReadValue => read_value(alloc),
        Call::CloneValue => clone_value(alloc),
        Call::FromText => make_text(alloc),
        Call::Serialized => make_tree(alloc),
        Call::Deserialized => read_as_value(alloc),
        Call::ReadMap => read_map(alloc),
        Call::Literal => make_literal(alloc),
        Call::WriteForm => write_form(alloc),
        Call::NoMemory => make_plain_calls(alloc),
    }
}

/// The line that names what came of a call.
pub fn name_outcome(outcome: Result<(), Failure>) -> &'static str {
    match outcome {
        Ok(()) => "value\n",
        Err(Failure::Memory) => "memory\n",
        Err(Failure::Preparing) => "preparing\n",
        Err(Failure::Wrong) => "wrong\n",
    }
}

/// The status of a run in which this came of a call.
pub fn status_of_outcome(outcome: Result<(), Failure>) -> u8 {
    match outcome {
        Ok(()) => 0,
        Err(Failure::Wrong) => 1,
        Err(Failure::Memory) => 3,
        Err(Failure::Preparing) => 4,
    }
}
