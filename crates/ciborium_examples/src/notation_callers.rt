//! Callers that show and read values, with contracts.
ghost use Rattle.std.specs.Prelude.{◌≡◌, ◌++◌, IfErr, IfOk, codes, string_bytes};
ghost use Rattle.ciborium.specs.Denotes.{MayRefuse, depth};
ghost use Rattle.ciborium.specs.Notation.{indented_notation, notation};
ghost use Rattle.ciborium.specs.View.{tree_of};

use ciborium::laws::printed_is_denoted;
use ciborium::value::canonical::encoded_size;
use ciborium::value::{NotationError, Value};
use std::alloc::{AllocError, Global};

/// A value in diagnostic notation, on one line.
pub fn describe(alloc: Global, value: &Value) -> Result<String, AllocError>
    ensures { IfOk result (λ text. string_bytes text ≡ notation (tree_of value.now)) }
{
    value.to_string(alloc)
}

/// The same over lines.
pub fn describe_over_lines(alloc: Global, value: &Value) -> Result<String, AllocError>
    ensures { IfOk result (λ text. string_bytes text ≡ indented_notation (tree_of value.now)) }
{
    format!(in alloc; "{value:#}")
}

/// A line that tells of a value, as for a log.
pub fn tell(alloc: Global, value: &Value) -> Result<String, AllocError>
    ensures { IfOk result (λ text.
        string_bytes text ≡ codes "read " ++ (notation (tree_of value.now) ++ codes "\n")) }
{
    format!(in alloc; "read {value}\n")
}

/// Prints a value on one line, and reads it from that text: it is the value, and reading refuses it
/// for nothing but its levels or memory.
pub fn print_and_read(alloc: Global, value: &Value, limit: usize) -> Result<Value, NotationError>
    ensures same { IfOk result (λ again. tree_of again ≡ tree_of value.now) }
    ensures refused { IfErr result (λ error. MayRefuse limit error (depth (tree_of value.now))) }
{
    // That a program holds the value is what the law asks.
    let _ = encoded_size(value);
    printed_is_denoted();
    let Ok(text) = describe(alloc, value) else {
        return Err(NotationError::Memory);
    };
    Value::from_notation_with_limit(alloc, text.as_str(), limit)
}

/// The same over lines.
pub fn print_lines_and_read(
    alloc: Global,
    value: &Value,
    limit: usize,
) -> Result<Value, NotationError>
    ensures same { IfOk result (λ again. tree_of again ≡ tree_of value.now) }
    ensures refused { IfErr result (λ error. MayRefuse limit error (depth (tree_of value.now))) }
{
    let _ = encoded_size(value);
    printed_is_denoted();
    let Ok(text) = describe_over_lines(alloc, value) else {
        return Err(NotationError::Memory);
    };
    Value::from_notation_with_limit(alloc, text.as_str(), limit)
}
