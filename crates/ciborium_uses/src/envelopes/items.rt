//! Items that are all of some bytes.

ghost use Rattle.std.specs.Prelude.{◌≡◌, ◌≤◌, IfErr, IfOk};
ghost use Rattle.ciborium.specs.Encoding.{item_of};
ghost use Rattle.ciborium.specs.Nesting.{nesting};
ghost use Rattle.ciborium.specs.Tree.{Tree};
ghost use Rattle.ciborium.specs.View.{tree_of};
ghost use Rattle.ciborium.specs.declared.de.error.Error.TheVariants.{Memory};
ghost use Rattle.ciborium_uses.specs.Envelopes.{IsAllOf, IsOutside};

use super::error::{EnvelopeError, Part};
use ciborium::{Value, de, from_slice};
use std::alloc::Global;
use std::io;

/// Reads all of the bytes of a part as one item. What was read nests within 256 levels.
///
/// # Errors
///
/// `Read` where they are no such item, and `Memory`.
pub fn read_all(alloc: Global, bytes: &[u8], part: Part) -> Result<Value, EnvelopeError>
    ensures ok { IfOk result (λ v. IsAllOf bytes.now (tree_of v)) }
    ensures only { IfOk result (λ v. (t : Tree) → IsAllOf bytes.now t → tree_of v ≡ t) }
    ensures nests { IfOk result (λ v. nesting (item_of (tree_of v)) ≤ 256) }
    ensures refused { IfErr result (λ e. (t : Tree) → IsAllOf bytes.now t → IsOutside e) }
{
    match from_slice(alloc, bytes) {
        Ok(value) => Ok(value),
        Err(error) => Err(refusal_of(part, error)),
    }
}

// Why a part was not read.
fn refusal_of(part: Part, error: de::Error<io::Error>) -> EnvelopeError
    ensures { error ≡ Memory → IsOutside result }
{
    match error {
        de::Error::Memory => EnvelopeError::Memory,
        _ => EnvelopeError::Read(part, error),
    }
}
