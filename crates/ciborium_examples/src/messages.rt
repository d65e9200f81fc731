//! What errors print, as a caller's contract says it.

ghost use Rattle.std.specs.Prelude.{◌≡◌, IfOk, IfSome, None, string_bytes};
ghost use Rattle.ciborium.specs.HeadMessages.{kind_message};
ghost use Rattle.ciborium.specs.RefusalMessages.{tree_error_message};
ghost use Rattle.ciborium.specs.Messages.{read_error_message, write_error_message};

use ciborium::value::{self, Kind};
use ciborium::{de, ser};
use std::alloc::{AllocError, Global};
use std::io;

/// What a kind prints.
pub fn kind_text(alloc: Global, kind: Kind) -> Result<String, AllocError>
    ensures { IfOk result (λ s. string_bytes s ≡ kind_message kind) }
{
    kind.to_string(alloc)
}

/// What an error of a tree prints.
pub fn tree_error_text(alloc: Global, error: value::Error) -> Result<String, AllocError>
    ensures { IfOk result (λ s. string_bytes s ≡ tree_error_message error) }
{
    error.to_string(alloc)
}

/// What an error of reading prints. Of `Io` nothing is known: what an `io::Error` prints is not.
pub fn read_error_text(alloc: Global, error: &de::Error<io::Error>) -> Result<String, AllocError>
    ensures { IfOk result (λ s. IfSome (read_error_message (λ _. None) error.now)
        (λ text. string_bytes s ≡ text)) }
{
    error.to_string(alloc)
}

/// What an error of writing prints. Of `Io` nothing is known: what an `io::Error` prints is not.
pub fn write_error_text(alloc: Global, error: &ser::Error<io::Error>) -> Result<String, AllocError>
    ensures { IfOk result (λ s. IfSome (write_error_message (λ _. None) error.now)
        (λ text. string_bytes s ≡ text)) }
{
    error.to_string(alloc)
}
