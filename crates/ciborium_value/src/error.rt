//! Why a `Value` was not made, or not read.

ghost use Rattle.std.specs.Prelude.{◌≡◌, Some};
ghost use Rattle.ciborium_value.specs.RefusalMessages.{tree_error_message};
ghost use Rattle.ciborium_value.specs.declared.error.Error.TheVariants.{Memory};

use ciborium_ll::Kind;
use std::alloc::{AllocError, AllocFailed};
use std::{error, fmt};

/// Why a `Value` was not made from a value of another type, or not read as one. The message of
/// `Custom` is that of its kind.
#[derive(Clone, Copy, Debug, PartialEq, Eq)]
pub enum Error {
    /// A part is refused for this reason.
    Custom(Kind),
    /// An allocation failed.
    Memory,
}

impl From<AllocError> for Error {
    ghost from_gives = { λ e f. f ≡ Memory };

    fn from(_: AllocError) -> Error {
        Error::Memory
    }
}

impl<T: Drop> From<AllocFailed<T>> for Error {
    ghost from_gives = { λ _ f. f ≡ Memory };

    fn from(_: AllocFailed<T>) -> Error {
        Error::Memory
    }
}

impl fmt::Display for Error {
    ghost output = { λ e. Some (tree_error_message e) };

    fn fmt<W: fmt::Write>(&self, f: &mut fmt::Formatter<W>) -> fmt::Result {
        match self {
            Error::Custom(kind) => kind.fmt(f),
            Error::Memory => f.write_str("an allocation failed"),
        }
    }
}

impl error::Error for Error {}
