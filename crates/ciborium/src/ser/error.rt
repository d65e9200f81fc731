//! Why writing fails.

ghost use Rattle.std.specs.Prelude.{◌≡◌};
ghost use Rattle.ciborium.specs.Messages.{write_error_message};
ghost use Rattle.ciborium.specs.declared.ser.error.Error.TheVariants.{Io, Memory};

use ciborium_value::Kind;
use std::alloc::{AllocError, AllocFailed};
use std::{error, fmt, io};

/// Why writing failed.
///
/// Each has a message of one line, as `the value cannot be written: two equal keys in one map`.
/// That of `Io` is `writing failed: ` and then the message of the writer's error. A clause states
/// it where that message is known to clauses, which that of an `io::Error` is not.
#[derive(Debug, Drop)]
pub enum Error<T> {
    /// The writer failed, or a write took nothing.
    Io(T),
    /// A value to be written has no item, or no deterministic form where that is written.
    Value(Kind),
    /// An allocation failed.
    Memory,
}

impl<T> From<T> for Error<T> {
    ghost from_gives = { λ e f. f ≡ Io e };

    fn from(error: T) -> Error<T> {
        Error::Io(error)
    }
}

impl From<AllocError> for Error<io::Error> {
    ghost from_gives = { λ _ f. f ≡ Memory };

    fn from(_: AllocError) -> Error<io::Error> {
        Error::Memory
    }
}

impl<T: Drop> From<AllocFailed<T>> for Error<io::Error> {
    ghost from_gives = { λ _ f. f ≡ Memory };

    fn from(_: AllocFailed<T>) -> Error<io::Error> {
        Error::Memory
    }
}

impl<T: fmt::Display> fmt::Display for Error<T> {
    ghost output = { write_error_message T.output };

    fn fmt<W: fmt::Write>(&self, f: &mut fmt::Formatter<W>) -> fmt::Result {
        match self {
            Error::Io(error) => write!(f, "writing failed: {error}"),
            Error::Value(kind) => write!(f, "the value cannot be written: {kind}"),
            Error::Memory => f.write_str("an allocation failed"),
        }
    }
}

impl<T: fmt::Debug + fmt::Display + Drop> error::Error for Error<T> {}
