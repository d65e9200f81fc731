//! Why readings were not written, or not read.
ghost use Rattle.std.specs.Prelude.{◌≡◌};
ghost use Rattle.ciborium_uses.specs.declared.frames.error.LogError.TheVariants as errors;

use ciborium::{de, ser};
use std::alloc::{AllocError, AllocFailed};
use std::{error, fmt, io};

/// Why readings were not written, or not read.
#[derive(Debug, Drop)]
pub enum LogError {
    /// The file cannot be opened or made, or does not take what was written.
    File(io::Error),
    /// What stands there is no sequence of readings.
    Read(de::Error<io::Error>),
    /// A reading cannot be written.
    Write(ser::Error<io::Error>),
    /// An allocation failed.
    Memory,
}

impl From<io::Error> for LogError {
    ghost from_gives = { λ e f. f ≡ errors.File e };

    fn from(error: io::Error) -> LogError {
        LogError::File(error)
    }
}

impl From<de::Error<io::Error>> for LogError {
    ghost from_gives = { λ e f. f ≡ errors.Read e };

    fn from(error: de::Error<io::Error>) -> LogError {
        LogError::Read(error)
    }
}

impl From<ser::Error<io::Error>> for LogError {
    ghost from_gives = { λ e f. f ≡ errors.Write e };

    fn from(error: ser::Error<io::Error>) -> LogError {
        LogError::Write(error)
    }
}

impl From<AllocError> for LogError {
    ghost from_gives = { λ _ f. f ≡ errors.Memory };

    fn from(_: AllocError) -> LogError {
        LogError::Memory
    }
}

// What was not stored is dropped.
impl<T: Drop> From<AllocFailed<T>> for LogError {
    ghost from_gives = { λ _ f. f ≡ errors.Memory };

    fn from(_: AllocFailed<T>) -> LogError {
        LogError::Memory
    }
}

impl fmt::Display for LogError {
    fn fmt<W: fmt::Write>(&self, f: &mut fmt::Formatter<W>) -> fmt::Result {
        match self {
            LogError::File(error) => write!(f, "the file: {error}"),
            LogError::Read(error) => write!(f, "the log: {error}"),
            LogError::Write(error) => write!(f, "the log: {error}"),
            LogError::Memory => f.write_str("an allocation failed"),
        }
    }
}

impl error::Error for LogError {}
