//! Why settings were not saved, or not loaded.
ghost use Rattle.std.specs.Prelude.{◌≡◌};
ghost use Rattle.ciborium_uses.specs.declared.settings.error.SettingsError.TheVariants as errors;

use ciborium::{de, ser};
use std::alloc::AllocError;
use std::{error, fmt, io};

/// Why settings were not saved, or not loaded.
#[derive(Debug, Drop)]
pub enum SettingsError {
    /// They cannot be written.
    Save(ser::Error<io::Error>),
    /// The bytes are not the one encoding of settings.
    Load(de::Error<io::Error>),
    /// An allocation failed.
    Memory,
}

impl From<ser::Error<io::Error>> for SettingsError {
    ghost from_gives = { λ e f. f ≡ errors.Save e };

    fn from(error: ser::Error<io::Error>) -> SettingsError {
        SettingsError::Save(error)
    }
}

impl From<de::Error<io::Error>> for SettingsError {
    ghost from_gives = { λ e f. f ≡ errors.Load e };

    fn from(error: de::Error<io::Error>) -> SettingsError {
        SettingsError::Load(error)
    }
}

impl From<AllocError> for SettingsError {
    ghost from_gives = { λ _ f. f ≡ errors.Memory };

    fn from(_: AllocError) -> SettingsError {
        SettingsError::Memory
    }
}

impl fmt::Display for SettingsError {
    fn fmt<W: fmt::Write>(&self, f: &mut fmt::Formatter<W>) -> fmt::Result {
        match self {
            SettingsError::Save(error) => write!(f, "saving: {error}"),
            SettingsError::Load(error) => write!(f, "loading: {error}"),
            SettingsError::Memory => f.write_str("an allocation failed"),
        }
    }
}

impl error::Error for SettingsError {}
