//! Why nothing is measured.

ghost use Rattle.std.specs.Prelude.{◌≡◌};

use ciborium::{de, ser};
use std::alloc::{AllocError, AllocFailed};
use std::io;

/// A device, an allocation or a call that is measured failed.
#[derive(Debug, Drop)]
pub struct Fault;

impl From<io::Error> for Fault {
    ghost from_gives = { λ e f. f ≡ record {} };

    fn from(_: io::Error) -> Fault {
        Fault
    }
}

impl From<AllocError> for Fault {
    ghost from_gives = { λ e f. f ≡ record {} };

    fn from(_: AllocError) -> Fault {
        Fault
    }
}

impl<T: Drop> From<AllocFailed<T>> for Fault {
    ghost from_gives = { λ e f. f ≡ record {} };

    fn from(_: AllocFailed<T>) -> Fault {
        Fault
    }
}

impl From<de::Error<io::Error>> for Fault {
    ghost from_gives = { λ e f. f ≡ record {} };

    fn from(_: de::Error<io::Error>) -> Fault {
        Fault
    }
}

impl From<ser::Error<io::Error>> for Fault {
    ghost from_gives = { λ e f. f ≡ record {} };

    fn from(_: ser::Error<io::Error>) -> Fault {
        Fault
    }
}
