//! What came of a call, and how it is judged without a growth of memory.

ghost use Rattle.std.specs.Prelude.{◌≡◌};
ghost use Rattle.ciborium_rows.specs.declared.outcome.Failure.TheVariants.{Preparing};

use ciborium::ser::Serialize;
use ciborium::value::{self, Value};
use ciborium::{de, from_reader, into_writer, ll};
use std::alloc::{AllocError, Global};

/// Why a call did not answer the right value.
#[derive(Clone, Copy, Debug, PartialEq)]
pub enum Failure {
    /// The call was refused a growth, and left what it was lent as it was.
    Memory,
    /// A growth was refused before the call.
    Preparing,
    /// The call answered something else, or changed what it was lent.
    Wrong,
}

/// Growths outside the call are preparation.
impl From<AllocError> for Failure {
    ghost from_gives = { λ _ failure. failure ≡ Preparing };

    fn from(_: AllocError) -> Failure {
        Failure::Preparing
    }
}

/// Fails as wrong unless this holds.
///
/// # Errors
///
/// `Wrong`.
pub fn expect(holds: bool) -> Result<(), Failure> {
    if holds { Ok(()) } else { Err(Failure::Wrong) }
}

/// Fails as wrong unless each of these holds.
///
/// # Errors
///
/// `Wrong`.
pub fn expect_all(hold: &[bool]) -> Result<(), Failure> {
    expect(!hold.contains(&false))
}

/// What a refusal by a call that reads bytes says of it.
pub fn judge_read<T: Drop>(error: de::Error<T>) -> Failure {
    match error {
        de::Error::Memory => Failure::Memory,
        _ => Failure::Wrong,
    }
}

/// What a refusal by a call that reads or makes a tree says of it.
pub fn judge_tree(error: value::Error) -> Failure {
    match error {
        value::Error::Memory => Failure::Memory,
        value::Error::Custom(_) => Failure::Wrong,
    }
}

/// What a refusal by a call on heads says of it.
pub fn judge_head<T: Drop>(error: ll::Error<T>) -> Failure {
    match error {
        ll::Error::Memory => Failure::Memory,
        _ => Failure::Wrong,
    }
}

/// The value of these bytes, as preparation of a call.
///
/// # Errors
///
/// `Preparing` where an allocation fails, `Wrong` where they are no value.
pub fn prepare_value(alloc: Global, bytes: &[u8]) -> Result<Value, Failure> {
    let mut reader = bytes;
    match from_reader(alloc, &mut reader) {
        Ok(value) => Ok(value),
        Err(de::Error::Memory) => Err(Failure::Preparing),
        Err(_) => Err(Failure::Wrong),
    }
}

// The most bytes that are compared.
const ROOM: usize = 64;

/// Whether the value is written as these bytes, at most 64. They are written to a slice, which
/// takes no memory.
pub fn is_written_as<T: Serialize>(value: &T, expected: &[u8]) -> bool {
    let mut buffer = [0u8; ROOM];
    let mut rest: &mut [u8] = &mut buffer;
    if into_writer(value, &mut rest).is_err() {
        return false;
    }
    let written = ROOM.saturating_sub(rest.len());
    buffer.get(..written) == Some(expected)
}
