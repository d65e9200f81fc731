//! What becomes of a reader's error.

ghost use Rattle.std.specs.Prelude.{◌≡◌, Some};
ghost use Rattle.std.specs.declared.io.Error.{Error};

use std::io;

/// Takes the reader's error, and says what the result of the call then holds of it.
///
/// An `io::Error` is large, and a result that may hold one is moved at every level: `Option` keeps
/// the error aside, and the result holds nothing of it.
pub trait Keep {
    /// What the result holds.
    type Kept: Drop;

    // The error is kept, or answered.
    ghost keeps: { Self → Self → Error → Self.Kept → Type 0 };

    /// Takes the error.
    fn keep(&mut self, error: io::Error) -> Self::Kept
        ensures { keeps self.old self.new error result };
}

/// Keeps nothing: the result holds the error itself.
#[derive(Clone, Copy, Drop)]
pub struct Answered;

impl Keep for Answered {
    type Kept = io::Error;

    ghost keeps = { λ old new e kept. kept ≡ e };

    #[inline(always)]
    fn keep(&mut self, error: io::Error) -> io::Error {
        error
    }
}

/// The last error is put here.
impl Keep for Option<io::Error> {
    type Kept = ();

    ghost keeps = { λ old new e kept. new ≡ Some e };

    #[inline(always)]
    fn keep(&mut self, error: io::Error) {
        *self = Some(error);
    }
}
