//! Why reading fails.

ghost use Rattle.std.specs.Prelude.{◌≡◌, IfSome};
ghost use Rattle.ciborium.specs.Errors.{from_ll, without_reader_error};
ghost use Rattle.ciborium.specs.Messages.{read_error_message};
ghost use Rattle.ciborium.specs.declared.de.error.Error.TheVariants.{Io, Memory};

use ciborium_value::Kind;
use std::alloc::{AllocError, AllocFailed};
use std::io::{self, ErrorKind, Read};
use std::{error, fmt};

/// Why reading failed. Offsets count bytes, from where the call began to read.
///
/// Each has a message of one line, as `at byte 17: not an array`. That of `Io` is
/// `reading failed: ` and then the message of the reader's error. A clause states it where that
/// message is known to clauses, which that of an `io::Error` is not.
#[derive(Debug, Drop)]
pub enum Error<T> {
    /// The reader failed, or ended where bytes are needed.
    Io(T),
    /// What stands at this offset is not well-formed (RFC 8949, appendix F).
    Syntax(usize),
    /// What begins at this offset, if that is known, is no wanted item, and why: another one, a
    /// break where an item must stand, or one that is not spelled as it has to be.
    Semantic(Option<usize>, Kind),
    /// An array, a map or a tag nests deeper than the limit.
    RecursionLimitExceeded,
    /// An allocation failed.
    Memory,
    /// The next bytes would take the offset past `usize::MAX`.
    TooLong,
}

impl<T> Error<T> {
    /// The error of an item that is not the wanted one: where it begins, if that is known, and why.
    pub fn semantic(offset: Option<usize>, kind: Kind) -> Error<T>
        ensures { result ≡ Error.Semantic offset kind }
    {
        Error::Semantic(offset, kind)
    }
}

impl Error<io::Error> {
    ghost use Rattle.std.specs.Prelude.{◌↔◌, [], IfOk, IsTrue, List, Some, ℕ};
    ghost use Rattle.ciborium.specs.CutItems.{IsEndError};
    ghost use Rattle.ciborium.specs.TypedAnswers.{TakesBeginning};

    /// Whether an item was refused since the stream ends within it, and not since its device
    /// failed: the error is `Io` of kind `UnexpectedEof`, and the reader that the item was read
    /// from, asked once more, gives nothing. If it gives a byte, that is taken.
    ///
    /// # Errors
    ///
    /// The reader's, where it fails when it is asked. Any other error of reading is answered with
    /// `false`, and the reader is not asked.
    pub fn is_cut_short<R: Read>(&self, reader: &mut R) -> io::Result<bool>
        ensures cut { (b : List ℕ) → R.remaining reader.old ≡ Some b →
            IfOk result (λ is_cut. IsTrue is_cut ↔ (IsEndError self.now × (b ≡ []))) }
        // Of any reader, known or not.
        ensures kind { IfOk result (λ is_cut. IsTrue is_cut → IsEndError self.now) }
        ensures taken { TakesBeginning (R.remaining reader.old) (R.remaining reader.new) }
    {
        match self {
            Error::Io(error) if error.kind() == ErrorKind::UnexpectedEof => {
                let mut next = [0];
                let taken = reader.read(&mut next)?;
                Ok(taken == 0)
            }
            _ => Ok(false),
        }
    }
}

impl<T> From<T> for Error<T> {
    ghost from_gives = { λ e f. f ≡ Io e };

    fn from(error: T) -> Error<T> {
        Error::Io(error)
    }
}

impl<T> From<ciborium_ll::Error<T>> for Error<T> {
    ghost from_gives = { λ e f. f ≡ from_ll e };

    fn from(error: ciborium_ll::Error<T>) -> Error<T> {
        match error {
            ciborium_ll::Error::Io(e) => Error::Io(e),
            ciborium_ll::Error::Syntax(offset) => Error::Syntax(offset),
            ciborium_ll::Error::TooLong => Error::TooLong,
            ciborium_ll::Error::Memory => Error::Memory,
        }
    }
}

impl From<AllocError> for Error<io::Error> {
    ghost from_gives = { λ _ f. f ≡ Memory };

    fn from(_: AllocError) -> Error<io::Error> {
        Error::Memory
    }
}

impl<T: Drop> From<AllocFailed<T>> for Error<io::Error> {
    ghost from_gives = { λ _ f. f ≡ Memory };

    fn from(_: AllocFailed<T>) -> Error<io::Error> {
        Error::Memory
    }
}

impl<T: fmt::Display> fmt::Display for Error<T> {
    ghost output = { read_error_message T.output };

    fn fmt<W: fmt::Write>(&self, f: &mut fmt::Formatter<W>) -> fmt::Result {
        match self {
            Error::Io(error) => write!(f, "reading failed: {error}"),
            Error::Syntax(offset) => write!(f, "at byte {offset}: not well-formed CBOR"),
            Error::Semantic(Some(offset), kind) => write!(f, "at byte {offset}: {kind}"),
            Error::Semantic(None, kind) => kind.fmt(f),
            Error::RecursionLimitExceeded => f.write_str("nested deeper than the limit"),
            Error::Memory => f.write_str("an allocation failed"),
            Error::TooLong => f.write_str("the item would end past usize::MAX bytes"),
        }
    }
}

impl<T: fmt::Debug + fmt::Display + Drop> error::Error for Error<T> {}

/// Why a call was refused, without the reader's error, which is kept aside: it is large, and a
/// result that held it would be moved at every level.
pub(crate) type BareReadError = Error<()>;

/// Puts back the error that was kept aside. There is one wherever a call was refused as `Io`.
#[inline(never)]
pub(crate) fn put_back(refusal: BareReadError, failure: Option<io::Error>) -> Error<io::Error>
    ensures refusal { refusal ≡ without_reader_error result }
    ensures given { IfSome failure (λ e. refusal ≡ Error.Io tt → result ≡ Error.Io e) }
{
    match refusal {
        Error::Io(()) => match failure {
            Some(e) => Error::Io(e),
            None => Error::Io(io::Error::from(ErrorKind::Other)),
        },
        Error::Syntax(offset) => Error::Syntax(offset),
        Error::Semantic(at, kind) => Error::Semantic(at, kind),
        Error::RecursionLimitExceeded => Error::RecursionLimitExceeded,
        Error::Memory => Error::Memory,
        Error::TooLong => Error::TooLong,
    }
}
