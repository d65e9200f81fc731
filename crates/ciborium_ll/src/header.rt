//! Heads as values, and why a call is refused.

ghost use Rattle.std.specs.Prelude.{◌≡◌, length, ℕ};
ghost use Rattle.ciborium_ll.specs.Head.{shortest_head};
ghost use Rattle.ciborium_ll.specs.HeadMessages.{head_error_message};
ghost use Rattle.ciborium_ll.specs.declared.header.Error.TheVariants.{Io, Memory};

use std::alloc::{AllocError, AllocFailed};
use std::{error, fmt, io};

/// The head of a data item (RFC 8949, section 3), or a break.
///
/// A length or count of `None` begins a string, array or map of indefinite length, which a break
/// ends.
#[derive(Clone, Copy, Debug, PartialEq, Eq)]
pub enum Header {
    /// The number n (major type 0).
    Positive(u64),
    /// The number -1 - n (major type 1).
    Negative(u64),
    /// A byte string of this many bytes (major type 2).
    Bytes(Option<usize>),
    /// A text of this many bytes of UTF-8 (major type 3).
    Text(Option<usize>),
    /// An array of this many items (major type 4).
    Array(Option<usize>),
    /// A map of this many pairs (major type 5).
    Map(Option<usize>),
    /// A tag, followed by one item (major type 6).
    Tag(u64),
    /// A simple value, below 24 or from 32 on (major type 7): false is 20, true 21, null 22 and
    /// undefined 23.
    Simple(u8),
    /// A float of 2, 4 or 8 bytes (major type 7). The bytes belong to the head and were read with
    /// it.
    Float(u8),
    /// The break that ends a string, array or map of indefinite length.
    Break,
}

/// Why a call of a decoder failed. Offsets count bytes, from where the decoder began.
///
/// Each has a message of one line, as `at byte 17: not well-formed CBOR`. That of `Io` is `reading
/// failed: ` and then the message of the reader's error. A clause states it where that message is
/// known to clauses, which that of an `io::Error` is not.
#[derive(Debug, Drop)]
pub enum Error<T> {
    /// The reader failed, or a read gave no bytes where some are needed.
    Io(T),
    /// The head at this offset is not well-formed, or may not stand there, or it begins a text that
    /// is not UTF-8 (RFC 8949, appendix F).
    Syntax(usize),
    /// The next bytes would take the offset past `usize::MAX`.
    TooLong,
    /// An allocation failed.
    Memory,
}

impl<T> From<T> for Error<T> {
    ghost from_gives = { λ e f. f ≡ Io e };

    fn from(error: T) -> Error<T> {
        Error::Io(error)
    }
}

impl From<AllocError> for Error<io::Error> {
    ghost from_gives = { λ _ f. f ≡ Memory };

    fn from(_: AllocError) -> Error<io::Error> {
        Error::Memory
    }
}

impl<T: Drop> From<AllocFailed<T>> for Error<io::Error> {
    ghost from_gives = { λ _ f. f ≡ Memory };

    fn from(_: AllocFailed<T>) -> Error<io::Error> {
        Error::Memory
    }
}

impl<T: fmt::Display> fmt::Display for Error<T> {
    ghost output = { head_error_message T.output };

    fn fmt<W: fmt::Write>(&self, f: &mut fmt::Formatter<W>) -> fmt::Result {
        match self {
            Error::Io(error) => write!(f, "reading failed: {error}"),
            Error::Syntax(offset) => write!(f, "at byte {offset}: not well-formed CBOR"),
            Error::TooLong => f.write_str("the item would end past usize::MAX bytes"),
            Error::Memory => f.write_str("an allocation failed"),
        }
    }
}

impl<T: fmt::Debug + fmt::Display + Drop> error::Error for Error<T> {}

/// How many bytes the shortest head with this argument has, whatever its major type (RFC 8949,
/// section 4.1).
#[inline(always)]
#[tactic(auto, unfolding(crate::specs::Head::shortest_head))]
pub fn head_size(argument: u64) -> u64
    ensures { (major : ℕ) → result ≡ length (shortest_head major argument) }
{
    if argument < 24 {
        1
    } else if argument < 1 << 8 {
        2
    } else if argument < 1 << 16 {
        3
    } else if argument < 1 << 32 {
        5
    } else {
        9
    }
}
