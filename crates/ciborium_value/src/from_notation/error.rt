//! Why a text denotes no value.

ghost use Rattle.std.specs.Prelude.{◌≡◌, ℕ, Some};
ghost use Rattle.ciborium_value.specs.Denotes.{MayRefuse};
ghost use Rattle.ciborium_value.specs.RefusalMessages.{notation_error_message};
ghost use Rattle.ciborium_value.specs.RefusalMessages.{notation_fault_message};
ghost use Rattle.ciborium_value.specs.Denotes.{Memory};

use std::alloc::{AllocError, AllocFailed};
use std::{error, fmt};

/// What is wrong at a place of a text that is read as diagnostic notation. Its message is a phrase
/// that says what was wanted there, or what stands there.
#[derive(Clone, Copy, Debug, PartialEq, Eq)]
pub enum NotationFault {
    /// An item is wanted.
    Item,
    /// A comma is wanted, or the bracket that closes the array.
    ArrayEnd,
    /// A comma is wanted, or the bracket that closes the map.
    MapEnd,
    /// A colon is wanted behind a key.
    Colon,
    /// The parenthesis is wanted that closes a tag.
    TagEnd,
    /// Nothing more is wanted: the item has ended.
    End,
    /// A digit is wanted, or the end of the byte string.
    Digit,
    /// A character that stands as it is, an escape, or the end of the text is wanted.
    Character,
    /// A comment does not end.
    Comment,
    /// A floating-point number.
    Float,
    /// A simple value that is no boolean, null or undefined.
    Simple,
    /// A number below -2^127 or from 2^128 on, or a tag's number from 2^64 on.
    TooLarge,
    /// A level within as many others as the limit says.
    TooDeep,
}

impl NotationFault {
    // What the fault prints.
    fn message(self) -> &'static str
        ensures { result.now ≡ notation_fault_message self }
    {
        match self {
            NotationFault::Item => "expected an item",
            NotationFault::ArrayEnd => "expected `,` or `]`",
            NotationFault::MapEnd => "expected `,` or `}`",
            NotationFault::Colon => "expected `:`",
            NotationFault::TagEnd => "expected `)`",
            NotationFault::End => "expected the end of the text",
            NotationFault::Digit => "expected a digit",
            NotationFault::Character => "expected a character, an escape or `\"`",
            NotationFault::Comment => "a comment that does not end",
            NotationFault::Float => "a floating-point number",
            NotationFault::Simple => "a simple value",
            NotationFault::TooLarge => "a number that is too large",
            NotationFault::TooDeep => "nested too deep",
        }
    }
}

impl fmt::Display for NotationFault {
    ghost output = { λ f. Some (notation_fault_message f) };

    fn fmt<W: fmt::Write>(&self, f: &mut fmt::Formatter<W>) -> fmt::Result {
        f.write_str(self.message())
    }
}

/// Why a text denotes no value. The message of `At` says what is wrong and at which byte, as in
/// `expected an item at byte 4`.
#[derive(Clone, Copy, Debug, PartialEq, Eq)]
pub enum NotationError {
    /// At this byte of the text, counted from 0, something is wrong.
    At(usize, NotationFault),
    /// An allocation failed.
    Memory,
}

impl NotationError {
    // The error whose place is counted from the end of a text of this length, counted from its
    // front.
    pub(super) fn from_front(self, length: usize) -> NotationError
        ensures { (limit l : ℕ) → MayRefuse limit self l → MayRefuse limit result l }
    {
        match self {
            NotationError::At(left, fault) => {
                NotationError::At(length.saturating_sub(left), fault)
            }
            NotationError::Memory => NotationError::Memory,
        }
    }
}

impl From<AllocError> for NotationError {
    ghost from_gives = { λ _ e. e ≡ Memory };

    fn from(_: AllocError) -> NotationError {
        NotationError::Memory
    }
}

impl<T: Drop> From<AllocFailed<T>> for NotationError {
    ghost from_gives = { λ _ e. e ≡ Memory };

    fn from(_: AllocFailed<T>) -> NotationError {
        NotationError::Memory
    }
}

impl fmt::Display for NotationError {
    ghost output = { λ e. Some (notation_error_message e) };

    fn fmt<W: fmt::Write>(&self, f: &mut fmt::Formatter<W>) -> fmt::Result {
        match self {
            NotationError::At(offset, fault) => write!(f, "{fault} at byte {offset}"),
            NotationError::Memory => f.write_str("an allocation failed"),
        }
    }
}

impl error::Error for NotationError {}
