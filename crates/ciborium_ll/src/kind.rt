//! Why an item that was read, or a value to be written, is refused.

ghost use Rattle.std.specs.Prelude.{◌≡◌, Some};
ghost use Rattle.ciborium_ll.specs.HeadMessages.{kind_message};

use std::{error, fmt};

/// Why an item that was read, or a value to be written, is refused. Its message is a phrase that
/// says what was found, such as `a floating-point number` or `not an array`.
#[derive(Clone, Copy, Debug, PartialEq, Eq)]
pub enum Kind {
    /// A float was found where a value is read.
    Float,
    /// An unassigned simple value was found where a value is read.
    Simple,
    /// A break stands where an item must stand.
    Break,
    /// A bignum is out of range.
    TooLarge,
    /// Another item stands where an integer is wanted.
    Integer,
    /// Another item stands where false or true is wanted.
    Bool,
    /// Another item stands where null is wanted.
    Unit,
    /// Another item stands where a text is wanted.
    Text,
    /// Another item stands where a text of one character is wanted.
    Char,
    /// Another item stands where bytes are wanted.
    Bytes,
    /// Another item stands where an array is wanted.
    Array,
    /// Another item stands where a map is wanted.
    Map,
    /// Another item stands where a name is wanted.
    Name,
    /// Another item stands where a variant of an enum is wanted.
    Variant,
    /// A number is out of the range of the wanted type.
    Range,
    /// A required tag is missing, or another tag stands there.
    Tag,
    /// An array is too short for the wanted tuple.
    Length,
    /// For user-defined types to use as they like.
    Other,
    /// A head is longer than it has to be, or undefined stands in place of null, where reading is
    /// deterministic.
    NotShortest,
    /// A string, array or map of indefinite length begins where reading is deterministic.
    Open,
    /// A bignum of at most 16 bytes fits in 64 bits, or has leading zeros, where reading is
    /// deterministic.
    NotFolded,
    /// A key does not follow the key before it in the order of keys where reading is deterministic.
    KeyOrder,
    /// Two keys of a map are equal where its pairs are sorted, or where none may occur twice.
    DuplicateKey,
    /// A name is that of no field where no other is accepted.
    UnknownField,
    /// Bytes follow the item where all of them have to be one.
    TrailingData,
    /// The bytes are not the deterministic encoding of the value that they give, where they have to
    /// be.
    NotDeterministic,
}

impl Kind {
    // What the kind prints.
    fn message(self) -> &'static str
        ensures { result.now ≡ kind_message self }
    {
        match self {
            Kind::Float => "a floating-point number",
            Kind::Simple => "an unassigned simple value",
            Kind::Break => "a break where an item has to stand",
            Kind::TooLarge => "a bignum that is too large",
            Kind::Integer => "not an integer",
            Kind::Bool => "not a boolean",
            Kind::Unit => "not null",
            Kind::Text => "not a text string",
            Kind::Char => "not a text string of one character",
            Kind::Bytes => "not a byte string",
            Kind::Array => "not an array",
            Kind::Map => "not a map",
            Kind::Name => "not a name",
            Kind::Variant => "not a variant of the enum",
            Kind::Range => "an integer out of the type's range",
            Kind::Tag => "not the required tag",
            Kind::Length => "an array too short for the tuple",
            Kind::Other => "a value that the type refuses",
            Kind::NotShortest => "a head longer than it has to be, or undefined in place of null",
            Kind::Open => "an indefinite length where only definite ones are accepted",
            Kind::NotFolded => "a bignum that fits in 64 bits, or has leading zeros",
            Kind::KeyOrder => "a key out of order",
            Kind::DuplicateKey => "two equal keys in one map",
            Kind::UnknownField => "an unknown field",
            Kind::TrailingData => "bytes behind the item",
            Kind::NotDeterministic => "another encoding than the deterministic one of the value",
        }
    }
}

impl fmt::Display for Kind {
    ghost output = { λ k. Some (kind_message k) };

    fn fmt<W: fmt::Write>(&self, f: &mut fmt::Formatter<W>) -> fmt::Result {
        f.write_str(self.message())
    }
}

impl error::Error for Kind {}
