//! The tree of a CBOR item in memory.

mod accessors;
mod conversions;
mod lookups;

use ciborium_ll::Integer;

/// A CBOR item in memory (RFC 8949, section 3), without floats. Two values are equal where their
/// variants and contents are. They are ordered by the variant, as declared, and then by content.
#[derive(Debug, Drop, PartialEq, Eq, PartialOrd, Ord)]
pub enum Value {
    /// A whole number from -2^64 to 2^64 - 1, of major type 0 or 1 (section 3.1).
    Integer(Integer),
    /// A byte string (section 3.1).
    Bytes(Vec<u8>),
    /// A text (section 3.1).
    Text(String),
    /// False or true (section 3.3).
    Bool(bool),
    /// Null; undefined is read as null too (section 3.3).
    Null,
    /// A tag's number and its content (section 3.4).
    Tag(u64, Box<Value>),
    /// The items of an array (section 3.1).
    Array(Vec<Value>),
    /// The pairs of a map, in order, repeated keys too (section 3.1).
    Map(Vec<(Value, Value)>),
}
