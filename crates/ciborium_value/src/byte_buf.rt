//! Bytes that are written as a byte string.

/// A list of bytes that is written as one byte string, where a `Vec<u8>` is written as an array of
/// numbers (RFC 8949, section 3.1).
#[derive(Clone, Debug, Drop, PartialEq, Eq, PartialOrd, Ord)]
pub struct ByteBuf(pub Vec<u8>);
