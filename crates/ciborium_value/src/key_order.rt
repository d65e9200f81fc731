//! The two orders that the keys of a map are put in.

/// An order of values by their encodings, as for the keys of a map.
#[derive(Clone, Copy, Debug, PartialEq, Eq)]
pub enum KeyOrder {
    /// The canonical order: the shorter encoding first, and of two of equal length the bytewise
    /// lower one (RFC 8949, section 4.2.3; RFC 7049, section 3.9).
    LengthFirst,
    /// The bytewise lower encoding first, whatever the lengths, as in the core deterministic
    /// encoding (RFC 8949, section 4.2.1).
    Bytewise,
}
