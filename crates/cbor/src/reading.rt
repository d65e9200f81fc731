//! How lines are read.

use ciborium_value::KeyOrder;

/// How a line is read.
#[derive(Clone, Copy)]
pub enum Reading {
    /// As one item in such a spelling, within this many levels.
    Item(Spelling, usize),
    /// As a sequence of items in any spelling (RFC 8742), each within 256 levels.
    Sequence,
    /// As one item in any spelling, within this many levels, which has a deterministic form, with
    /// the keys of its maps in this order (RFC 8949, section 4.2).
    Form(KeyOrder, usize),
    /// As one item in any spelling, within this many levels, of which the notation is shown.
    Notation(Layout, usize),
    /// As one item in any spelling, within 256 levels, of which the heads are dumped.
    Dump,
    /// As one item in any spelling, within 256 levels, whose notation shows its very heads.
    Exact,
    /// As diagnostic notation (RFC 8949, section 8), within this many levels, of whose value the
    /// encoding is shown.
    Encode(usize),
}

/// How an item is shown.
#[derive(Clone, Copy)]
pub enum Showing {
    /// By its one shortest encoding, in lower-case hex (RFC 8949, section 4.1), where it is in such
    /// a spelling.
    Encoding(Spelling),
    /// By its diagnostic notation (RFC 8949, section 8).
    Notation(Layout),
    /// By its deterministic encoding, in lower-case hex, with the keys of its maps in this order
    /// (RFC 8949, section 4.2).
    Form(KeyOrder),
}

/// How diagnostic notation is laid out (RFC 8949, section 8).
#[derive(Clone, Copy)]
pub enum Layout {
    /// On one line.
    OneLine,
    /// Each part on a line of its own, indented by two spaces a level.
    Indented,
}

/// Which spellings an item may have.
#[derive(Clone, Copy)]
pub enum Spelling {
    /// Any (RFC 8949, section 3).
    Any,
    /// The deterministic one alone, whose maps have their keys in this order (RFC 8949, section
    /// 4.2).
    Deterministic(KeyOrder),
}
