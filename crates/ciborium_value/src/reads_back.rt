//! What is written is read back, and equal contents are written alike.

ghost use Rattle.std.specs.Prelude.{◌≡◌, ℕ};
ghost use Rattle.ciborium_value.specs.NeverWritten.{Avoided, IsNever, byte_strings, nulls};
ghost use Rattle.ciborium_value.specs.ReadsBack.{IsNameRead, IsPlain, Way, by_form};
ghost use Rattle.ciborium_value.specs.declared.key_order.KeyOrder.{KeyOrder};

use crate::deserialize::Deserialize;
use crate::serialize::Serialize;

mod contents;
mod described;
mod forms;
mod maps;
mod never_written;
mod numbers;
mod options;
mod parts;
mod scalars;
mod values;

/// A type whose values are read back from what is written of them.
///
/// Reading a value's item gives all that counts of the value, both from its bytes, under every
/// limit that leaves as many levels as `levels` says, and from the tree that `Value::serialized`
/// makes of it. Capacities do not count. Nothing is promised of a value that is refused in writing.
///
/// `is_valid` says for which values this holds: for the library's types, those that a program can
/// have. Their numbers are in range, their characters have a code, and the keys of their maps rise.
/// A type may ask for more, as `Value` does, and `Captured` in `ciborium`.
///
/// `levels` is one more for an array or a map than the most that one of its parts takes, and 0 for
/// a number, a character or a string. A limit counts in the same way.
pub trait ReadsBack: Serialize + Deserialize {
    // What a value in a program is, where a proof knows too little of it.
    ghost is_valid: { Self → Type 0 };

    // How many levels reading what this value names takes.
    ghost levels: { Self → ℕ };

    // What it names is read as what counts of it, from bytes and from a tree, where so many levels
    // are left.
    ghost reads_back: { (way : Way) → IsPlain way → (v : Self) → is_valid v →
        IsNameRead way (Self.written v) Self.reading.taken (Self.reading.content v) (levels v) };
}

/// A type whose values are read back from what is written of them in deterministic form.
///
/// The form sorts the pairs of each map by their keys, and folds bignums (RFC 8949, sections 3.4.3
/// and 4.2). To such a type neither makes a difference: reading the form of the item that a value
/// names, in either order of keys, gives all that counts of the value. `Value` and its kin are no
/// such types, since the order of pairs counts for them.
pub trait FormReadsBack: ReadsBack {
    // The form of what a value names is read as what counts of the value, where so many levels are
    // left.
    ghost form_reads_back: { (o : KeyOrder) → (v : Self) → Self.is_valid v →
        IsNameRead (by_form o) (Self.written v) Self.reading.taken (Self.reading.content v)
        (Self.levels v) };
}

/// What a type is never written as: `Null` or `ByteString`.
pub trait Avoidable {
    // Which of them.
    ghost avoided: { Avoided };
}

/// Null or undefined. A null under a tag is none, since it is not read as `None`.
pub struct Null;

/// A byte string that a tag over it would make a bignum of (RFC 8949, section 3.4.3).
pub struct ByteString;

impl Avoidable for Null {
    ghost avoided = { nulls };
}

impl Avoidable for ByteString {
    ghost avoided = { byte_strings };
}

/// A type whose values are never written as such an item. What is never null has options that are
/// read back, and what is never a byte string may stand under any tag in deterministic form.
pub trait NeverWrites<I: Avoidable>: Serialize {
    // What the value names, if it names an item, is none of these.
    ghost never: { (v : Self) → IsNever I.avoided (Self.written v) };
}

/// A type whose values are written alike where their contents are equal.
///
/// Capacities do not count, so a copy is written as its original. With `ReadsBack`, what is read
/// back is written again as the same bytes.
pub trait WritesContent: Serialize + Deserialize {
    // Of values with one content, both name the same item, or are refused with the same kind.
    ghost writes_content: { (v w : Self) → Self.reading.content v ≡ Self.reading.content w →
        Self.written v ≡ Self.written w };
}
