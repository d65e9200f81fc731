//! What is read.

ghost use Rattle.std.specs.Prelude.{◌≡◌, IfErr, IfSome};
ghost use Rattle.ciborium_value.specs.Readings.{Reading};
ghost use Rattle.ciborium_value.specs.Sources.{IsGrantedFault, TakesOneItem};
ghost use Rattle.ciborium_value.specs.View.{result_map};

use crate::source::Source;
use std::alloc::Global;

pub(crate) mod maps;
mod numbers;
mod scalars;
mod sequences;
mod values;

/// A value that is read from one item.
pub trait Deserialize: Sized + Drop {
    // What counts of a value: its capacities do not.
    ghost Content: { Type 0 };

    // What an item gives, and what reading takes.
    ghost reading: { Reading Self Content };

    /// Takes the item that the source stands before.
    ///
    /// At `Ok` the value is what the item gives, and just the item was taken. It is refused with a
    /// kind, or for nesting, only where the item is. A refused call has taken a prefix of what was
    /// unread and nothing else, and no more is left to read than before.
    fn deserialize<S: Source>(alloc: Global, source: &mut S) -> Result<Self, S::Error>
        ensures takes { TakesOneItem S.stands_before S.is_unread S.has_taken S.left S.cause
            source.old source.new reading.taken reading.content result }
        ensures memory { IfErr result
            (λ e. IsGrantedFault (S.cause source.new e) reading.needs_memory) }
        ensures whole { IfSome reading.whole (λ tree. S.reads source.old source.new
            (result_map (λ v. tree (reading.content v)) result)) };
}

/// A type whose values can be the keys of a map that is read: they compare as their contents do.
pub trait Key: Deserialize + Ord {
    // Values compare as their contents do.
    ghost orders: { (a b : Self) → Self.cmp a b ≡
        Self.reading.order (Self.reading.content a) (Self.reading.content b) };
}
