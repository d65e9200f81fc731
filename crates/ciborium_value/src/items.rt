//! Items of a type each, as an array, for implementations of `Serialize` and `Deserialize`.

ghost use Rattle.std.specs.Prelude.{ℕ, ◌+◌, ◌≤◌, ◌∷◌, ◌⊎◌, [], IfErr, IfOk, OnErr, OnOk};
ghost use Rattle.ciborium_value.specs.EnteredSequences.{RefusesInTurn, TakesRest, TakesInTurn};
ghost use Rattle.ciborium_value.specs.Places.{an_array};
ghost use Rattle.ciborium_value.specs.Progress.{counted_of};
ghost use Rattle.ciborium_value.specs.Readings.{ItemsGiven, array_of, no_part};
ghost use Rattle.ciborium_value.specs.Readings.{part};
ghost use Rattle.ciborium_value.specs.Sources.{TakesOnly};

use crate::deserialize::Deserialize;
use crate::parts::{OfArray, Parts, serialize_parts};
use crate::serialize::Serialize;
use crate::sink::Sink;
use crate::source::Source;
use ciborium_ll::Kind;
use std::alloc::Global;

/// An item and the items after it.
#[derive(Drop)]
pub struct Item<V, R>(pub V, pub R);

/// The end of the items.
#[derive(Drop)]
pub struct NoItem;

/// An array of the items. It is written as a definite one (RFC 8949, section 3.1):
///
///     Array(Item(&self.x, Item(&self.y, NoItem))).serialize(sink)
///
/// More items than a `usize` counts, which is unreachable in practice, are refused as
/// `Kind::Other`. The same type is read, from an array or from the bytes of a byte string:
///
///     let Array(Item(x, Item(y, NoItem))) = Array::deserialize(alloc, source)?;
#[derive(Drop)]
pub struct Array<R>(pub R);

impl Parts<OfArray> for NoItem {
    ghost parts = { λ _. [] };

    ghost number = { λ _. 0 };

    ghost takes_memory = { ⊥ };

    fn count(&self) -> Option<usize> {
        Some(0)
    }

    fn write_parts<S: Sink>(&self, _sink: &mut S) -> Result<(), S::Error> {
        Ok(())
    }
}

impl<V: Serialize, R: Parts<OfArray>> Parts<OfArray> for Item<V, R> {
    ghost parts = { λ i. V.written i.0 ∷ R.parts i.1 };

    ghost number = { λ i. R.number i.1 + 1 };

    ghost takes_memory = { V.takes_memory ⊎ R.takes_memory };

    fn count(&self) -> Option<usize> {
        self.1.count()?.checked_add(1)
    }

    fn write_parts<S: Sink>(&self, sink: &mut S) -> Result<(), S::Error> {
        let Item(item, behind) = self;
        item.serialize(sink)?;
        behind.write_parts(sink)
    }
}

impl<R: Parts<OfArray>> Serialize for Array<R> {
    ghost written = { λ a. counted_of an_array (R.number a.0) (R.parts a.0) };

    ghost takes_memory = { R.takes_memory };

    fn serialize<S: Sink>(&self, sink: &mut S) -> Result<(), S::Error> {
        serialize_parts(&self.0, sink)
    }
}

/// Items in a row that are read: an `Item`, or `NoItem`.
pub trait WantedItems: Sized + Drop {
    // What counts of them.
    ghost Content: { Type 0 };

    ghost content: { Self → Content };

    // What the items of a sequence give.
    ghost items: { ItemsGiven Content };

    /// Reads the items that are left of a sequence: each as its type, and those after them as
    /// values, which are dropped. Where one is missing it is refused as `Length`. A refused call
    /// has taken a prefix of what was unread and nothing else, and no more is left to read than
    /// before.
    fn read_items<S: Source>(
        alloc: Global,
        source: &mut S,
        seq: &mut S::Seq,
    ) -> Result<Self, S::Error>
        ensures ok { IfOk result (λ i. TakesInTurn S.stands_before S.seq_stands
            source.old source.new seq.old items (content i)) }
        ensures refused { IfErr result (λ e. RefusesInTurn S.stands_before S.seq_stands
            source.old seq.old items (S.cause source.new e)) }
        ensures took { OnOk result (TakesRest S.is_unread S.owes source.old source.new seq.old) }
        ensures only { TakesOnly S.has_taken source.old source.new }
        ensures less { OnOk result (S.left source.new ≤ S.left source.old + S.seq_left seq.old) }
        ensures no_more { OnErr result (S.left source.new + S.seq_left seq.new
            ≤ S.left source.old + S.seq_left seq.old) };
}

impl WantedItems for NoItem {
    ghost Content = { Unit {0} };

    ghost content = { λ _. tt };

    ghost items = { no_part };

    #[inline(always)]
    fn read_items<S: Source>(
        alloc: Global,
        source: &mut S,
        seq: &mut S::Seq,
    ) -> Result<NoItem, S::Error> {
        while source.next(seq)? {
            drop(source.value(alloc)?);
        }
        Ok(NoItem)
    }
}

impl<V: Deserialize, R: WantedItems> WantedItems for Item<V, R> {
    ghost Content = { V.Content × R.Content };

    ghost content = { λ i. (V.reading.content i.0, R.content i.1) };

    ghost items = { part V.reading R.items };

    #[inline(always)]
    fn read_items<S: Source>(
        alloc: Global,
        source: &mut S,
        seq: &mut S::Seq,
    ) -> Result<Item<V, R>, S::Error> {
        if !source.next(seq)? {
            return Err(source.refuse(Kind::Length));
        }
        let item = V::deserialize(alloc, source)?;
        let behind = R::read_items(alloc, source, seq)?;
        Ok(Item(item, behind))
    }
}

/// The items of an array, or the bytes of a byte string. Skips tags; fewer items are refused as
/// `Length`, further ones are read as values and dropped, and another item in place of the array is
/// refused as `Array`.
impl<R: WantedItems> Deserialize for Array<R> {
    ghost Content = { R.Content };

    ghost reading = { array_of (λ a. R.content a.0) R.items };

    #[inline(always)]
    fn deserialize<S: Source>(alloc: Global, source: &mut S) -> Result<Array<R>, S::Error> {
        let mut seq = source.begin_seq(alloc)?;
        let items = R::read_items(alloc, source, &mut seq)?;
        Ok(Array(items))
    }
}
