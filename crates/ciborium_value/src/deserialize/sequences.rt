//! Lists and tuples.

ghost use Rattle.std.specs.Prelude.{List};
ghost use Rattle.ciborium_value.specs.lemmas.KeyOrders.{ordering_then-same, slice_cmp-map};
ghost use Rattle.ciborium_value.specs.Readings.{list_of, tuple1_of, tuple2_of, tuple3_of};
ghost use Rattle.ciborium_value.specs.Readings.{tuple4_of};

use super::{Deserialize, Key};
use crate::items::{Array, Item, NoItem};
use crate::source::Source;
use std::alloc::Global;

/// The items of an array, or the bytes of a byte string. Skips tags; another item is refused as
/// `Array`.
impl<T: Deserialize> Deserialize for Vec<T> {
    ghost Content = { List T.Content };

    ghost reading = { list_of (λ v. v.items) T.reading };

    fn deserialize<S: Source>(alloc: Global, source: &mut S) -> Result<Vec<T>, S::Error> {
        let mut seq = source.begin_seq(alloc)?;
        let mut values = Vec::new(alloc);
        while source.next(&mut seq)? {
            let value = T::deserialize(alloc, source)?;
            match values.push(value) {
                Ok(()) => {}
                Err(_) => return Err(source.memory()),
            }
        }
        Ok(values)
    }
}

impl<T: Key> Key for Vec<T> {
    ghost orders = { λ a b.
        slice_cmp-map T.cmp T.reading.order T.reading.content T.orders a.items b.items };
}

/// The first item of an array, or the first byte of a byte string. Skips tags; an empty one is
/// refused as `Length`, further items are read as values and dropped, and another item in place of
/// the array is refused as `Array`.
impl<A: Deserialize> Deserialize for (A,) {
    ghost Content = { A.Content };

    ghost reading = { tuple1_of (λ t. t.0) A.reading };

    fn deserialize<S: Source>(alloc: Global, source: &mut S) -> Result<(A,), S::Error> {
        let Array(Item(first, NoItem)) = Array::deserialize(alloc, source)?;
        Ok((first,))
    }
}

impl<A: Key> Key for (A,) {
    ghost orders = { λ a b. A.orders a.0 b.0 };
}

/// The first two items of an array, or the first two bytes of a byte string. Skips tags; fewer
/// items are refused as `Length`, further ones are read as values and dropped, and another item in
/// place of the array is refused as `Array`.
impl<A: Deserialize, B: Deserialize> Deserialize for (A, B) {
    ghost Content = { A.Content × B.Content };

    ghost reading = { tuple2_of A.reading B.reading };

    fn deserialize<S: Source>(alloc: Global, source: &mut S) -> Result<(A, B), S::Error> {
        let Array(Item(first, Item(second, NoItem))) = Array::deserialize(alloc, source)?;
        Ok((first, second))
    }
}

impl<A: Key, B: Key> Key for (A, B) {
    ghost orders = { λ a b. ordering_then-same (A.orders a.0 b.0) (B.orders a.1 b.1) };
}

/// The first three items of an array, or the first three bytes of a byte string. Skips tags; fewer
/// items are refused as `Length`, further ones are read as values and dropped, and another item in
/// place of the array is refused as `Array`.
impl<A: Deserialize, B: Deserialize, C: Deserialize> Deserialize for (A, B, C) {
    ghost Content = { A.Content × B.Content × C.Content };

    ghost reading = { tuple3_of A.reading B.reading C.reading };

    fn deserialize<S: Source>(alloc: Global, source: &mut S) -> Result<(A, B, C), S::Error> {
        let Array(Item(first, Item(second, Item(third, NoItem)))) = Array::deserialize(
            alloc, source,
        )?;
        Ok((first, second, third))
    }
}

impl<A: Key, B: Key, C: Key> Key for (A, B, C) {
    ghost orders = { λ a b. ordering_then-same
        (ordering_then-same (A.orders a.0 b.0) (B.orders a.1 b.1))
        (C.orders a.2 b.2) };
}

/// The first four items of an array, or the first four bytes of a byte string. Skips tags; fewer
/// items are refused as `Length`, further ones are read as values and dropped, and another item in
/// place of the array is refused as `Array`.
impl<A: Deserialize, B: Deserialize, C: Deserialize, D: Deserialize> Deserialize for (A, B, C, D) {
    ghost Content = { A.Content × B.Content × C.Content × D.Content };

    ghost reading = { tuple4_of A.reading B.reading C.reading D.reading };

    fn deserialize<S: Source>(alloc: Global, source: &mut S) -> Result<(A, B, C, D), S::Error> {
        let Array(Item(first, Item(second, Item(third, Item(fourth, NoItem))))) =
            Array::deserialize(alloc, source)?;
        Ok((first, second, third, fourth))
    }
}

impl<A: Key, B: Key, C: Key, D: Key> Key for (A, B, C, D) {
    ghost orders = { λ a b. ordering_then-same
        (ordering_then-same
        (ordering_then-same (A.orders a.0 b.0) (B.orders a.1 b.1))
        (C.orders a.2 b.2))
        (D.orders a.3 b.3) };
}
