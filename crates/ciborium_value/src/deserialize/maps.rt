//! Maps.

ghost use Rattle.std.specs.Prelude.{◌≡◌, ◌&&◌, List, map};
ghost use Rattle.std.specs.Ordering.{ordering_then};
ghost use Rattle.ciborium_value.specs.lemmas.KeyOrders.{ordering_then-same, slice_cmp-map};
ghost use Rattle.ciborium_value.specs.Readings.{map_of};
ghost use Rattle.ciborium_value.specs.Sources.{TakesOneItem};
ghost use Rattle.ciborium_value.specs.GivenParts.{has_key, given_map};

use super::{Deserialize, Key};
use crate::source::Source;
use ciborium_ll::Kind;
use std::alloc::Global;
use std::collections::BTreeMap;

// Whether this key is refused where each may occur but once.
fn occurs_again<K: Ord, V>(once: bool, entries: &BTreeMap<K, V>, key: &K) -> bool
    ensures { result ≡ (once && has_key K.cmp entries.now.entries key.now) }
{
    once && entries.contains_key(key)
}

// Reads the pairs of a map; of equal keys the value of the last one counts, or, where each may
// occur but once, the later one is refused as `DuplicateKey`, at its offset.
pub(crate) fn read_map<K: Key, V: Deserialize, S: Source>(
    alloc: Global,
    source: &mut S,
    once: bool,
) -> Result<BTreeMap<K, V>, S::Error>
    ensures { TakesOneItem S.stands_before S.is_unread S.has_taken S.left S.cause source.old
        source.new (given_map once K.reading.order K.reading.taken V.reading.taken)
        (λ m. map (λ e. (K.reading.content e.0, V.reading.content e.1)) m.entries) result }
{
    let mut seq = source.begin_map()?;
    let mut entries = BTreeMap::new(alloc);
    while source.next(&mut seq)? {
        let offset = source.offset();
        let key = K::deserialize(alloc, source)?;
        if occurs_again(once, &entries, &key) {
            return Err(source.refuse_at(offset, Kind::DuplicateKey));
        }
        let value = V::deserialize(alloc, source)?;
        match entries.insert(key, value) {
            Ok(replaced) => drop(replaced),
            Err(_) => return Err(source.memory()),
        }
    }
    Ok(entries)
}

/// The pairs of a map; of equal keys the value of the last one counts. Skips tags; another item is
/// refused as `Map`.
impl<K: Key, V: Deserialize> Deserialize for BTreeMap<K, V> {
    ghost Content = { List (K.Content × V.Content) };

    ghost reading = { map_of (λ m. m.entries) K.reading V.reading };

    fn deserialize<S: Source>(alloc: Global, source: &mut S) -> Result<BTreeMap<K, V>, S::Error> {
        read_map(alloc, source, false)
    }
}

impl<K: Key, V: Key> Key for BTreeMap<K, V> {
    ghost orders = { λ a b. slice_cmp-map
        (λ p q. ordering_then (K.cmp p.0 q.0) (V.cmp p.1 q.1))
        (λ x y. ordering_then (K.reading.order x.0 y.0) (V.reading.order x.1 y.1))
        (λ e. (K.reading.content e.0, V.reading.content e.1))
        (λ p q. ordering_then-same (K.orders p.0 q.0) (V.orders p.1 q.1)) a.entries b.entries };
}
