//! Maps.

ghost use Rattle.std.specs.Prelude.{false, suc};
ghost use Rattle.ciborium_value.specs.lemmas.ReadsBackMaps.{IsMapValid, entry_levels, map-back};
ghost use Rattle.ciborium_value.specs.lemmas.ReadsBackParts.{greatest};

use super::ReadsBack;
use crate::deserialize::Key;
use std::collections::BTreeMap;

impl<K: Key + ReadsBack, V: ReadsBack> ReadsBack for BTreeMap<K, V> {
    ghost is_valid = { IsMapValid K.cmp K.is_valid V.is_valid };

    ghost levels = { λ m. suc (greatest (entry_levels K.levels V.levels) m.entries) };

    ghost reads_back = { λ way plain m valid. map-back
        (K.reads_back way plain) (V.reads_back way plain)
        false K.cmp K.reading.order K.total K.orders m valid };
}
