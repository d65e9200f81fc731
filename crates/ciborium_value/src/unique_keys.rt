//! Maps none of whose keys occurs twice.

ghost use Rattle.std.specs.Prelude.{◌⊎◌, List, suc, true};
ghost use Rattle.ciborium_value.specs.Places.{a_map};
ghost use Rattle.ciborium_value.specs.Readings.{unique_map_of};
ghost use Rattle.ciborium_value.specs.Sinks.{container_of, in_turn};
ghost use Rattle.ciborium_value.specs.WrittenContents.{map-alike};
ghost use Rattle.ciborium_value.specs.lemmas.ReadsBackMaps.{IsMapValid, entry_levels, map-back};
ghost use Rattle.ciborium_value.specs.lemmas.ReadsBackParts.{greatest};

use crate::deserialize::maps::read_map;
use crate::deserialize::{Deserialize, Key};
use crate::reads_back::{FormReadsBack, ReadsBack, WritesContent};
use crate::serialize::Serialize;
use crate::sink::Sink;
use crate::source::Source;
use std::alloc::Global;
use std::collections::BTreeMap;

/// A map that is refused where one of its keys occurs twice, where a `BTreeMap` keeps the last
/// value (RFC 8949, section 5.6). The key is then refused as `Kind::DuplicateKey`, at its offset,
/// before its value is read. It is written as the map.
#[derive(Debug, Drop)]
pub struct UniqueKeys<K: Ord, V>(pub BTreeMap<K, V>);

impl<K: Key, V: Deserialize> Deserialize for UniqueKeys<K, V> {
    ghost Content = { List (K.Content × V.Content) };

    ghost reading = { unique_map_of (λ m. m.0.entries) K.reading V.reading };

    fn deserialize<S: Source>(alloc: Global, source: &mut S) -> Result<UniqueKeys<K, V>, S::Error> {
        Ok(UniqueKeys(read_map(alloc, source, true)?))
    }
}

impl<K: Serialize + Ord, V: Serialize> Serialize for UniqueKeys<K, V> {
    ghost written = { λ m. container_of a_map (in_turn K.written V.written m.0.entries) };

    ghost takes_memory = { K.takes_memory ⊎ V.takes_memory };

    fn serialize<S: Sink>(&self, sink: &mut S) -> Result<(), S::Error> {
        self.0.serialize(sink)
    }
}

impl<K: Key + ReadsBack, V: ReadsBack> ReadsBack for UniqueKeys<K, V> {
    ghost is_valid = { λ m. IsMapValid K.cmp K.is_valid V.is_valid m.0 };

    ghost levels = { λ m. suc (greatest (entry_levels K.levels V.levels) m.0.entries) };

    ghost reads_back = { λ way plain m valid. map-back
        (K.reads_back way plain) (V.reads_back way plain)
        true K.cmp K.reading.order K.total K.orders m.0 valid };
}

impl<K: Key + FormReadsBack, V: FormReadsBack> FormReadsBack for UniqueKeys<K, V> {
    ghost form_reads_back = { λ o m valid. map-back (K.form_reads_back o) (V.form_reads_back o)
        true K.cmp K.reading.order K.total K.orders m.0 valid };
}

impl<K: Key + WritesContent, V: WritesContent> WritesContent for UniqueKeys<K, V> {
    ghost writes_content = { λ v w same. map-alike
        K.writes_content V.writes_content v.0.entries w.0.entries same };
}
