//! Lists, tuples, maps and tags.

ghost use Rattle.std.specs.Prelude.{◌∷◌, ◌⊎◌, [], IfErr, OnErr, OnOk, map};
ghost use Rattle.ciborium_value.specs.Places.{a_map, an_array};
ghost use Rattle.ciborium_value.specs.Sinks.{AddsNamed, BreaksNamed, IsGranted, IsOwed, IsReady};
ghost use Rattle.ciborium_value.specs.Sinks.{container_of, in_turn, tag_of};

use super::Serialize;
use crate::items::{Array, Item, NoItem};
use crate::sink::Sink;
use std::collections::BTreeMap;

/// A definite array of the items.
impl<T: Serialize> Serialize for Vec<T> {
    ghost written = { λ v. container_of an_array (map T.written v.items) };

    ghost takes_memory = { T.takes_memory };

    fn serialize<S: Sink>(&self, sink: &mut S) -> Result<(), S::Error> {
        let count = Some(self.len());
        sink.begin_array(count)?;
        for item in self {
            item.serialize(sink)?;
        }
        sink.end(count)
    }
}

/// A definite array of the one item.
impl<A: Serialize> Serialize for (A,) {
    ghost written = { λ t. container_of an_array (A.written t.0 ∷ []) };

    ghost takes_memory = { A.takes_memory };

    fn serialize<S: Sink>(&self, sink: &mut S) -> Result<(), S::Error> {
        Array(Item(&self.0, NoItem)).serialize(sink)
    }
}

/// A definite array of the two items.
impl<A: Serialize, B: Serialize> Serialize for (A, B) {
    ghost written = { λ t. container_of an_array (A.written t.0 ∷ B.written t.1 ∷ []) };

    ghost takes_memory = { A.takes_memory ⊎ B.takes_memory };

    fn serialize<S: Sink>(&self, sink: &mut S) -> Result<(), S::Error> {
        Array(Item(&self.0, Item(&self.1, NoItem))).serialize(sink)
    }
}

/// A definite array of the three items.
impl<A: Serialize, B: Serialize, C: Serialize> Serialize for (A, B, C) {
    ghost written = { λ t. container_of an_array
        (A.written t.0 ∷ B.written t.1 ∷ C.written t.2 ∷ []) };

    ghost takes_memory = { A.takes_memory ⊎ B.takes_memory ⊎ C.takes_memory };

    fn serialize<S: Sink>(&self, sink: &mut S) -> Result<(), S::Error> {
        Array(Item(&self.0, Item(&self.1, Item(&self.2, NoItem)))).serialize(sink)
    }
}

/// A definite array of the four items.
impl<A: Serialize, B: Serialize, C: Serialize, D: Serialize> Serialize for (A, B, C, D) {
    ghost written = { λ t. container_of an_array
        (A.written t.0 ∷ B.written t.1 ∷ C.written t.2 ∷ D.written t.3 ∷ []) };

    ghost takes_memory = { A.takes_memory ⊎ B.takes_memory ⊎ C.takes_memory ⊎ D.takes_memory };

    fn serialize<S: Sink>(&self, sink: &mut S) -> Result<(), S::Error> {
        Array(Item(&self.0, Item(&self.1, Item(&self.2, Item(&self.3, NoItem))))).serialize(sink)
    }
}

/// A definite map, in the order of its keys.
impl<K: Serialize + Ord, V: Serialize> Serialize for BTreeMap<K, V> {
    ghost written = { λ m. container_of a_map (in_turn K.written V.written m.entries) };

    ghost takes_memory = { K.takes_memory ⊎ V.takes_memory };

    fn serialize<S: Sink>(&self, sink: &mut S) -> Result<(), S::Error> {
        let entries = Some(self.len());
        sink.begin_map(entries)?;
        for (key, value) in self {
            key.serialize(sink)?;
            value.serialize(sink)?;
        }
        sink.end(entries)
    }
}

// Adds a definite map of the pairs, in their order.
pub(super) fn serialize_pairs<K: Serialize, V: Serialize, S: Sink>(
    pairs: &Vec<(K, V)>,
    sink: &mut S,
) -> Result<(), S::Error>
    requires { IsReady S.stands_at sink.old }
    ensures ok { OnOk result (AddsNamed S.stands_at sink.old sink.new
        (container_of a_map (in_turn K.written V.written pairs.now.items))) }
    ensures cause { IfErr result (λ e. IsOwed (S.cause e)
        (container_of a_map (in_turn K.written V.written pairs.now.items))) }
    ensures memory { IfErr result (λ e. IsGranted (S.cause e)
        (S.takes_memory ⊎ (K.takes_memory ⊎ V.takes_memory))) }
    ensures err { OnErr result (BreaksNamed S.stands_at S.out sink.old sink.new
        (container_of a_map (in_turn K.written V.written pairs.now.items))) }
{
    let count = Some(pairs.len());
    sink.begin_map(count)?;
    for pair in pairs {
        pair.0.serialize(sink)?;
        pair.1.serialize(sink)?;
    }
    sink.end(count)
}

/// Writes an item under a tag (RFC 8949, section 3.4): the head of the tag, and then the content.
///
/// # Errors
///
/// Those of the sink and of the content. At an error only a strict prefix of the item was added.
pub fn serialize_tagged<T: Serialize, S: Sink>(
    tag: u64,
    content: &T,
    sink: &mut S,
) -> Result<(), S::Error>
    requires { IsReady S.stands_at sink.old }
    ensures ok { OnOk result (AddsNamed S.stands_at sink.old sink.new
        (tag_of tag (T.written content.now))) }
    ensures cause { IfErr result (λ e. IsOwed (S.cause e) (tag_of tag (T.written content.now))) }
    ensures memory { IfErr result (λ e. IsGranted (S.cause e) (S.takes_memory ⊎ T.takes_memory)) }
    ensures err { OnErr result (BreaksNamed S.stands_at S.out sink.old sink.new
        (tag_of tag (T.written content.now))) }
{
    sink.tag(tag)?;
    content.serialize(sink)
}
