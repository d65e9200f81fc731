//! A value under one tag or two, read by the calls of the source, and a caller that writes one.
ghost use Rattle.std.specs.Prelude.{◌≡◌, ◌∷◌, IfSome, Ok, Option, [], pos, ℕ};
ghost use Rattle.ciborium.specs.Item as item;
ghost use Rattle.ciborium.specs.Encoding.{written_bytes};
ghost use Rattle.ciborium.specs.Places.{an_array};
ghost use Rattle.ciborium.specs.Sinks.{container_of, number_item, or_null};
ghost use Rattle.ciborium.specs.TagReadings.{with_tag};

use ciborium::de::{Deserialize, Source};
use ciborium::ser::{Serialize, Sink};
use ciborium::tag::{Captured, Required};
use ciborium::to_vec;
use std::alloc::Global;

/// A value, and the two tags around it where there are any.
#[derive(Debug, Drop, PartialEq)]
pub struct Two<V>(pub Option<u64>, pub Option<u64>, pub V);

/// An array of both tags, each null where there is none, and the value.
impl<V: Serialize> Serialize for Two<V> {
    ghost written = { λ t. container_of an_array (or_null (λ n. Ok (number_item (pos n))) t.0 ∷
        or_null (λ n. Ok (number_item (pos n))) t.1 ∷ V.written t.2 ∷ []) };

    ghost takes_memory = { V.takes_memory };

    fn serialize<S: Sink>(&self, sink: &mut S) -> Result<(), S::Error> {
        (&self.0, &self.1, &self.2).serialize(sink)
    }
}

/// The outermost two tags, and the value under them. Each takes a level, tag or none.
impl<V: Deserialize> Deserialize for Two<V> {
    ghost Content = { Option ℕ × (Option ℕ × V.Content) };

    ghost reading = { with_tag {V = Option ℕ × V} (λ t. t.0) (λ t. (t.1, t.2))
        (with_tag (λ p. p.0) (λ p. p.1) V.reading) };

    fn deserialize<S: Source>(alloc: Global, source: &mut S) -> Result<Two<V>, S::Error> {
        let (outer, first) = source.begin_tag()?;
        let (inner, second) = source.begin_tag()?;
        let value = V::deserialize(alloc, source)?;
        source.end_tag(second);
        source.end_tag(first);
        Ok(Two(outer, inner, value))
    }
}

/// What `Captured` reads, written by its parts.
#[derive(Debug, Drop, PartialEq)]
pub struct Parted<V>(pub Option<u64>, pub V);

/// An array of the tag, null where there is none, and the value.
impl<V: Serialize> Serialize for Parted<V> {
    ghost written = { λ t. container_of an_array (or_null (λ n. Ok (number_item (pos n))) t.0 ∷
        V.written t.1 ∷ []) };

    ghost takes_memory = { V.takes_memory };

    fn serialize<S: Sink>(&self, sink: &mut S) -> Result<(), S::Error> {
        (&self.0, &self.1).serialize(sink)
    }
}

impl<V: Deserialize> Deserialize for Parted<V> {
    ghost Content = { Option ℕ × V.Content };

    ghost reading = { with_tag (λ t. t.0) (λ t. t.1) V.reading };

    fn deserialize<S: Source>(alloc: Global, source: &mut S) -> Result<Parted<V>, S::Error> {
        let Captured(tag, value) = Captured::<V>::deserialize(alloc, source)?;
        Ok(Parted(tag, value))
    }
}

/// The bytes of a number under tag 255.
pub fn bytes_under_a_tag(alloc: Global, number: u64) -> Option<Vec<u8>>
    ensures { IfSome result (λ bytes.
        bytes.items ≡ written_bytes (item.tag 255 (number_item (pos number)))) }
{
    to_vec(alloc, &Required::<u64, 255>(number)).ok()
}
