//! Tags around a value (RFC 8949, section 3.4).

ghost use Rattle.std.specs.Prelude.{◌≡◌, Option, Some, refl, suc, ℕ};
ghost use Rattle.ciborium_value.specs.lemmas.KeyOrders.{ordering_then-same};
ghost use Rattle.ciborium_value.specs.Sinks.{tag_of};
ghost use Rattle.ciborium_value.specs.TagReadings.{is_no_other_tag, is_tag, tag_accepted};
ghost use Rattle.ciborium_value.specs.TagReadings.{tag_required, with_tag};
ghost use Rattle.ciborium_value.specs.ReadsBack.{by_form};
ghost use Rattle.ciborium.specs.lemmas.ReadsBackTags.{IsToldApart, accepted-back, captured-back};
ghost use Rattle.ciborium.specs.lemmas.ReadsBackTags.{captured-never, not_bytes};
ghost use Rattle.ciborium.specs.lemmas.ReadsBackTags.{plain-unfolded, required-back, tag-never};
ghost use Rattle.ciborium.specs.lemmas.TagDescriptions.{under_any_tag, under_tag};
ghost use Rattle.ciborium.specs.lemmas.TagDescriptions.{under_tag_or_none};
ghost use Rattle.ciborium.specs.Tags.{captured_of};
ghost use Rattle.ciborium.specs.lemmas.WrittenTags.{captured-alike, tagged-alike};

use crate::de::{Deserialize, Key, Source};
use crate::described::Described;
use crate::laws::{Avoidable, ByteString, FormReadsBack, NeverWrites, ReadsBack, WritesContent};
use crate::ser::{Serialize, Sink};
use crate::value::Kind;
use ciborium_value::serialize_tagged;
use std::alloc::Global;

/// A value, and the tag around it if there is one.
#[derive(Clone, Copy, Debug, Drop, PartialEq, Eq, PartialOrd, Ord, Hash)]
pub struct Captured<V>(pub Option<u64>, pub V);

/// A value that always has this tag around it.
#[derive(Clone, Copy, Debug, Drop, PartialEq, Eq, PartialOrd, Ord, Hash)]
pub struct Required<V, const TAG: u64>(pub V);

/// A value that is written with this tag around it, and that is also read without it.
#[derive(Clone, Copy, Debug, Drop, PartialEq, Eq, PartialOrd, Ord, Hash)]
pub struct Accepted<V, const TAG: u64>(pub V);

/// The tag over the item of the value; without a tag that item alone.
impl<V: Serialize> Serialize for Captured<V> {
    ghost written = { λ c. captured_of c.0 (V.written c.1) };

    ghost takes_memory = { V.takes_memory };

    fn serialize<S: Sink>(&self, sink: &mut S) -> Result<(), S::Error> {
        match self.0 {
            Some(tag) => serialize_tagged(tag, &self.1, sink),
            None => self.1.serialize(sink),
        }
    }
}

/// The tag over the item of the value.
impl<V: Serialize, const TAG: u64> Serialize for Required<V, TAG> {
    ghost written = { λ r. tag_of TAG (V.written r.0) };

    ghost takes_memory = { V.takes_memory };

    fn serialize<S: Sink>(&self, sink: &mut S) -> Result<(), S::Error> {
        serialize_tagged(TAG, &self.0, sink)
    }
}

/// The tag over the item of the value.
impl<V: Serialize, const TAG: u64> Serialize for Accepted<V, TAG> {
    ghost written = { λ a. tag_of TAG (V.written a.0) };

    ghost takes_memory = { V.takes_memory };

    fn serialize<S: Sink>(&self, sink: &mut S) -> Result<(), S::Error> {
        Required::<&V, TAG>(&self.0).serialize(sink)
    }
}

/// The outermost tag, even that of a bignum, and the value under it. Always uses one level, with
/// or without a tag.
impl<V: Deserialize> Deserialize for Captured<V> {
    ghost Content = { Option ℕ × V.Content };

    ghost reading = { with_tag (λ c. c.0) (λ c. c.1) V.reading };

    fn deserialize<S: Source>(alloc: Global, source: &mut S) -> Result<Captured<V>, S::Error> {
        let (tag, level) = source.begin_tag()?;
        let value = V::deserialize(alloc, source)?;
        source.end_tag(level);
        Ok(Captured(tag, value))
    }
}

// Whether it is this tag.
fn is_tag(found: Option<u64>, tag: u64) -> bool
    ensures { result ≡ is_tag tag found }
{
    match found {
        Some(number) => number == tag,
        None => false,
    }
}

// Whether it is this tag or none.
fn is_no_other_tag(found: Option<u64>, tag: u64) -> bool
    ensures { result ≡ is_no_other_tag tag found }
{
    match found {
        Some(number) => number == tag,
        None => true,
    }
}

/// The value under the tag, as `Captured` reads it; without the tag, or under another one, it is
/// refused as `Tag`.
impl<V: Deserialize, const TAG: u64> Deserialize for Required<V, TAG> {
    ghost Content = { V.Content };

    ghost reading = { tag_required TAG (λ r. r.0) V.reading };

    fn deserialize<S: Source>(alloc: Global, source: &mut S) -> Result<Required<V, TAG>, S::Error> {
        let Captured(tag, value) = Captured::<V>::deserialize(alloc, source)?;
        if !is_tag(tag, TAG) {
            return Err(source.refuse(Kind::Tag));
        }
        Ok(Required(value))
    }
}

/// The value under the tag or without a tag, as `Captured` reads it; under another tag it is
/// refused as `Tag`.
impl<V: Deserialize, const TAG: u64> Deserialize for Accepted<V, TAG> {
    ghost Content = { V.Content };

    ghost reading = { tag_accepted TAG (λ a. a.0) V.reading };

    fn deserialize<S: Source>(alloc: Global, source: &mut S) -> Result<Accepted<V, TAG>, S::Error> {
        let Captured(tag, value) = Captured::<V>::deserialize(alloc, source)?;
        if !is_no_other_tag(tag, TAG) {
            return Err(source.refuse(Kind::Tag));
        }
        Ok(Accepted(value))
    }
}

impl<V: Key> Key for Captured<V> {
    ghost orders = { λ a b. ordering_then-same refl (V.orders a.1 b.1) };
}

impl<V: Key, const TAG: u64> Key for Required<V, TAG> {
    ghost orders = { λ a b. V.orders a.0 b.0 };
}

impl<V: Key, const TAG: u64> Key for Accepted<V, TAG> {
    ghost orders = { λ a b. V.orders a.0 b.0 };
}

/// A value without a tag around it is read back only where the item that is written for it has no
/// tag of its own, as a bignum has. Always uses one level, with or without a tag.
impl<V: ReadsBack> ReadsBack for Captured<V> {
    ghost is_valid = { λ c. IsToldApart c.0 (V.written c.1) × V.is_valid c.1 };

    ghost levels = { λ c. suc (V.levels c.1) };

    ghost reads_back = { λ way plain c valid. captured-back
        c.0 valid.0 (plain-unfolded way plain c.0 (V.written c.1))
        (V.reads_back way plain c.1 valid.1) };
}

/// The tag always uses one level.
impl<V: ReadsBack, const TAG: u64> ReadsBack for Required<V, TAG> {
    ghost is_valid = { λ r. V.is_valid r.0 };

    ghost levels = { λ r. suc (V.levels r.0) };

    ghost reads_back = { λ way plain r valid. required-back
        TAG (plain-unfolded way plain (Some TAG) (V.written r.0))
        (V.reads_back way plain r.0 valid) };
}

/// The tag always uses one level.
impl<V: ReadsBack, const TAG: u64> ReadsBack for Accepted<V, TAG> {
    ghost is_valid = { λ a. V.is_valid a.0 };

    ghost levels = { λ a. suc (V.levels a.0) };

    ghost reads_back = { λ way plain a valid. accepted-back
        TAG (plain-unfolded way plain (Some TAG) (V.written a.0))
        (V.reads_back way plain a.0 valid) };
}

/// For a content that no tag makes a bignum of.
impl<V: FormReadsBack + NeverWrites<ByteString>> FormReadsBack for Captured<V> {
    ghost form_reads_back = { λ o c valid. captured-back
        c.0 valid.0 (not_bytes (by_form o) c.0 (V.never c.1))
        (V.form_reads_back o c.1 valid.1) };
}

/// For a content that no tag makes a bignum of.
impl<V: FormReadsBack + NeverWrites<ByteString>, const TAG: u64> FormReadsBack
    for Required<V, TAG> {
    ghost form_reads_back = { λ o r valid. required-back
        TAG (not_bytes (by_form o) (Some TAG) (V.never r.0)) (V.form_reads_back o r.0 valid) };
}

/// For a content that no tag makes a bignum of.
impl<V: FormReadsBack + NeverWrites<ByteString>, const TAG: u64> FormReadsBack
    for Accepted<V, TAG> {
    ghost form_reads_back = { λ o a valid. accepted-back
        TAG (not_bytes (by_form o) (Some TAG) (V.never a.0)) (V.form_reads_back o a.0 valid) };
}

impl<V: Described> Described for Captured<V> {
    ghost description = { under_any_tag (λ c. c.0) (λ c. c.1) V.description };
}

impl<V: Described, const TAG: u64> Described for Required<V, TAG> {
    ghost description = { under_tag TAG (λ r. r.0) V.description };
}

impl<V: Described, const TAG: u64> Described for Accepted<V, TAG> {
    ghost description = { under_tag_or_none TAG (λ a. a.0) V.description };
}

impl<V: NeverWrites<I>, I: Avoidable> NeverWrites<I> for Captured<V> {
    ghost never = { λ c. captured-never I.avoided c.0 (V.never c.1) };
}

impl<V: Serialize, I: Avoidable, const TAG: u64> NeverWrites<I> for Required<V, TAG> {
    ghost never = { λ r. tag-never I.avoided TAG (V.written r.0) };
}

impl<V: Serialize, I: Avoidable, const TAG: u64> NeverWrites<I> for Accepted<V, TAG> {
    ghost never = { λ a. tag-never I.avoided TAG (V.written a.0) };
}

impl<V: WritesContent> WritesContent for Captured<V> {
    ghost writes_content = { λ v w same. captured-alike V.writes_content v.0 w.0 v.1 w.1 same };
}

impl<V: WritesContent, const TAG: u64> WritesContent for Required<V, TAG> {
    ghost writes_content = { λ v w same. tagged-alike V.writes_content TAG v.0 w.0 same };
}

impl<V: WritesContent, const TAG: u64> WritesContent for Accepted<V, TAG> {
    ghost writes_content = { λ v w same. tagged-alike V.writes_content TAG v.0 w.0 same };
}
