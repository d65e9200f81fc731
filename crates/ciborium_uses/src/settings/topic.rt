//! A key of a map: an enum that is written as the names of its variants.
ghost use Rattle.std.specs.Prelude.{Ok, refl};
ghost use Rattle.ciborium.specs.Readings.{ordered_by};
ghost use Rattle.ciborium.specs.ReadsBack.{by_form};
ghost use Rattle.ciborium.specs.VariantReadings.{enum_of};
ghost use Rattle.ciborium.specs.WrittenContents.{from_content};
ghost use Rattle.ciborium_uses.specs.Topics.{topic_back, topic_item, topics};
ghost use Rattle.ciborium_uses.specs.declared.settings.topic.Topic.{Topic};

use ciborium::de::{Deserialize, Key, Source};
use ciborium::laws::{FormReadsBack, ReadsBack, WritesContent};
use ciborium::ser::{Serialize, Sink};
use ciborium::value::Kind;
use std::alloc::Global;

/// What a setting is about. Topics are ordered as they stand here, whatever the order of their
/// names in an encoding.
#[derive(Clone, Copy, Debug, PartialEq, Eq, PartialOrd, Ord)]
pub enum Topic {
    Network,
    Screen,
    Sound,
}

impl Topic {
    /// The name that a topic is written as.
    pub fn name(self) -> &'static str {
        match self {
            Topic::Network => "network",
            Topic::Screen => "screen",
            Topic::Sound => "sound",
        }
    }
}

impl Serialize for Topic {
    ghost written = { λ topic. Ok (topic_item topic) };

    ghost takes_memory = { ⊥ };

    fn serialize<S: Sink>(&self, sink: &mut S) -> Result<(), S::Error> {
        match self {
            Topic::Network => "network".serialize(sink),
            Topic::Screen => "screen".serialize(sink),
            Topic::Sound => "sound".serialize(sink),
        }
    }
}

impl Deserialize for Topic {
    ghost Content = { Topic };

    ghost reading = { ordered_by ⟦<Topic as Ord>⟧.cmp (enum_of (λ topic. topic) topics) };

    fn deserialize<S: Source>(alloc: Global, source: &mut S) -> Result<Topic, S::Error> {
        let (name, level) = source.begin_variant(alloc)?;
        let topic = if name.as_str() == "network" {
            Topic::Network
        } else if name.as_str() == "screen" {
            Topic::Screen
        } else if name.as_str() == "sound" {
            Topic::Sound
        } else {
            return Err(source.refuse(Kind::Variant));
        };
        source.unit()?;
        source.end_variant(level);
        Ok(topic)
    }
}

impl Key for Topic {
    ghost orders = { λ a b. refl };
}

impl ReadsBack for Topic {
    ghost is_valid = { λ topic. Unit {0} };

    ghost levels = { λ topic. 1 };

    ghost reads_back = { λ way plain. topic_back way };
}

impl WritesContent for Topic {
    ghost writes_content = { from_content ⟦<Topic as Serialize>⟧.written _ };
}

impl FormReadsBack for Topic {
    ghost form_reads_back = { λ order. topic_back (by_form order) };
}
