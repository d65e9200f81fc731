//! The message of a log, written and read by the names of its fields.
ghost use Rattle.ciborium.specs.OwnTypes.{described, label, refl, struct_description, then_field};
ghost use Rattle.ciborium.specs.OwnTypes.{then_no_field, then_optional_field};

use ciborium::de::{Deserialize, Source};
use ciborium::described::{AsDescribed, Described};
use ciborium::ser::{Serialize, Sink};
use ciborium::{read_struct, write_struct};
use std::alloc::Global;

/// What a sensor measured at a time. There may be no level, and the field is then left out.
#[derive(Debug, Drop, PartialEq)]
pub struct Reading {
    pub sensor: String,
    pub at: u64,
    pub level: Option<i16>,
}

impl Described for Reading {
    ghost description = { struct_description
        (then_field (label "sensor") (λ r. r.sensor) ⟦<String as Described>⟧.description
        (then_field (label "at") (λ r. r.at) ⟦<u64 as Described>⟧.description
        (then_optional_field (label "level") (λ r. r.level) ⟦<i16 as Described>⟧.description
        then_no_field))) };
}

impl AsDescribed for Reading {
    ghost as_described = { described ⟦<Reading as Described>⟧.description refl };
}

impl Serialize for Reading {
    ghost written = { ⟦<Reading as Described>⟧.description.written };

    ghost takes_memory = { ⊥ };

    fn serialize<S: Sink>(&self, sink: &mut S) -> Result<(), S::Error> {
        write_struct!(self, sink, {sensor, at, level?})
    }
}

impl Deserialize for Reading {
    ghost Content = { ⟦<Reading as Described>⟧.description.Content };

    ghost reading = { ⟦<Reading as Described>⟧.description.reading };

    fn deserialize<S: Source>(alloc: Global, source: &mut S) -> Result<Reading, S::Error> {
        read_struct!(alloc, source, {sensor, at, level?})
    }
}
