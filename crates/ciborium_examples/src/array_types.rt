//! A struct of more fields than a tuple has, as an array of them.
ghost use Rattle.ciborium.specs.OwnTypes.{array_description, described, refl, then_item};
ghost use Rattle.ciborium.specs.OwnTypes.{then_no_item};

use ciborium::de::{Deserialize, Source};
use ciborium::described::{AsDescribed, Described};
use ciborium::ser::{Serialize, Sink};
use ciborium::{read_struct, write_struct};
use std::alloc::Global;

/// When something was measured, along three axes, and whether it counts.
#[derive(Debug, Drop, PartialEq)]
pub struct Sample {
    pub at: u64,
    pub x: i16,
    pub y: i16,
    pub z: i16,
    pub valid: bool,
}

impl Described for Sample {
    ghost description = { array_description
        (then_item (λ s. s.at) ⟦<u64 as Described>⟧.description
        (then_item (λ s. s.x) ⟦<i16 as Described>⟧.description
        (then_item (λ s. s.y) ⟦<i16 as Described>⟧.description
        (then_item (λ s. s.z) ⟦<i16 as Described>⟧.description
        (then_item (λ s. s.valid) ⟦<bool as Described>⟧.description then_no_item))))) };
}

impl AsDescribed for Sample {
    ghost as_described = { described ⟦<Sample as Described>⟧.description refl };
}

impl Serialize for Sample {
    ghost written = { ⟦<Sample as Described>⟧.description.written };

    ghost takes_memory = { ⊥ };

    fn serialize<S: Sink>(&self, sink: &mut S) -> Result<(), S::Error> {
        write_struct!(self, sink, [at, x, y, z, valid])
    }
}

impl Deserialize for Sample {
    ghost Content = { ⟦<Sample as Described>⟧.description.Content };

    ghost reading = { ⟦<Sample as Described>⟧.description.reading };

    fn deserialize<S: Source>(alloc: Global, source: &mut S) -> Result<Sample, S::Error> {
        read_struct!(alloc, source, [at, x, y, z, valid])
    }
}
