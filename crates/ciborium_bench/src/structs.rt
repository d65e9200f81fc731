//! A struct by the names of its fields.

ghost use Rattle.ciborium.specs.OwnTypes.{described, label, refl, struct_description, then_field};
ghost use Rattle.ciborium.specs.OwnTypes.{then_no_field};

use ciborium::de::{Deserialize, Source};
use ciborium::described::{AsDescribed, Described};
use ciborium::ser::{Serialize, Sink};
use ciborium::{read_struct, write_struct};
use std::alloc::Global;

/// A message: a map of two pairs.
#[derive(Drop)]
pub struct Message {
    pub version: u8,
    pub body: String,
}

impl Described for Message {
    ghost description = { struct_description
        (then_field (label "version") (λ m. m.version) ⟦<u8 as Described>⟧.description
        (then_field (label "body") (λ m. m.body) ⟦<String as Described>⟧.description
        then_no_field)) };
}

impl AsDescribed for Message {
    ghost as_described = { described ⟦<Message as Described>⟧.description refl };
}

impl Serialize for Message {
    ghost written = { ⟦<Message as Described>⟧.description.written };

    ghost takes_memory = { ⊥ };

    fn serialize<S: Sink>(&self, sink: &mut S) -> Result<(), S::Error> {
        write_struct!(self, sink, {version, body})
    }
}

impl Deserialize for Message {
    ghost Content = { ⟦<Message as Described>⟧.description.Content };

    ghost reading = { ⟦<Message as Described>⟧.description.reading };

    fn deserialize<S: Source>(alloc: Global, source: &mut S) -> Result<Message, S::Error> {
        read_struct!(alloc, source, {version, body})
    }
}
