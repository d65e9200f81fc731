//! Structs that refuse a field that occurs twice, and one that nobody knows.
ghost use Rattle.std.specs.Prelude.{None};
ghost use Rattle.ciborium.specs.OwnTypes.{described, label, refl, struct_description, then_field};
ghost use Rattle.ciborium.specs.OwnTypes.{then_field_or, then_no_field_twice};
ghost use Rattle.ciborium.specs.OwnTypes.{then_no_other_field};

use ciborium::de::{Deserialize, Source};
use ciborium::described::{AsDescribed, Described};
use ciborium::ser::{Serialize, Sink};
use ciborium::{read_struct, write_struct};
use std::alloc::Global;

/// A struct of these fields and no other, each at most once.
#[derive(Debug, Drop, PartialEq)]
pub struct Order {
    pub amount: u8,
    pub note: Option<String>,
}

impl Described for Order {
    ghost description = { struct_description
        (then_field (label "amount") (λ o. o.amount) ⟦<u8 as Described>⟧.description
        (then_field_or (label "note") (λ o. o.note) ⟦<Option<String> as Described>⟧.description None
        then_no_other_field)) };
}

impl AsDescribed for Order {
    ghost as_described = { described ⟦<Order as Described>⟧.description refl };
}

impl Serialize for Order {
    ghost written = { ⟦<Order as Described>⟧.description.written };

    ghost takes_memory = { ⊥ };

    fn serialize<S: Sink>(&self, sink: &mut S) -> Result<(), S::Error> {
        write_struct!(self, sink, {amount, note = None, ..NoOtherField})
    }
}

impl Deserialize for Order {
    ghost Content = { ⟦<Order as Described>⟧.description.Content };

    ghost reading = { ⟦<Order as Described>⟧.description.reading };

    fn deserialize<S: Source>(alloc: Global, source: &mut S) -> Result<Order, S::Error> {
        read_struct!(alloc, source, {amount, note = None, ..NoOtherField})
    }
}

/// A struct that lets other fields pass, of whose own ones none occurs twice.
#[derive(Debug, Drop, PartialEq)]
pub struct Header {
    pub version: u8,
    pub kind: u8,
}

impl Described for Header {
    ghost description = { struct_description
        (then_field (label "version") (λ h. h.version) ⟦<u8 as Described>⟧.description
        (then_field (label "kind") (λ h. h.kind) ⟦<u8 as Described>⟧.description
        then_no_field_twice)) };
}

impl AsDescribed for Header {
    ghost as_described = { described ⟦<Header as Described>⟧.description refl };
}

impl Serialize for Header {
    ghost written = { ⟦<Header as Described>⟧.description.written };

    ghost takes_memory = { ⊥ };

    fn serialize<S: Sink>(&self, sink: &mut S) -> Result<(), S::Error> {
        write_struct!(self, sink, {version, kind})
    }
}

impl Deserialize for Header {
    ghost Content = { ⟦<Header as Described>⟧.description.Content };

    ghost reading = { ⟦<Header as Described>⟧.description.reading };

    fn deserialize<S: Source>(alloc: Global, source: &mut S) -> Result<Header, S::Error> {
        read_struct!(alloc, source, {version, kind, ..NoFieldTwice})
    }
}
