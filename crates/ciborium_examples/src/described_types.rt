//! Types that say once what they are: their laws follow from that.
ghost use Rattle.ciborium.specs.OwnTypes.{described, label, negsuc, numbered, pos, refl};
ghost use Rattle.ciborium.specs.OwnTypes.{struct_description, then_field, then_no_field};
ghost use Rattle.ciborium.specs.OwnTypes.{then_no_other_field, then_optional_field};

use ciborium::de::{Deserialize, Source};
use ciborium::described::{AsDescribed, Described};
use ciborium::ser::{Serialize, Sink};
use ciborium::{read_struct, write_struct};
use std::alloc::Global;

/// A record: a map of five fields by their names, of which one may be left out.
#[derive(Debug, Drop, PartialEq)]
pub struct Record {
    pub id: u32,
    pub name: String,
    pub seq: Option<u64>,
    pub tags: Vec<String>,
    pub on: bool,
}

impl Described for Record {
    ghost description = { struct_description
        (then_field (label "id") (λ r. r.id) ⟦<u32 as Described>⟧.description
        (then_field (label "name") (λ r. r.name) ⟦<String as Described>⟧.description
        (then_optional_field (label "seq") (λ r. r.seq) ⟦<u64 as Described>⟧.description
        (then_field (label "tags") (λ r. r.tags) ⟦<Vec<String> as Described>⟧.description
        (then_field (label "on") (λ r. r.on) ⟦<bool as Described>⟧.description
        then_no_field))))) };
}

impl AsDescribed for Record {
    ghost as_described = { described ⟦<Record as Described>⟧.description refl };
}

impl Serialize for Record {
    ghost written = { ⟦<Record as Described>⟧.description.written };

    ghost takes_memory = { ⊥ };

    fn serialize<S: Sink>(&self, sink: &mut S) -> Result<(), S::Error> {
        write_struct!(self, sink, {id, name, seq?, tags, on})
    }
}

impl Deserialize for Record {
    ghost Content = { ⟦<Record as Described>⟧.description.Content };

    ghost reading = { ⟦<Record as Described>⟧.description.reading };

    fn deserialize<S: Source>(alloc: Global, source: &mut S) -> Result<Record, S::Error> {
        read_struct!(alloc, source, {id, name, seq?, tags, on})
    }
}

/// A header whose fields stand under numbers, as those of COSE do (RFC 9052, section 3.1); other
/// fields, and one that occurs twice, are refused.
#[derive(Debug, Drop, PartialEq)]
pub struct KeyHeader {
    pub algorithm: i16,
    pub key_id: Option<String>,
    pub owner: Option<Record>,
}

impl Described for KeyHeader {
    ghost description = { struct_description
        (then_field (numbered (pos 1)) (λ h. h.algorithm) ⟦<i16 as Described>⟧.description
        (then_optional_field (numbered (pos 4)) (λ h. h.key_id) ⟦<String as Described>⟧.description
        (then_optional_field (numbered (negsuc 0)) (λ h. h.owner)
        ⟦<Record as Described>⟧.description then_no_other_field))) };
}

impl AsDescribed for KeyHeader {
    ghost as_described = { described ⟦<KeyHeader as Described>⟧.description refl };
}

impl Serialize for KeyHeader {
    ghost written = { ⟦<KeyHeader as Described>⟧.description.written };

    ghost takes_memory = { ⊥ };

    fn serialize<S: Sink>(&self, sink: &mut S) -> Result<(), S::Error> {
        write_struct!(self, sink, {algorithm: 1, key_id?: 4, owner?: -1})
    }
}

impl Deserialize for KeyHeader {
    ghost Content = { ⟦<KeyHeader as Described>⟧.description.Content };

    ghost reading = { ⟦<KeyHeader as Described>⟧.description.reading };

    fn deserialize<S: Source>(alloc: Global, source: &mut S) -> Result<KeyHeader, S::Error> {
        read_struct!(alloc, source, {algorithm: 1, key_id?: 4, owner?: -1, ..NoOtherField})
    }
}
