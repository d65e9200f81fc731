//! A struct that is a key of maps, with the order that it derives; `Letter` is an enum that is one.
ghost use Rattle.std.specs.Cmp.Lexicographic.{slice_cmp};
ghost use Rattle.std.specs.Ordering.{nat_cmp, ordering_then};
ghost use Rattle.ciborium.specs.OwnTypes.{described, label, ordered_as, refl};
ghost use Rattle.ciborium.specs.OwnTypes.{struct_description, then_field, then_no_field};

use ciborium::de::{Deserialize, Key, Source};
use ciborium::described::{AsDescribed, Described};
use ciborium::ser::{Serialize, Sink};
use ciborium::{read_struct, write_struct};
use std::alloc::Global;

/// A struct: it is ordered by its fields, the first one first.
#[derive(Debug, Drop, PartialEq, Eq, PartialOrd, Ord)]
pub struct Release {
    pub version: u8,
    pub name: String,
}

impl Described for Release {
    ghost description = { ordered_as (struct_description
        (then_field (label "version") (λ r. r.version) ⟦<u8 as Described>⟧.description
        (then_field (label "name") (λ r. r.name) ⟦<String as Described>⟧.description
        then_no_field))) (λ x y. ordering_then (nat_cmp x.0 y.0) (slice_cmp nat_cmp x.1.0 y.1.0)) };
}

impl AsDescribed for Release {
    ghost as_described = { described ⟦<Release as Described>⟧.description refl };
}

impl Serialize for Release {
    ghost written = { ⟦<Release as Described>⟧.description.written };

    ghost takes_memory = { ⊥ };

    fn serialize<S: Sink>(&self, sink: &mut S) -> Result<(), S::Error> {
        write_struct!(self, sink, {version, name})
    }
}

impl Deserialize for Release {
    ghost Content = { ⟦<Release as Described>⟧.description.Content };

    ghost reading = { ⟦<Release as Described>⟧.description.reading };

    fn deserialize<S: Source>(alloc: Global, source: &mut S) -> Result<Release, S::Error> {
        read_struct!(alloc, source, {version, name})
    }
}

impl Key for Release {
    ghost orders = { λ a b. refl };
}
