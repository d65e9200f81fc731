//! A struct that is written as an array of its fields.
ghost use Rattle.ciborium.specs.OwnTypes.{described, refl, written_as};
ghost use Rattle.ciborium_uses.specs.Settings.{setting_content};

use ciborium::de::{Deserialize, Source};
use ciborium::described::{AsDescribed, Described};
use ciborium::ser::{Serialize, Sink};
use std::alloc::Global;

/// Whether something is on, and how much of it.
#[derive(Debug, Drop, PartialEq)]
pub struct Setting {
    pub enabled: bool,
    pub level: u8,
}

impl Described for Setting {
    ghost description = { written_as setting_content ⟦<(bool, u8) as Described>⟧.description };
}

impl AsDescribed for Setting {
    ghost as_described = { described ⟦<Setting as Described>⟧.description refl };
}

impl Serialize for Setting {
    ghost written = { ⟦<Setting as Described>⟧.description.written };

    ghost takes_memory = { ⊥ };

    fn serialize<S: Sink>(&self, sink: &mut S) -> Result<(), S::Error> {
        (&self.enabled, &self.level).serialize(sink)
    }
}

impl Deserialize for Setting {
    ghost Content = { ⟦<Setting as Described>⟧.description.Content };

    ghost reading = { ⟦<Setting as Described>⟧.description.reading };

    fn deserialize<S: Source>(alloc: Global, source: &mut S) -> Result<Setting, S::Error> {
        let (enabled, level) = <(bool, u8)>::deserialize(alloc, source)?;
        Ok(Setting { enabled, level })
    }
}
