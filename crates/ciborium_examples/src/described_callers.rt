//! Callers that use the laws of described types.
ghost use Rattle.std.specs.Prelude.{◌≡◌, ◌≤◌, IfErr, IfOk};
ghost use Rattle.ciborium.specs.declared.de.error.Error.TheVariants.{Memory};
ghost use Rattle.ciborium.specs.laws.Loaded.{OneEncoding, SavedIsLoaded};
ghost use Rattle.ciborium.specs.laws.RoundTrips.{TreeReadBack};

use crate::described_types::{KeyHeader, Record};
use crate::round_trips::through_vec;
use ciborium::de::{self, Deserialize};
use ciborium::laws::{ReadsBack, one_encoding, saved_is_loaded, written_is_read_back};
use ciborium::ser::Serialize;
use std::alloc::Global;
use std::io;

/// Records come back from a tree, headers from the bytes as which they are saved, and a list of
/// headers that may be missing has one encoding.
pub fn described_come_back()
    ensures records { TreeReadBack ⟦<Record as ReadsBack>⟧.is_valid ⟦<Record as Serialize>⟧.written
        ⟦<Record as Deserialize>⟧.reading }
    ensures headers { SavedIsLoaded ⟦<KeyHeader as ReadsBack>⟧.is_valid
        ⟦<KeyHeader as Serialize>⟧.written ⟦<KeyHeader as Deserialize>⟧.reading
        ⟦<KeyHeader as ReadsBack>⟧.levels }
    ensures lists { OneEncoding ⟦<Vec<Option<KeyHeader>> as Serialize>⟧.written
        ⟦<Vec<Option<KeyHeader>> as Deserialize>⟧.reading }
{
    written_is_read_back::<Record>();
    saved_is_loaded::<KeyHeader>();
    one_encoding::<Vec<Option<KeyHeader>>>();
}

/// A header through its bytes: it comes back with its content, or an allocation fails.
pub fn header_again(alloc: Global, header: &KeyHeader) -> Result<KeyHeader, de::Error<io::Error>>
    requires valid { ⟦<KeyHeader as ReadsBack>⟧.is_valid header.now }
    requires levels { ⟦<KeyHeader as ReadsBack>⟧.levels header.now ≤ 256 }
    ensures ok { IfOk result (λ again. ⟦<KeyHeader as Deserialize>⟧.reading.content again
        ≡ ⟦<KeyHeader as Deserialize>⟧.reading.content header.now) }
    ensures refused { IfOk (⟦<KeyHeader as Serialize>⟧.written header.now)
        (λ i. IfErr result (λ e. e ≡ Memory)) }
{
    through_vec(alloc, header)
}
