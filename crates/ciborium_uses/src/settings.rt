//! Settings that are saved deterministically (RFC 8949, section 4.2), and loaded from the bytes
//! that saving writes alone: equal settings are equal bytes, which can be compared, hashed or
//! signed.
ghost use Rattle.std.specs.Prelude.{IfOk, map, ◌≡◌};
ghost use Rattle.ciborium.specs.DeterministicWrites.{WritesForm, named_form};
ghost use Rattle.ciborium_value.specs.declared.key_order.KeyOrder.TheVariants.{LengthFirst};
ghost use Rattle.ciborium_uses.specs.Settings.{LoadsSettings, settings_content};

mod error;
mod lines;
pub mod setting;
pub mod topic;

use ciborium::de::Deserialize;
use ciborium::laws::{FormReadsBack, ReadsBack, have_one_form, is_saved_loaded};
use ciborium::ser::{self, Serialize};
use ciborium::value::KeyOrder;
use ciborium::{from_slice_deterministic, into_writer_deterministic};
pub use error::SettingsError;
pub use lines::answer;
use setting::Setting;
use std::alloc::Global;
use std::collections::BTreeMap;
use std::io::{self, Write};
use topic::Topic;

/// Settings by their topics.
pub type Settings = BTreeMap<Topic, Setting>;

/// The topic with the shorter encoding comes first (section 4.2.3).
const ORDER: KeyOrder = KeyOrder::LengthFirst;

/// How deep an encoding may nest.
const LEVELS: usize = 256;

/// Writes the one deterministic encoding of settings: the topic with the shorter name comes first.
pub fn save<W: Write>(
    alloc: Global,
    settings: &Settings,
    writer: &mut W,
) -> Result<(), ser::Error<io::Error>>
    ensures { WritesForm (W.contents writer.old) (W.contents writer.new) result
        (named_form LengthFirst (⟦<Settings as Serialize>⟧.written settings.now)) }
{
    into_writer_deterministic(alloc, settings, ORDER, writer)
}

/// Loads settings from bytes that are all of what `save` writes of them, within `LEVELS` levels.
/// Bytes that are no settings, or any other encoding of them, are refused as `Load`: nothing else
/// stands in what is loaded.
pub fn load(alloc: Global, bytes: &[u8]) -> Result<Settings, SettingsError>
    ensures { LoadsSettings ⟦<Settings as Deserialize>⟧.reading ⟦<Settings as Serialize>⟧.written
        bytes.now result }
{
    let settings = from_slice_deterministic::<Settings>(alloc, bytes, ORDER, LEVELS)?;
    Ok(settings)
}

/// Saves settings into memory, and loads them from there: they are the settings that were saved.
pub fn through_memory(alloc: Global, settings: &Settings) -> Result<Settings, SettingsError>
    ensures { ⟦<Settings as ReadsBack>⟧.is_valid settings.now → IfOk result
        (λ again. settings_content again ≡ settings_content settings.now) }
{
    save_and_load::<Settings>(alloc, settings)
}

// The same of every type whose deterministic form is read back.
fn save_and_load<T: FormReadsBack>(alloc: Global, value: &T) -> Result<T, SettingsError>
    ensures { T.is_valid value.now → IfOk result
        (λ again. T.reading.content again ≡ T.reading.content value.now) }
{
    let mut saved = Vec::new(alloc);
    into_writer_deterministic(alloc, value, ORDER, &mut saved)?;
    let bytes: &[u8] = &saved;
    let again = from_slice_deterministic::<T>(alloc, bytes, ORDER, LEVELS)?;
    is_saved_loaded(value, &again, ORDER, LEVELS, bytes);
    Ok(again)
}

/// The encodings of settings, which are equal where the settings are, in whatever order each was
/// set.
pub fn save_both(
    alloc: Global,
    left: &Settings,
    right: &Settings,
) -> Result<(Vec<u8>, Vec<u8>), ser::Error<io::Error>>
    ensures { settings_content left.now ≡ settings_content right.now →
        IfOk result (λ both. both.0.items ≡ both.1.items) }
{
    let mut first = Vec::new(alloc);
    save(alloc, left, &mut first)?;
    let mut second = Vec::new(alloc);
    save(alloc, right, &mut second)?;
    have_one_form(left, right, ORDER);
    Ok((first, second))
}
