//! A struct as a map by labels, for implementations of `Serialize`.

ghost use Rattle.std.specs.Prelude.{ℕ, ◌+◌, ◌∷◌, ◌⊎◌, IfErr, OnErr, OnOk, []};
ghost use Rattle.ciborium_value.specs.Labels.{number_or, parts_or};
ghost use Rattle.ciborium_value.specs.Places.{a_map};
ghost use Rattle.ciborium_value.specs.Progress.{BreaksAll, CanTake, IsOwedAmong, TakesAll};
ghost use Rattle.ciborium_value.specs.Progress.{counted_of};
ghost use Rattle.ciborium_value.specs.Sinks.{IsGranted};

use crate::labels::Label;
use crate::parts::{OfMap, Parts, serialize_parts};
use crate::serialize::Serialize;
use crate::sink::Sink;

/// A field by its label, a text or a number, and the fields after it. It is written as a definite
/// map of them all, in this order:
///
///     Field("version", &self.version, Field("body", &self.body, NoField)).serialize(sink)
///
/// More fields than a `usize` counts, which is unreachable in practice, are refused as
/// `Kind::Other`.
#[derive(Drop)]
pub struct Field<'a, L, V, R>(pub L, pub &'a V, pub R);

/// A field that may be left out, and the fields after it: where it is `None` it is not written.
#[derive(Drop)]
pub struct MaybeField<'a, L, V, R>(pub L, pub &'a Option<V>, pub R);

/// The end of the fields.
#[derive(Drop)]
pub struct NoField;

impl Parts<OfMap> for NoField {
    ghost parts = { λ _. [] };

    ghost number = { λ _. 0 };

    ghost takes_memory = { ⊥ };

    fn count(&self) -> Option<usize> {
        Some(0)
    }

    fn write_parts<S: Sink>(&self, _sink: &mut S) -> Result<(), S::Error> {
        Ok(())
    }
}

// Writes a field, and the fields behind it.
fn write_field<L: Label, V: Serialize, R: Parts<OfMap>, S: Sink>(
    label: &L,
    value: &V,
    behind: &R,
    sink: &mut S,
) -> Result<(), S::Error>
    requires { CanTake a_map S.stands_at sink.old
        (L.written label.now ∷ V.written value.now ∷ R.parts behind.now) }
    ensures ok { OnOk result (TakesAll a_map S.stands_at sink.old sink.new
        (L.written label.now ∷ V.written value.now ∷ R.parts behind.now)) }
    ensures cause { IfErr result (λ e. IsOwedAmong (S.cause e)
        (L.written label.now ∷ V.written value.now ∷ R.parts behind.now)) }
    ensures memory { IfErr result
        (λ e. IsGranted (S.cause e) (S.takes_memory ⊎ (V.takes_memory ⊎ R.takes_memory))) }
    ensures err { OnErr result (BreaksAll a_map S.stands_at S.out sink.old sink.new
        (L.written label.now ∷ V.written value.now ∷ R.parts behind.now)) }
{
    label.serialize(sink)?;
    value.serialize(sink)?;
    behind.write_parts(sink)
}

impl<L: Label, V: Serialize, R: Parts<OfMap>> Parts<OfMap> for Field<'_, L, V, R> {
    ghost parts = { λ f. L.written f.0 ∷ V.written f.1.now ∷ R.parts f.2 };

    ghost number = { λ f. R.number f.2 + 1 };

    ghost takes_memory = { V.takes_memory ⊎ R.takes_memory };

    fn count(&self) -> Option<usize> {
        self.2.count()?.checked_add(1)
    }

    fn write_parts<S: Sink>(&self, sink: &mut S) -> Result<(), S::Error> {
        write_field(&self.0, self.1, &self.2, sink)
    }
}

impl<L: Label, V: Serialize, R: Parts<OfMap>> Serialize for Field<'_, L, V, R> {
    ghost written = { λ f. counted_of a_map (R.number f.2 + 1)
        (L.written f.0 ∷ V.written f.1.now ∷ R.parts f.2) };

    ghost takes_memory = { V.takes_memory ⊎ R.takes_memory };

    fn serialize<S: Sink>(&self, sink: &mut S) -> Result<(), S::Error> {
        serialize_parts(self, sink)
    }
}

impl<L: Label, V: Serialize, R: Parts<OfMap>> Parts<OfMap> for MaybeField<'_, L, V, R> {
    ghost parts = { λ f. parts_or f.1.now (λ v. L.written f.0 ∷ V.written v ∷ R.parts f.2)
        (R.parts f.2) };

    ghost number = { λ f. number_or f.1.now (R.number f.2 + 1) (R.number f.2) };

    ghost takes_memory = { V.takes_memory ⊎ R.takes_memory };

    fn count(&self) -> Option<usize> {
        match self.1 {
            Some(_) => self.2.count()?.checked_add(1),
            None => self.2.count(),
        }
    }

    fn write_parts<S: Sink>(&self, sink: &mut S) -> Result<(), S::Error> {
        match self.1 {
            Some(value) => write_field(&self.0, value, &self.2, sink),
            None => self.2.write_parts(sink),
        }
    }
}

impl<L: Label, V: Serialize, R: Parts<OfMap>> Serialize for MaybeField<'_, L, V, R> {
    ghost written = { λ f. counted_of a_map
        (number_or f.1.now (R.number f.2 + 1) (R.number f.2))
        (parts_or f.1.now (λ v. L.written f.0 ∷ V.written v ∷ R.parts f.2) (R.parts f.2)) };

    ghost takes_memory = { V.takes_memory ⊎ R.takes_memory };

    fn serialize<S: Sink>(&self, sink: &mut S) -> Result<(), S::Error> {
        serialize_parts(self, sink)
    }
}
