//! Enums that are written and read by the names of their variants.
ghost use Rattle.ciborium.specs.OwnTypes.{codes, described, enum_description, inl, inr};
ghost use Rattle.ciborium.specs.OwnTypes.{no_variant, refl, then_unit_variant, then_variant};
ghost use Rattle.ciborium.specs.Readings.{ordered_by};
ghost use Rattle.ciborium.specs.ReadsBack.{by_form};
ghost use Rattle.ciborium.specs.VariantReadings.{enum_of};
ghost use Rattle.ciborium.specs.WrittenContents.{from_content};
ghost use Rattle.ciborium_examples.specs.Letters.{IsLetterValid, letter_back, letter_named};
ghost use Rattle.ciborium_examples.specs.Letters.{letters};
ghost use Rattle.ciborium_examples.specs.declared.variant_types.Form.TheVariants as form;
ghost use Rattle.ciborium_examples.specs.declared.variant_types.Letter.{Letter};
ghost use Rattle.ciborium_examples.specs.declared.variant_types.Remark.TheVariants.{Silent};
ghost use Rattle.ciborium_examples.specs.declared.variant_types.Remark.TheVariants.{Spoken};

use crate::struct_types::Ends;
use ciborium::de::{Deserialize, Key, Source};
use ciborium::described::{AsDescribed, Described};
use ciborium::laws::{FormReadsBack, ReadsBack, WritesContent};
use ciborium::ser::{Field, NoField, Serialize, Sink};
use ciborium::value::Kind;
use ciborium::{read_enum, write_enum};
use std::alloc::Global;

/// A has no data, B a number. As a key of maps it is ordered by its variants, the first one first,
/// and then by what they hold.
#[derive(Debug, Drop, PartialEq, Eq, PartialOrd, Ord)]
pub enum Letter {
    A,
    B(u8),
}

impl Serialize for Letter {
    ghost written = { letter_named };

    ghost takes_memory = { ⊥ };

    fn serialize<S: Sink>(&self, sink: &mut S) -> Result<(), S::Error> {
        match self {
            Letter::A => "A".serialize(sink),
            Letter::B(number) => Field("B", number, NoField).serialize(sink),
        }
    }
}

impl Deserialize for Letter {
    ghost Content = { Letter };

    ghost reading = { ordered_by ⟦<Letter as Ord>⟧.cmp (enum_of (λ l. l) letters) };

    fn deserialize<S: Source>(alloc: Global, source: &mut S) -> Result<Letter, S::Error> {
        let (name, level) = source.begin_variant(alloc)?;
        if name.as_str() == "A" {
            source.unit()?;
            source.end_variant(level);
            return Ok(Letter::A);
        }
        if name.as_str() == "B" {
            let number = u8::deserialize(alloc, source)?;
            source.end_variant(level);
            return Ok(Letter::B(number));
        }
        Err(source.refuse(Kind::Variant))
    }
}

impl ReadsBack for Letter {
    ghost is_valid = { IsLetterValid };

    ghost levels = { λ l. 1 };

    ghost reads_back = { λ way plain. letter_back way };
}

impl FormReadsBack for Letter {
    ghost form_reads_back = { λ order. letter_back (by_form order) };
}

impl WritesContent for Letter {
    ghost writes_content = { from_content ⟦<Letter as Serialize>⟧.written _ };
}

impl Key for Letter {
    ghost orders = { λ a b. refl };
}

/// A remark, of which the text counts by its bytes.
#[derive(Debug, Drop, PartialEq)]
pub enum Remark {
    Silent,
    Spoken(String),
}

impl Described for Remark {
    ghost description = { enum_description
        (elim [ Silent ↦ inl tt | Spoken text ↦ inr (inl text) ])
        (then_unit_variant (codes "Silent")
        (then_variant (codes "Spoken") ⟦<String as Described>⟧.description no_variant)) };
}

impl AsDescribed for Remark {
    ghost as_described = { described ⟦<Remark as Described>⟧.description refl };
}

impl Serialize for Remark {
    ghost written = { ⟦<Remark as Described>⟧.description.written };

    ghost takes_memory = { ⊥ };

    fn serialize<S: Sink>(&self, sink: &mut S) -> Result<(), S::Error> {
        write_enum!(self, sink, {Silent, Spoken(_): "Spoken"})
    }
}

impl Deserialize for Remark {
    ghost Content = { ⟦<Remark as Described>⟧.description.Content };

    ghost reading = { ⟦<Remark as Described>⟧.description.reading };

    fn deserialize<S: Source>(alloc: Global, source: &mut S) -> Result<Remark, S::Error> {
        read_enum!(alloc, source, {Silent: "Silent", Spoken(_)})
    }
}

/// A variant of each form: without data, over a value, over a tuple and over fields.
#[derive(Debug, Drop, PartialEq)]
pub enum Form {
    Unit,
    Newtype(u8),
    Tuple(u8, u8),
    Struct { first: u8, second: u8 },
}

impl Described for Form {
    ghost description = { enum_description
        (elim [
          | form.Unit ↦ inl tt
          | form.Newtype n ↦ inr (inl n)
          | form.Tuple a b ↦ inr (inr (inl (a, b)))
          | form.Struct a b ↦ inr (inr (inr (inl (record { first = a; second = b }))))
        ])
        (then_unit_variant (codes "Unit")
        (then_variant (codes "Newtype") ⟦<u8 as Described>⟧.description
        (then_variant (codes "Tuple") ⟦<(u8, u8) as Described>⟧.description
        (then_variant (codes "Struct") ⟦<Ends as Described>⟧.description no_variant)))) };
}

impl AsDescribed for Form {
    ghost as_described = { described ⟦<Form as Described>⟧.description refl };
}

impl Serialize for Form {
    ghost written = { ⟦<Form as Described>⟧.description.written };

    ghost takes_memory = { ⊥ };

    fn serialize<S: Sink>(&self, sink: &mut S) -> Result<(), S::Error> {
        match self {
            Form::Unit => "Unit".serialize(sink),
            Form::Newtype(number) => Field("Newtype", number, NoField).serialize(sink),
            Form::Tuple(first, second) => Field("Tuple", &(first, second), NoField).serialize(sink),
            Form::Struct { first, second } => {
                let (first, second) = (*first, *second);
                Field("Struct", &Ends { first, second }, NoField).serialize(sink)
            }
        }
    }
}

impl Deserialize for Form {
    ghost Content = { ⟦<Form as Described>⟧.description.Content };

    ghost reading = { ⟦<Form as Described>⟧.description.reading };

    fn deserialize<S: Source>(alloc: Global, source: &mut S) -> Result<Form, S::Error> {
        let (name, level) = source.begin_variant(alloc)?;
        let form = match name.as_str() {
            "Unit" => {
                source.unit()?;
                Form::Unit
            }
            "Newtype" => Form::Newtype(u8::deserialize(alloc, source)?),
            "Tuple" => {
                let (first, second) = <(u8, u8)>::deserialize(alloc, source)?;
                Form::Tuple(first, second)
            }
            "Struct" => {
                let Ends { first, second } = Ends::deserialize(alloc, source)?;
                Form::Struct { first, second }
            }
            _ => return Err(source.refuse(Kind::Variant)),
        };
        source.end_variant(level);
        Ok(form)
    }
}
