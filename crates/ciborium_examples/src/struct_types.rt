//! Structs that are written and read by the names of their fields.
ghost use Rattle.std.specs.Prelude.{Bool, List, None, string_bytes, true, ℕ};
ghost use Rattle.ciborium.specs.ReadsBack.{boolean-back, by_form, string_back};
ghost use Rattle.ciborium.specs.OwnTypes.{described, label, refl, struct_description, then_field};
ghost use Rattle.ciborium.specs.OwnTypes.{then_field_or, then_no_field};
ghost use Rattle.ciborium.specs.Sinks.{named_text};
ghost use Rattle.ciborium.specs.StructReadings.{struct_of};
ghost use Rattle.ciborium_examples.specs.Notices.{notice_back, notice_fields, notice_named};

use ciborium::de::{Deserialize, Source, Wanted, found_or, read_fields, required};
use ciborium::described::{AsDescribed, Described};
use ciborium::laws::{FormReadsBack, ReadsBack};
use ciborium::ser::{Field, NoField, Serialize, Sink};
use ciborium::{read_struct, write_struct};
use std::alloc::Global;

/// A struct of one field.
#[derive(Debug, Drop, PartialEq)]
pub struct Foo {
    pub bar: u8,
}

impl Described for Foo {
    ghost description = { struct_description
        (then_field (label "bar") (λ f. f.bar) ⟦<u8 as Described>⟧.description then_no_field) };
}

impl AsDescribed for Foo {
    ghost as_described = { described ⟦<Foo as Described>⟧.description refl };
}

impl Serialize for Foo {
    ghost written = { ⟦<Foo as Described>⟧.description.written };

    ghost takes_memory = { ⊥ };

    fn serialize<S: Sink>(&self, sink: &mut S) -> Result<(), S::Error> {
        write_struct!(self, sink, { bar })
    }
}

impl Deserialize for Foo {
    ghost Content = { ⟦<Foo as Described>⟧.description.Content };

    ghost reading = { ⟦<Foo as Described>⟧.description.reading };

    fn deserialize<S: Source>(alloc: Global, source: &mut S) -> Result<Foo, S::Error> {
        read_struct!(alloc, source, { bar })
    }
}

/// A struct of two fields.
#[derive(Debug, Drop, PartialEq)]
pub struct Ends {
    pub first: u8,
    pub second: u8,
}

impl Described for Ends {
    ghost description = { struct_description
        (then_field (label "first") (λ e. e.first) ⟦<u8 as Described>⟧.description
        (then_field (label "second") (λ e. e.second) ⟦<u8 as Described>⟧.description
        then_no_field)) };
}

impl AsDescribed for Ends {
    ghost as_described = { described ⟦<Ends as Described>⟧.description refl };
}

impl Serialize for Ends {
    ghost written = { ⟦<Ends as Described>⟧.description.written };

    ghost takes_memory = { ⊥ };

    fn serialize<S: Sink>(&self, sink: &mut S) -> Result<(), S::Error> {
        write_struct!(self, sink, {first, second})
    }
}

impl Deserialize for Ends {
    ghost Content = { ⟦<Ends as Described>⟧.description.Content };

    ghost reading = { ⟦<Ends as Described>⟧.description.reading };

    fn deserialize<S: Source>(alloc: Global, source: &mut S) -> Result<Ends, S::Error> {
        read_struct!(alloc, source, {first, second})
    }
}

/// A struct with fields that may be missing: the number is then 200, and there is no text.
#[derive(Debug, Drop, PartialEq)]
pub struct Reply {
    pub title: String,
    pub number: u8,
    pub text: Option<String>,
}

impl Described for Reply {
    ghost description = { struct_description
        (then_field (label "title") (λ r. r.title) ⟦<String as Described>⟧.description
        (then_field_or (label "number") (λ r. r.number) ⟦<u8 as Described>⟧.description 200
        (then_field_or (label "text") (λ r. r.text) ⟦<Option<String> as Described>⟧.description None
        then_no_field))) };
}

impl AsDescribed for Reply {
    ghost as_described = { described ⟦<Reply as Described>⟧.description refl };
}

impl Serialize for Reply {
    ghost written = { ⟦<Reply as Described>⟧.description.written };

    ghost takes_memory = { ⊥ };

    fn serialize<S: Sink>(&self, sink: &mut S) -> Result<(), S::Error> {
        write_struct!(self, sink, {title, number, text})
    }
}

impl Deserialize for Reply {
    ghost Content = { ⟦<Reply as Described>⟧.description.Content };

    ghost reading = { ⟦<Reply as Described>⟧.description.reading };

    fn deserialize<S: Source>(alloc: Global, source: &mut S) -> Result<Reply, S::Error> {
        read_struct!(alloc, source, {title, number = 200, text = None})
    }
}

/// A struct with a field that is left out where it is false.
#[derive(Debug, Drop, PartialEq)]
pub struct Notice {
    pub title: String,
    pub urgent: bool,
}

impl Serialize for Notice {
    ghost written = { λ n. notice_named (named_text (string_bytes n.title)) n.urgent };

    ghost takes_memory = { ⊥ };

    fn serialize<S: Sink>(&self, sink: &mut S) -> Result<(), S::Error> {
        if self.urgent {
            Field("title", &self.title, Field("urgent", &true, NoField)).serialize(sink)
        } else {
            Field("title", &self.title, NoField).serialize(sink)
        }
    }
}

impl Deserialize for Notice {
    ghost Content = { List ℕ × (Bool × Unit {0}) };

    ghost reading = { struct_of (λ n. (string_bytes n.title, (n.urgent, tt)))
        (notice_fields ⟦<String as Deserialize>⟧.reading ⟦<bool as Deserialize>⟧.reading) };

    fn deserialize<S: Source>(alloc: Global, source: &mut S) -> Result<Notice, S::Error> {
        let mut fields = Wanted("title", None, Wanted("urgent", None, NoField));
        read_fields(alloc, source, &mut fields)?;
        let Wanted(_, title, Wanted(_, urgent, NoField)) = fields;
        Ok(Notice {
            title: required(source, title)?,
            urgent: found_or(urgent, false),
        })
    }
}

impl ReadsBack for Notice {
    ghost is_valid = { λ n. Unit {0} };

    ghost levels = { λ n. 1 };

    ghost reads_back = { λ way plain n valid. notice_back
        ⟦<String as Deserialize>⟧.reading ⟦<bool as Deserialize>⟧.reading n.urgent
        (string_back way n.title tt) (boolean-back way true tt) };
}

impl FormReadsBack for Notice {
    ghost form_reads_back = { λ order n valid. notice_back
        ⟦<String as Deserialize>⟧.reading ⟦<bool as Deserialize>⟧.reading n.urgent
        (string_back (by_form order) n.title tt) (boolean-back (by_form order) true tt) };
}
