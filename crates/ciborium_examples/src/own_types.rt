//! Types of a user's own, each with the item that it writes, or with what it reads of an item, as a
//! user gives them.
ghost use Rattle.std.specs.Prelude.{◌∷◌, ◌%◌, Err, Ok, [], if◌then◌else◌, map, nat_eq, nat_le, pos};
ghost use Rattle.std.specs.Prelude.{string_bytes};
ghost use Rattle.ciborium.specs.OwnTypes.{codes, described, enum_description, inl, inr, label};
ghost use Rattle.ciborium.specs.OwnTypes.{no_variant, refl, struct_description, tested, then_field};
ghost use Rattle.ciborium.specs.OwnTypes.{then_no_field, then_unit_variant, then_variant};
ghost use Rattle.ciborium.specs.OwnTypes.{under_tag};
ghost use Rattle.ciborium.specs.Places.{a_map, an_array};
ghost use Rattle.ciborium.specs.Sinks.{container_of, in_turn, named_text};
ghost use Rattle.ciborium.specs.Sinks.{number_item, open_container_of};
ghost use Rattle.ciborium_ll.specs.declared.kind.Kind.TheVariants.{Other, Range};
ghost use Rattle.ciborium_examples.specs.declared.own_types.Figure.TheVariants.{Circle, Point};

use ciborium::de::{Deserialize, Source};
use ciborium::described::{AsDescribed, Described};
use ciborium::ser::{Serialize, Sink};
use ciborium::tag::Required;
use ciborium::value::Kind;
use ciborium::{read_enum, read_struct, write_enum, write_struct};
use std::alloc::Global;
use std::collections::BTreeMap;

/// A struct: a map by names.
#[derive(Debug, Drop, PartialEq)]
pub struct Message {
    pub version: u8,
    pub body: String,
}

impl Described for Message {
    ghost description = { struct_description
        (then_field (label "version") (λ m. m.version) ⟦<u8 as Described>⟧.description
        (then_field (label "body") (λ m. m.body) ⟦<String as Described>⟧.description
        then_no_field)) };
}

impl AsDescribed for Message {
    ghost as_described = { described ⟦<Message as Described>⟧.description refl };
}

impl Serialize for Message {
    ghost written = { ⟦<Message as Described>⟧.description.written };

    ghost takes_memory = { ⊥ };

    fn serialize<S: Sink>(&self, sink: &mut S) -> Result<(), S::Error> {
        write_struct!(self, sink, {version, body})
    }
}

impl Deserialize for Message {
    ghost Content = { ⟦<Message as Described>⟧.description.Content };

    ghost reading = { ⟦<Message as Described>⟧.description.reading };

    fn deserialize<S: Source>(alloc: Global, source: &mut S) -> Result<Message, S::Error> {
        read_struct!(alloc, source, {version, body})
    }
}

/// A struct: an array of its fields.
#[derive(Debug, Drop)]
pub struct Position {
    pub x: i16,
    pub name: String,
}

impl Serialize for Position {
    ghost written = { λ p. container_of an_array
        (Ok (number_item p.x) ∷ named_text (string_bytes p.name) ∷ []) };

    ghost takes_memory = { ⊥ };

    fn serialize<S: Sink>(&self, sink: &mut S) -> Result<(), S::Error> {
        (&self.x, &self.name).serialize(sink)
    }
}

/// An enum: the name of the variant, and where it has data a map from that name to them.
#[derive(Debug, Drop, PartialEq)]
pub enum Figure {
    Point,
    Circle(u8),
}

impl Described for Figure {
    ghost description = { enum_description
        (elim [ Point ↦ inl tt | Circle radius ↦ inr (inl radius) ])
        (then_unit_variant (codes "Point")
        (then_variant (codes "Circle") ⟦<u8 as Described>⟧.description no_variant)) };
}

impl AsDescribed for Figure {
    ghost as_described = { described ⟦<Figure as Described>⟧.description refl };
}

impl Serialize for Figure {
    ghost written = { ⟦<Figure as Described>⟧.description.written };

    ghost takes_memory = { ⊥ };

    fn serialize<S: Sink>(&self, sink: &mut S) -> Result<(), S::Error> {
        write_enum!(self, sink, {Point, Circle(_)})
    }
}

impl Deserialize for Figure {
    ghost Content = { ⟦<Figure as Described>⟧.description.Content };

    ghost reading = { ⟦<Figure as Described>⟧.description.reading };

    fn deserialize<S: Source>(alloc: Global, source: &mut S) -> Result<Figure, S::Error> {
        read_enum!(alloc, source, {Point, Circle(_)})
    }
}

/// An even number. An odd one has no item.
#[derive(Debug, Drop)]
pub struct Even(pub u8);

impl Serialize for Even {
    ghost written = { λ e. if nat_eq (e.0 % 2) 0 then Ok (number_item (pos e.0)) else Err Other };

    ghost takes_memory = { ⊥ };

    fn serialize<S: Sink>(&self, sink: &mut S) -> Result<(), S::Error> {
        if self.0 % 2 == 0 {
            self.0.serialize(sink)
        } else {
            Err(sink.refuse(Kind::Other))
        }
    }
}

/// A text that is copied before it is written, which takes memory.
#[derive(Debug, Drop)]
pub struct Copied(pub String);

impl Serialize for Copied {
    ghost written = { λ c. named_text (string_bytes c.0) };

    ghost takes_memory = { Unit {0} };

    fn serialize<S: Sink>(&self, sink: &mut S) -> Result<(), S::Error> {
        match self.0.clone() {
            Ok(copy) => copy.serialize(sink),
            Err(_) => Err(sink.memory()),
        }
    }
}

/// Numbers in an open array.
#[derive(Debug, Drop)]
pub struct Open(pub Vec<u8>);

impl Serialize for Open {
    ghost written = { λ o. open_container_of an_array
        (map (λ n. Ok (number_item (pos n))) o.0.items) };

    ghost takes_memory = { ⊥ };

    fn serialize<S: Sink>(&self, sink: &mut S) -> Result<(), S::Error> {
        sink.begin_array(None)?;
        for number in &self.0 {
            number.serialize(sink)?;
        }
        sink.end(None)
    }
}

/// A map that is begun without a count.
#[derive(Debug, Drop)]
pub struct OpenMap(pub BTreeMap<u8, u8>);

impl Serialize for OpenMap {
    ghost written = { λ m. open_container_of a_map
        (in_turn (λ n. Ok (number_item (pos n))) (λ n. Ok (number_item (pos n))) m.0.entries) };

    ghost takes_memory = { ⊥ };

    fn serialize<S: Sink>(&self, sink: &mut S) -> Result<(), S::Error> {
        sink.begin_map(None)?;
        for (key, value) in &self.0 {
            key.serialize(sink)?;
            value.serialize(sink)?;
        }
        sink.end(None)
    }
}

/// Seconds since the beginning of 1970, under tag 1 (RFC 8949, section 3.4.2).
#[derive(Debug, Drop)]
pub struct Moment {
    pub seconds: u64,
}

impl Described for Moment {
    ghost description = { under_tag 1 (λ m. m.seconds) ⟦<u64 as Described>⟧.description };
}

impl AsDescribed for Moment {
    ghost as_described = { described ⟦<Moment as Described>⟧.description refl };
}

impl Serialize for Moment {
    ghost written = { ⟦<Moment as Described>⟧.description.written };

    ghost takes_memory = { ⊥ };

    fn serialize<S: Sink>(&self, sink: &mut S) -> Result<(), S::Error> {
        Required::<&u64, 1>(&self.seconds).serialize(sink)
    }
}

impl Deserialize for Moment {
    ghost Content = { ⟦<Moment as Described>⟧.description.Content };

    ghost reading = { ⟦<Moment as Described>⟧.description.reading };

    fn deserialize<S: Source>(alloc: Global, source: &mut S) -> Result<Moment, S::Error> {
        let Required(seconds) = Required::<u64, 1>::deserialize(alloc, source)?;
        Ok(Moment { seconds })
    }
}

/// Two numbers that do not fall, as an array. Others are refused as out of range.
#[derive(Debug, Drop, PartialEq)]
pub struct Span {
    pub start: u8,
    pub end: u8,
}

impl Described for Span {
    ghost description = { tested (λ s. (s.start, s.end))
        ⟦<(u8, u8) as Described>⟧.description (λ p. nat_le p.0 p.1) Range };
}

impl AsDescribed for Span {
    ghost as_described = { described ⟦<Span as Described>⟧.description refl };
}

/// An array of both.
impl Serialize for Span {
    ghost written = { ⟦<Span as Described>⟧.description.written };

    ghost takes_memory = { ⊥ };

    fn serialize<S: Sink>(&self, sink: &mut S) -> Result<(), S::Error> {
        (&self.start, &self.end).serialize(sink)
    }
}

impl Deserialize for Span {
    ghost Content = { ⟦<Span as Described>⟧.description.Content };

    ghost reading = { ⟦<Span as Described>⟧.description.reading };

    fn deserialize<S: Source>(alloc: Global, source: &mut S) -> Result<Span, S::Error> {
        let (start, end) = <(u8, u8)>::deserialize(alloc, source)?;
        if start > end {
            return Err(source.refuse(Kind::Range));
        }
        Ok(Span { start, end })
    }
}
