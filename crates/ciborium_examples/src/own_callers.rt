//! Callers that write and read types of their own: a struct by names, an enum by its variants, and
//! an envelope by its tag.
ghost use Rattle.std.specs.Prelude.{◌≡◌, IfSome, Some, codes, false, pos, string_bytes};
ghost use Rattle.ciborium.specs.Item as item;
ghost use Rattle.ciborium.specs.Encoding.{written_bytes};
ghost use Rattle.ciborium.specs.Sinks.{number_item};
ghost use Rattle.ciborium.specs.View.{result_map};
ghost use Rattle.ciborium.specs.TypedAnswers.{TakesGiven};

use crate::own_types::{Figure, Message, Moment};
use ciborium::de::{self, Deserialize};
use ciborium::{from_reader, to_vec};
use std::alloc::Global;
use std::io::{self, Read};

/// The message that a reader begins with, by the names of its fields.
pub fn read_message<R: Read>(alloc: Global, reader: &mut R) -> Result<Message, de::Error<io::Error>>
    ensures { TakesGiven (Some 256) ⟦<Message as Deserialize>⟧.reading.taken
        (R.remaining reader.old) (R.remaining reader.new)
        (result_map (λ m. (m.version, (string_bytes m.body, tt))) result) }
{
    from_reader(alloc, reader)
}

/// The bytes of a circle.
pub fn bytes_of_circle(alloc: Global, radius: u8) -> Option<Vec<u8>>
    ensures { IfSome result (λ bytes. bytes.items ≡ written_bytes (item.map false
        (item.pair (item.text false (codes "Circle")) (number_item (pos radius))
        item.no_pairs))) }
{
    to_vec(alloc, &Figure::Circle(radius)).ok()
}

/// The figure that a reader begins with, by the name of its variant.
pub fn read_figure<R: Read>(alloc: Global, reader: &mut R) -> Result<Figure, de::Error<io::Error>>
    ensures { TakesGiven (Some 256) ⟦<Figure as Deserialize>⟧.reading.taken
        (R.remaining reader.old) (R.remaining reader.new)
        (result_map ⟦<Figure as Deserialize>⟧.reading.content result) }
{
    from_reader(alloc, reader)
}

/// The bytes of a moment, under its tag.
pub fn bytes_of_moment(alloc: Global, moment: &Moment) -> Option<Vec<u8>>
    ensures { IfSome result (λ bytes. bytes.items
        ≡ written_bytes (item.tag 1 (number_item (pos moment.now.seconds)))) }
{
    to_vec(alloc, moment).ok()
}

/// The moment that a reader begins with; it stands under its tag.
pub fn read_moment<R: Read>(alloc: Global, reader: &mut R) -> Result<Moment, de::Error<io::Error>>
    ensures { TakesGiven (Some 256) ⟦<Moment as Deserialize>⟧.reading.taken
        (R.remaining reader.old) (R.remaining reader.new) (result_map (λ m. m.seconds) result) }
{
    from_reader(alloc, reader)
}
