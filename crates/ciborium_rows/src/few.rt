//! A type of one's own that refuses an item before it reads it.

ghost use Rattle.std.specs.Prelude.{List, Ok, map, pos, ℕ};
ghost use Rattle.ciborium_value.specs.Places.{an_array};
ghost use Rattle.ciborium_value.specs.Readings.{spacious, unordered};
ghost use Rattle.ciborium_value.specs.Sinks.{container_of, number_item};
ghost use Rattle.ciborium_rows.specs.Few.{given_few};

use ciborium::de::{Deserialize, Source};
use ciborium::ser::{Serialize, Sink};
use ciborium::value::Kind;
use std::alloc::Global;

// The most numbers.
const MOST: usize = 5;

/// At most five numbers. A sixth item is refused as `Length` before it is read, whatever it is.
#[derive(Debug, Drop)]
pub struct Few(pub Vec<u8>);

impl Serialize for Few {
    ghost written = { λ f. container_of an_array
        (map (λ n. Ok (number_item (pos n))) f.0.items) };

    ghost takes_memory = { ⊥ };

    fn serialize<S: Sink>(&self, sink: &mut S) -> Result<(), S::Error> {
        self.0.serialize(sink)
    }
}

impl Deserialize for Few {
    ghost Content = { List ℕ };

    ghost reading = { spacious (λ f. f.0.items) unordered
        (given_few 5 ⟦<u8 as Deserialize>⟧.reading.taken) };

    fn deserialize<S: Source>(alloc: Global, source: &mut S) -> Result<Few, S::Error> {
        let mut seq = source.begin_seq(alloc)?;
        let mut numbers = Vec::new(alloc);
        while source.next(&mut seq)? {
            if numbers.len() >= MOST {
                return Err(source.refuse(Kind::Length));
            }
            let number = u8::deserialize(alloc, source)?;
            match numbers.push(number) {
                Ok(()) => {}
                Err(_) => return Err(source.memory()),
            }
        }
        Ok(Few(numbers))
    }
}
