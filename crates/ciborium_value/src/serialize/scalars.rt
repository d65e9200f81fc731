//! Booleans, null, texts and byte strings.

ghost use Rattle.std.specs.Prelude.{Ok, encode_utf8, false, string_bytes};
ghost use Rattle.ciborium_ll.specs.Item as item;
ghost use Rattle.ciborium_value.specs.Encoding.{boolean_item};
ghost use Rattle.ciborium_value.specs.Sinks.{or_null};

use super::Serialize;
use crate::byte_buf::ByteBuf;
use crate::sink::Sink;

/// False or true.
impl Serialize for bool {
    ghost written = { λ b. Ok (boolean_item b) };

    ghost takes_memory = { ⊥ };

    #[inline(always)]
    fn serialize<S: Sink>(&self, sink: &mut S) -> Result<(), S::Error> {
        sink.boolean(*self)
    }
}

/// Null.
impl Serialize for () {
    ghost written = { λ u. Ok (item.simple 22) };

    ghost takes_memory = { ⊥ };

    #[inline(always)]
    fn serialize<S: Sink>(&self, sink: &mut S) -> Result<(), S::Error> {
        sink.null()
    }
}

/// A text of this character.
impl Serialize for char {
    ghost written = { λ c. Ok (item.text false (encode_utf8 c)) };

    ghost takes_memory = { ⊥ };

    #[inline(always)]
    fn serialize<S: Sink>(&self, sink: &mut S) -> Result<(), S::Error> {
        let mut buffer = [0; 4];
        sink.text(self.encode_utf8(&mut buffer))
    }
}

/// The text.
impl Serialize for &str {
    ghost written = { λ s. Ok (item.text false s.now) };

    ghost takes_memory = { ⊥ };

    #[inline(always)]
    fn serialize<S: Sink>(&self, sink: &mut S) -> Result<(), S::Error> {
        sink.text(self)
    }
}

/// The text.
impl Serialize for String {
    ghost written = { λ s. Ok (item.text false (string_bytes s)) };

    ghost takes_memory = { ⊥ };

    #[inline(always)]
    fn serialize<S: Sink>(&self, sink: &mut S) -> Result<(), S::Error> {
        sink.text(self)
    }
}

/// The byte string.
impl Serialize for ByteBuf {
    ghost written = { λ b. Ok (item.bytes false b.0.items) };

    ghost takes_memory = { ⊥ };

    #[inline(always)]
    fn serialize<S: Sink>(&self, sink: &mut S) -> Result<(), S::Error> {
        sink.bytes(&self.0)
    }
}

/// The item of what it refers to.
impl<T: Serialize> Serialize for &T {
    ghost written = { λ r. T.written r.now };

    ghost takes_memory = { T.takes_memory };

    #[inline(always)]
    fn serialize<S: Sink>(&self, sink: &mut S) -> Result<(), S::Error> {
        (**self).serialize(sink)
    }
}

/// Null, or the item of the content.
impl<T: Serialize> Serialize for Option<T> {
    ghost written = { or_null T.written };

    ghost takes_memory = { T.takes_memory };

    #[inline(always)]
    fn serialize<S: Sink>(&self, sink: &mut S) -> Result<(), S::Error> {
        match self {
            Some(content) => content.serialize(sink),
            None => sink.null(),
        }
    }
}
