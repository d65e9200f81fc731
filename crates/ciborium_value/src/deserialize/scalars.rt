//! Booleans, null, characters and strings.

ghost use Rattle.std.specs.Prelude.{Bool, List, Option, refl, string_bytes, ℕ};
ghost use Rattle.std.specs.Cmp.Lexicographic.{slice_cmp};
ghost use Rattle.std.specs.Ordering.{bool_cmp, nat_cmp};
ghost use Rattle.ciborium_value.specs.lemmas.KeyOrders.{option_cmp-map};
ghost use Rattle.ciborium_value.specs.Readings.{option_of, plain, spacious, unordered};
ghost use Rattle.ciborium_value.specs.Given.{given_boolean, given_bytes, given_character};
ghost use Rattle.ciborium_value.specs.Given.{given_text, given_unit};

use super::{Deserialize, Key};
use crate::byte_buf::ByteBuf;
use crate::source::Source;
use std::alloc::Global;

/// Null or undefined. Skips tags; another item is refused as `Unit`.
impl Deserialize for () {
    ghost Content = { Unit {0} };

    ghost reading = { plain (λ u. u) unordered given_unit };

    #[inline(always)]
    fn deserialize<S: Source>(_alloc: Global, source: &mut S) -> Result<(), S::Error> {
        source.unit()
    }
}

impl Key for () {
    ghost orders = { λ a b. refl };
}

/// False or true. Skips tags; another item is refused as `Bool`.
impl Deserialize for bool {
    ghost Content = { Bool };

    ghost reading = { plain (λ b. b) bool_cmp given_boolean };

    #[inline(always)]
    fn deserialize<S: Source>(_alloc: Global, source: &mut S) -> Result<bool, S::Error> {
        source.boolean()
    }
}

impl Key for bool {
    ghost orders = { λ a b. refl };
}

/// The one character of a definite text. Skips tags; another item is refused as `Char`.
impl Deserialize for char {
    ghost Content = { ℕ };

    ghost reading = { plain (λ c. c) nat_cmp given_character };

    #[inline(always)]
    fn deserialize<S: Source>(_alloc: Global, source: &mut S) -> Result<char, S::Error> {
        source.character()
    }
}

impl Key for char {
    ghost orders = { λ a b. refl };
}

/// A text, of definite or indefinite length. Skips tags; another item is refused as `Text`.
impl Deserialize for String {
    ghost Content = { List ℕ };

    ghost reading = { spacious string_bytes (slice_cmp nat_cmp) given_text };

    #[inline(always)]
    fn deserialize<S: Source>(alloc: Global, source: &mut S) -> Result<String, S::Error> {
        source.text(alloc)
    }
}

impl Key for String {
    ghost orders = { λ a b. refl };
}

/// A byte string, of definite or indefinite length, or an array of numbers from 0 to 255, in which
/// another number is refused as `Range`. Skips tags; another item is refused as `Bytes`.
impl Deserialize for ByteBuf {
    ghost Content = { List ℕ };

    ghost reading = { spacious (λ b. b.0.items) (slice_cmp nat_cmp) given_bytes };

    #[inline(always)]
    fn deserialize<S: Source>(alloc: Global, source: &mut S) -> Result<ByteBuf, S::Error> {
        let bytes = source.bytes(alloc)?;
        Ok(ByteBuf(bytes))
    }
}

impl Key for ByteBuf {
    ghost orders = { λ a b. refl };
}

/// `None` for null or undefined without a tag; else `Some` of what the item gives, or its refusal.
impl<T: Deserialize> Deserialize for Option<T> {
    ghost Content = { Option T.Content };

    ghost reading = { option_of T.reading };

    #[inline(always)]
    fn deserialize<S: Source>(alloc: Global, source: &mut S) -> Result<Option<T>, S::Error> {
        if source.null_ahead()? {
            source.unit()?;
            return Ok(None);
        }
        let content = T::deserialize(alloc, source)?;
        Ok(Some(content))
    }
}

impl<T: Key> Key for Option<T> {
    ghost orders = { option_cmp-map T.cmp T.reading.order T.reading.content T.orders };
}
