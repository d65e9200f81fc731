//! Numbers.

ghost use Rattle.std.specs.Prelude.{Ok, pos};
ghost use Rattle.ciborium_value.specs.Sinks.{number_item};

use super::Serialize;
use crate::sink::Sink;

/// The number.
impl Serialize for u8 {
    ghost written = { λ n. Ok (number_item (pos n)) };

    ghost takes_memory = { ⊥ };

    #[inline(always)]
    fn serialize<S: Sink>(&self, sink: &mut S) -> Result<(), S::Error> {
        sink.unsigned(u128::from(*self))
    }
}

/// The number.
impl Serialize for u16 {
    ghost written = { λ n. Ok (number_item (pos n)) };

    ghost takes_memory = { ⊥ };

    #[inline(always)]
    fn serialize<S: Sink>(&self, sink: &mut S) -> Result<(), S::Error> {
        sink.unsigned(u128::from(*self))
    }
}

/// The number.
impl Serialize for u32 {
    ghost written = { λ n. Ok (number_item (pos n)) };

    ghost takes_memory = { ⊥ };

    #[inline(always)]
    fn serialize<S: Sink>(&self, sink: &mut S) -> Result<(), S::Error> {
        sink.unsigned(u128::from(*self))
    }
}

/// The number.
impl Serialize for u64 {
    ghost written = { λ n. Ok (number_item (pos n)) };

    ghost takes_memory = { ⊥ };

    #[inline(always)]
    fn serialize<S: Sink>(&self, sink: &mut S) -> Result<(), S::Error> {
        sink.unsigned(u128::from(*self))
    }
}

/// The number.
impl Serialize for u128 {
    ghost written = { λ n. Ok (number_item (pos n)) };

    ghost takes_memory = { ⊥ };

    #[inline(always)]
    fn serialize<S: Sink>(&self, sink: &mut S) -> Result<(), S::Error> {
        sink.unsigned(*self)
    }
}

/// The number.
impl Serialize for usize {
    ghost written = { λ n. Ok (number_item (pos n)) };

    ghost takes_memory = { ⊥ };

    #[inline(always)]
    fn serialize<S: Sink>(&self, sink: &mut S) -> Result<(), S::Error> {
        sink.unsigned(*self as u128)
    }
}

/// The number.
impl Serialize for i8 {
    ghost written = { λ n. Ok (number_item n) };

    ghost takes_memory = { ⊥ };

    #[inline(always)]
    fn serialize<S: Sink>(&self, sink: &mut S) -> Result<(), S::Error> {
        sink.integer(i128::from(*self))
    }
}

/// The number.
impl Serialize for i16 {
    ghost written = { λ n. Ok (number_item n) };

    ghost takes_memory = { ⊥ };

    #[inline(always)]
    fn serialize<S: Sink>(&self, sink: &mut S) -> Result<(), S::Error> {
        sink.integer(i128::from(*self))
    }
}

/// The number.
impl Serialize for i32 {
    ghost written = { λ n. Ok (number_item n) };

    ghost takes_memory = { ⊥ };

    #[inline(always)]
    fn serialize<S: Sink>(&self, sink: &mut S) -> Result<(), S::Error> {
        sink.integer(i128::from(*self))
    }
}

/// The number.
impl Serialize for i64 {
    ghost written = { λ n. Ok (number_item n) };

    ghost takes_memory = { ⊥ };

    #[inline(always)]
    fn serialize<S: Sink>(&self, sink: &mut S) -> Result<(), S::Error> {
        sink.integer(i128::from(*self))
    }
}

/// The number.
impl Serialize for i128 {
    ghost written = { λ n. Ok (number_item n) };

    ghost takes_memory = { ⊥ };

    #[inline(always)]
    fn serialize<S: Sink>(&self, sink: &mut S) -> Result<(), S::Error> {
        sink.integer(*self)
    }
}

/// The number.
impl Serialize for isize {
    ghost written = { λ n. Ok (number_item n) };

    ghost takes_memory = { ⊥ };

    #[inline(always)]
    fn serialize<S: Sink>(&self, sink: &mut S) -> Result<(), S::Error> {
        sink.integer(*self as i128)
    }
}
