//! Parts in a row, written as one definite container.

ghost use Rattle.std.specs.Prelude.{◌≡◌, ℕ, ◌⊎◌, IfErr, List, OnErr, OnOk, length};
ghost use Rattle.ciborium_value.specs.Places.{ContainerType, a_map, an_array, size_of};
ghost use Rattle.ciborium_value.specs.Progress.{BreaksAll, CanTake, IsOwedAmong, TakesAll, counted};
ghost use Rattle.ciborium_value.specs.Progress.{counted_of};
ghost use Rattle.ciborium_value.specs.Sinks.{AddsNamed, Begins, BreaksBegin, BreaksNamed};
ghost use Rattle.ciborium_value.specs.Sinks.{IsGranted, IsOutside, IsOwed, IsReady, Named};

use crate::sink::Sink;
use ciborium_ll::Kind;

/// What parts stand in: `OfArray` or `OfMap`.
pub trait Container {
    // An array, or a map whose keys and values come in turn.
    ghost container_type: { ContainerType };

    /// Begins a container of so many items or pairs.
    fn begin<S: Sink>(sink: &mut S, count: Option<usize>) -> Result<(), S::Error>
        requires { IsReady S.stands_at sink.old }
        ensures ok { OnOk result (Begins S.stands_at container_type sink.old sink.new count) }
        ensures cause { IfErr result (λ e. IsOutside (S.cause e)) }
        ensures memory { IfErr result (λ e. IsGranted (S.cause e) S.takes_memory) }
        ensures err { OnErr result
            (BreaksBegin S.stands_at S.out container_type sink.old sink.new count) };
}

/// The parts are the items of an array.
pub struct OfArray;

/// The parts are the keys and values of a map, in turn.
pub struct OfMap;

impl Container for OfArray {
    ghost container_type = { an_array };

    fn begin<S: Sink>(sink: &mut S, count: Option<usize>) -> Result<(), S::Error> {
        sink.begin_array(count)
    }
}

impl Container for OfMap {
    ghost container_type = { a_map };

    fn begin<S: Sink>(sink: &mut S, count: Option<usize>) -> Result<(), S::Error> {
        sink.begin_map(count)
    }
}

/// The parts of a container in a row: of an array an `Item` or `NoItem`, of a map a `Field`, a
/// `MaybeField` or `NoField`.
pub trait Parts<C: Container> {
    // What the parts name, in turn.
    ghost parts: { Self → List Named };

    // How many items or pairs there are.
    ghost number: { Self → ℕ };

    // Whether writing takes memory.
    ghost takes_memory: { Type 0 };

    /// How many items or pairs there are, or `None` where a `usize` does not hold it.
    fn count(&self) -> Option<usize>
        ensures count { result ≡ counted (number self.now) }
        ensures sized { length (parts self.now) ≡ size_of C.container_type (number self.now) };

    /// Adds each part to a container that has been begun.
    fn write_parts<S: Sink>(&self, sink: &mut S) -> Result<(), S::Error>
        requires { CanTake C.container_type S.stands_at sink.old (parts self.now) }
        ensures ok { OnOk result
            (TakesAll C.container_type S.stands_at sink.old sink.new (parts self.now)) }
        ensures cause { IfErr result (λ e. IsOwedAmong (S.cause e) (parts self.now)) }
        ensures memory { IfErr result
            (λ e. IsGranted (S.cause e) (S.takes_memory ⊎ takes_memory)) }
        ensures err { OnErr result
            (BreaksAll C.container_type S.stands_at S.out sink.old sink.new (parts self.now)) };
}

/// Writes the parts as a definite container, in their order.
///
/// # Errors
///
/// Those of the parts, and `Kind::Other` where a `usize` does not hold their count.
#[inline(always)]
pub fn serialize_parts<C: Container, P: Parts<C>, S: Sink>(
    parts: &P,
    sink: &mut S,
) -> Result<(), S::Error>
    requires { IsReady S.stands_at sink.old }
    ensures ok { OnOk result (AddsNamed S.stands_at sink.old sink.new
        (counted_of C.container_type (P.number parts.now) (P.parts parts.now))) }
    ensures cause { IfErr result (λ e. IsOwed (S.cause e)
        (counted_of C.container_type (P.number parts.now) (P.parts parts.now))) }
    ensures memory { IfErr result (λ e. IsGranted (S.cause e) (S.takes_memory ⊎ P.takes_memory)) }
    ensures err { OnErr result (BreaksNamed S.stands_at S.out sink.old sink.new
        (counted_of C.container_type (P.number parts.now) (P.parts parts.now))) }
{
    match parts.count() {
        Some(count) => {
            C::begin(sink, Some(count))?;
            parts.write_parts(sink)?;
            sink.end(Some(count))
        }
        None => Err(sink.refuse(Kind::Other)),
    }
}
