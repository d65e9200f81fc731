//! What is written.

ghost use Rattle.std.specs.Prelude.{◌⊎◌, IfErr, OnErr, OnOk};
ghost use Rattle.ciborium_value.specs.Sinks.{AddsNamed, BreaksNamed, IsGranted, IsOwed, IsReady};
ghost use Rattle.ciborium_value.specs.Sinks.{Named};

use crate::sink::Sink;
pub use containers::serialize_tagged;

mod containers;
mod numbers;
mod scalars;
mod values;

/// A value that is written as one item.
pub trait Serialize {
    // The item that the value writes, or the kind with which it is refused.
    ghost written: { Self → Named };

    // Whether writing takes memory.
    ghost takes_memory: { Type 0 };

    /// Adds the value's item to the sink.
    ///
    /// At `Ok` exactly that item was added. A value without an item is refused with its kind, and
    /// no value that has an item is refused with a kind. Where there is an item, at an error only
    /// a strict prefix of it was written.
    fn serialize<S: Sink>(&self, sink: &mut S) -> Result<(), S::Error>
        requires { IsReady S.stands_at sink.old }
        ensures ok { OnOk result (AddsNamed S.stands_at sink.old sink.new (written self.now)) }
        ensures cause { IfErr result (λ e. IsOwed (S.cause e) (written self.now)) }
        ensures memory { IfErr result
            (λ e. IsGranted (S.cause e) (S.takes_memory ⊎ takes_memory)) }
        ensures err { OnErr result
            (BreaksNamed S.stands_at S.out sink.old sink.new (written self.now)) };
}
