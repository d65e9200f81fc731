//! What values are written to.

ghost use Rattle.std.specs.Prelude.{◌≡◌, IfErr, OnErr, OnOk, negsuc, pos, false};
ghost use Rattle.ciborium_ll.specs.Item as item;
ghost use Rattle.ciborium_value.specs.Encoding.{boolean_item};
ghost use Rattle.ciborium_value.specs.Places.{IsOutAt, Out, Place, a_map, an_array};
ghost use Rattle.ciborium_value.specs.Sinks.{Adds, Begins, Breaks, BreaksBegin, BreaksEnd};
ghost use Rattle.ciborium_value.specs.Sinks.{BreaksTag, CanEnd, Cause, Ends, IsGranted, IsOutside};
ghost use Rattle.ciborium_value.specs.Sinks.{IsReady, Tags, memory, number_item, value};

use ciborium_ll::Kind;

/// Where an item is written, part by part: to bytes, or into a tree.
///
/// A sink takes exactly one top-level item. Each call adds what its comment says at the place where
/// the sink stands. That is allowed where the innermost container has room for it, and `end` where
/// this container is complete. At an error only a strict prefix of what the call adds was written.
pub trait Sink {
    /// Why a call is refused.
    type Error: Drop;

    // The places at which the sink stands.
    ghost stands_at: { Self → Place → Type 0 };

    // The bytes that are out, where they are known.
    ghost out: { Self → Out };

    // Whether it takes memory.
    ghost takes_memory: { Type 0 };

    // Why it refused.
    ghost cause: { Self.Error → Cause };

    /// Adds a number: one head where it is from -2^64 to 2^64 - 1, else tag 2 or 3 over its bytes
    /// without leading zeros (RFC 8949, sections 3.1 and 3.4.3).
    fn integer(&mut self, number: i128) -> Result<(), Self::Error>
        requires { IsReady stands_at self.old }
        ensures ok { OnOk result (Adds stands_at self.old self.new (number_item number)) }
        ensures cause { IfErr result (λ e. IsOutside (cause e)) }
        ensures memory { IfErr result (λ e. IsGranted (cause e) takes_memory) }
        ensures err { OnErr result (Breaks stands_at out self.old self.new (number_item number)) };

    /// Adds a number, as `integer` does.
    fn unsigned(&mut self, number: u128) -> Result<(), Self::Error>
        requires { IsReady stands_at self.old }
        ensures ok { OnOk result (Adds stands_at self.old self.new (number_item (pos number))) }
        ensures cause { IfErr result (λ e. IsOutside (cause e)) }
        ensures memory { IfErr result (λ e. IsGranted (cause e) takes_memory) }
        ensures err { OnErr result
            (Breaks stands_at out self.old self.new (number_item (pos number))) };

    /// Adds false or true (section 3.3).
    fn boolean(&mut self, boolean: bool) -> Result<(), Self::Error>
        requires { IsReady stands_at self.old }
        ensures ok { OnOk result (Adds stands_at self.old self.new (boolean_item boolean)) }
        ensures cause { IfErr result (λ e. IsOutside (cause e)) }
        ensures memory { IfErr result (λ e. IsGranted (cause e) takes_memory) }
        ensures err { OnErr result
            (Breaks stands_at out self.old self.new (boolean_item boolean)) };

    /// Adds null (section 3.3).
    fn null(&mut self) -> Result<(), Self::Error>
        requires { IsReady stands_at self.old }
        ensures ok { OnOk result (Adds stands_at self.old self.new (item.simple 22)) }
        ensures cause { IfErr result (λ e. IsOutside (cause e)) }
        ensures memory { IfErr result (λ e. IsGranted (cause e) takes_memory) }
        ensures err { OnErr result (Breaks stands_at out self.old self.new (item.simple 22)) };

    /// Adds a definite text (section 3.1).
    fn text(&mut self, text: &str) -> Result<(), Self::Error>
        requires { IsReady stands_at self.old }
        ensures ok { OnOk result (Adds stands_at self.old self.new (item.text false text.now)) }
        ensures cause { IfErr result (λ e. IsOutside (cause e)) }
        ensures memory { IfErr result (λ e. IsGranted (cause e) takes_memory) }
        ensures err { OnErr result
            (Breaks stands_at out self.old self.new (item.text false text.now)) };

    /// Adds a definite byte string (section 3.1).
    fn bytes(&mut self, bytes: &[u8]) -> Result<(), Self::Error>
        requires { IsReady stands_at self.old }
        ensures ok { OnOk result (Adds stands_at self.old self.new (item.bytes false bytes.now)) }
        ensures cause { IfErr result (λ e. IsOutside (cause e)) }
        ensures memory { IfErr result (λ e. IsGranted (cause e) takes_memory) }
        ensures err { OnErr result
            (Breaks stands_at out self.old self.new (item.bytes false bytes.now)) };

    /// Adds the tag of the next item (section 3.4).
    fn tag(&mut self, tag: u64) -> Result<(), Self::Error>
        requires { IsReady stands_at self.old }
        ensures ok { OnOk result (Tags stands_at self.old self.new tag) }
        ensures cause { IfErr result (λ e. IsOutside (cause e)) }
        ensures memory { IfErr result (λ e. IsGranted (cause e) takes_memory) }
        ensures err { OnErr result (BreaksTag stands_at out self.old self.new tag) };

    /// Begins an array of this many items; with `None` one of indefinite length (section 3.2.2).
    fn begin_array(&mut self, items: Option<usize>) -> Result<(), Self::Error>
        requires { IsReady stands_at self.old }
        ensures ok { OnOk result (Begins stands_at an_array self.old self.new items) }
        ensures cause { IfErr result (λ e. IsOutside (cause e)) }
        ensures memory { IfErr result (λ e. IsGranted (cause e) takes_memory) }
        ensures err { OnErr result (BreaksBegin stands_at out an_array self.old self.new items) };

    /// Begins a map of this many pairs; with `None` one of indefinite length. Each key is added
    /// before its value.
    fn begin_map(&mut self, pairs: Option<usize>) -> Result<(), Self::Error>
        requires { IsReady stands_at self.old }
        ensures ok { OnOk result (Begins stands_at a_map self.old self.new pairs) }
        ensures cause { IfErr result (λ e. IsOutside (cause e)) }
        ensures memory { IfErr result (λ e. IsGranted (cause e) takes_memory) }
        ensures err { OnErr result (BreaksBegin stands_at out a_map self.old self.new pairs) };

    /// Ends the innermost container, which was begun with this count.
    fn end(&mut self, count: Option<usize>) -> Result<(), Self::Error>
        requires { CanEnd stands_at self.old count }
        ensures ok { OnOk result (Ends stands_at self.old self.new count) }
        ensures cause { IfErr result (λ e. IsOutside (cause e)) }
        ensures memory { IfErr result (λ e. IsGranted (cause e) takes_memory) }
        ensures err { OnErr result (BreaksEnd stands_at out self.old self.new count) };

    /// The error of an implementation of `Serialize` whose value has no item.
    fn refuse(&self, kind: Kind) -> Self::Error
        ensures { cause result ≡ value kind };

    /// The error of an implementation of `Serialize` in which an allocation failed.
    fn memory(&self) -> Self::Error
        ensures { cause result ≡ memory };

    // Where the bytes are known, just those of the place are out.
    ghost shows: { (sink : Self) (p : Place) → stands_at sink p → IsOutAt (out sink) p };
}
