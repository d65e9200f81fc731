//! What is made of bytes where they stand.

ghost use Rattle.std.specs.Prelude.{List, ℕ};

/// What is made of the bytes of a payload where they stand, without a copy of them.
pub trait Visitor {
    /// What is made of them.
    type Value: Drop;

    // The value is one that is made of these bytes.
    ghost makes: { Self → List ℕ → Self.Value → Type 0 };

    /// Makes a value of these bytes.
    fn visit(&self, bytes: &[u8]) -> Self::Value
        ensures { makes self.now bytes.now result };
}
