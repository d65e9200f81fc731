//! Labels, by which the fields of a struct stand in a map.

ghost use Rattle.std.specs.Int.{complement_if};
ghost use Rattle.std.specs.Prelude.{◌≡◌, refl};
ghost use Rattle.ciborium_value.specs.Labels as labels;
ghost use Rattle.ciborium_value.specs.Labels.{is_label, label_item, named, numbered, other};

use crate::serialize::Serialize;
use ciborium_ll::Integer;

/// How the key of a map is read as a label.
#[derive(Clone, Copy)]
pub enum LabelType {
    /// A text, or a byte string that is UTF-8, or what stands under a tag, which is skipped.
    Name,
    /// An integer, or what stands under the tag of a bignum.
    Number,
    /// Any other item.
    Other,
}

/// Labels that are looked for.
pub trait Labels {
    /// Which of them a label is, or that it is none of them.
    type Place: Drop;

    // The place of a label.
    ghost place_of: { Self → labels.Label → Self.Place };

    /// The place of this name.
    fn find_name(&self, name: &str) -> Self::Place
        ensures { result ≡ place_of self.now (named name.now) };

    /// The place of the number n, or -1 - n where it is negative.
    fn find_number(&self, negative: bool, n: u128) -> Self::Place
        ensures { result ≡ place_of self.now (numbered (complement_if negative n)) };

    /// The place of a key that is neither.
    fn find_other(&self) -> Self::Place
        ensures { result ≡ place_of self.now other };
}

/// The label of a field that is read: a text, or a number.
pub trait SoughtLabel: Drop {
    ghost label: { Self → labels.Label };

    /// Whether it is this name.
    fn is_name(&self, name: &str) -> bool
        ensures { result ≡ is_label (named name.now) (label self.now) };

    /// Whether it is the number n, or -1 - n where it is negative.
    fn is_number(&self, negative: bool, n: u128) -> bool
        ensures { result ≡ is_label (numbered (complement_if negative n)) (label self.now) };
}

/// The label of a field that is written too.
pub trait Label: SoughtLabel + Serialize {
    // It is written as the label.
    ghost is_written: { (l : Self) → Self.written l ≡ label_item (Self.label l) };

    ghost takes_none: { Self.takes_memory → ⊥ };
}

impl SoughtLabel for &str {
    ghost label = { λ s. named s.now };

    fn is_name(&self, name: &str) -> bool {
        name == *self
    }

    fn is_number(&self, _negative: bool, _n: u128) -> bool {
        false
    }
}

impl Label for &str {
    ghost is_written = { λ s. refl };

    ghost takes_none = { λ never. never };
}

impl SoughtLabel for Integer {
    ghost label = { λ z. numbered z };

    fn is_name(&self, _name: &str) -> bool {
        false
    }

    #[tactic(auto, using(crate::proofs::LabelNumbers::int_eq_parts))]
    fn is_number(&self, negative: bool, n: u128) -> bool {
        let (is_negative, argument) = self.head();
        negative == is_negative && n == u128::from(argument)
    }
}

impl SoughtLabel for i64 {
    ghost label = { λ z. numbered z };

    fn is_name(&self, _name: &str) -> bool {
        false
    }

    fn is_number(&self, negative: bool, n: u128) -> bool {
        Integer::from(*self).is_number(negative, n)
    }
}

impl Label for i64 {
    ghost is_written = { λ z. refl };

    ghost takes_none = { λ never. never };
}
