//! The whole numbers that CBOR's major types 0 and 1 hold (RFC 8949, section 3.1).

ghost use Rattle.std.specs.Prelude.{◌≡◌, Some, ℤ};
ghost use Rattle.ciborium_ll.specs.Integer.{IsInRange};
ghost use Rattle.ciborium_ll.specs.HeadMessages.{range_message};

mod widths;

use crate::header::head_size;
use std::cmp::Ordering;
use std::marker::Model;
use std::{error, fmt};

/// A whole number from -2^64 to 2^64 - 1 (RFC 8949, section 3.1). Its order is that of numbers.
#[derive(Clone, Copy, Debug, PartialEq, Eq, PartialOrd, Ord, Hash)]
pub struct Integer {
    number: i128,
}

impl Model for Integer {
    ghost Value = { ℤ };

    ghost view = { λ i. i.number };

    ghost invariant = { λ i. IsInRange i.number };

    ghost inverse = { λ z. record { number = z } };
}

/// The error where the target type does not hold the number.
#[derive(Clone, Copy, Debug, PartialEq, Eq)]
pub struct OutOfRange;

impl fmt::Display for OutOfRange {
    ghost output = { λ _. Some range_message };

    fn fmt<W: fmt::Write>(&self, f: &mut fmt::Formatter<W>) -> fmt::Result {
        f.write_str("an integer out of the type's range")
    }
}

impl error::Error for OutOfRange {}

impl Integer {
    ghost use Rattle.std.specs.Int.{complement_if};
    ghost use Rattle.ciborium_ll.specs.Integer.{integer_order};

    const LEAST: i128 = -(1 << 64);

    const GREATEST: i128 = (1 << 64) - 1;

    /// The order of map keys: the shorter encoding first, and of two of equal length the bytewise
    /// lower one (RFC 8949, section 4.2.3; RFC 7049, section 3.9). It takes no memory.
    pub fn canonical_cmp(&self, other: &Integer) -> Ordering
        ensures { result ≡ integer_order self.now other.now }
    {
        let (negative, argument) = self.head();
        let (other_negative, other_argument) = other.head();
        head_size(argument)
            .cmp(&head_size(other_argument))
            .then(negative.cmp(&other_negative))
            .then(argument.cmp(&other_argument))
    }

    /// Whether the number is negative, and the argument of its head: n for the number n, of major
    /// type 0, and n for the number -1 - n, of major type 1 (RFC 8949, section 3.1).
    #[inline(always)]
    pub fn head(self) -> (bool, u64)
        ensures { complement_if result.0 result.1 ≡ self }
    {
        if self.number < 0 {
            (true, (-1 - self.number) as u64)
        } else {
            (false, self.number as u64)
        }
    }

    /// The number whose head has this argument n: n itself, or where it is negative -1 - n.
    #[inline(always)]
    pub fn from_head(negative: bool, argument: u64) -> Integer
        ensures { result ≡ complement_if negative argument }
    {
        let number = argument as i128;
        Integer {
            number: if negative { -1 - number } else { number },
        }
    }
}
