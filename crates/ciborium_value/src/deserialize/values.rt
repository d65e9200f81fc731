//! The item ahead, of any type.

ghost use Rattle.ciborium_value.specs.lemmas.DerivedOrder.{value_cmp-is};
ghost use Rattle.ciborium_value.specs.Readings.{whole_of};
ghost use Rattle.ciborium_value.specs.Tree.{Tree};
ghost use Rattle.ciborium_value.specs.View.{tree_of};

use super::{Deserialize, Key};
use crate::source::Source;
use crate::tree::Value;
use std::alloc::Global;

/// The item ahead, of any type, with its bignums folded. It is refused as `Float` or `Simple` where
/// it holds a float or a simple value that is not assigned, and as `TooLarge` where a bignum is too
/// great (RFC 8949, section 3.4.3).
impl Deserialize for Value {
    ghost Content = { Tree };

    ghost reading = { whole_of tree_of };

    #[inline(always)]
    fn deserialize<S: Source>(alloc: Global, source: &mut S) -> Result<Value, S::Error> {
        source.value(alloc)
    }
}

impl Key for Value {
    ghost orders = { value_cmp-is };
}
