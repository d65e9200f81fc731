//! The laws of described types.

ghost use Rattle.ciborium_value.specs.ReadsBack.{by_form};

use super::{Avoidable, FormReadsBack, NeverWrites, ReadsBack, WritesContent};
use crate::described::AsDescribed;

impl<T: AsDescribed> ReadsBack for T {
    ghost is_valid = { T.description.is_valid };

    ghost levels = { T.description.levels };

    ghost reads_back = { λ way plain. T.as_described.reads_back way };
}

impl<T: AsDescribed> FormReadsBack for T {
    ghost form_reads_back = { λ o. T.as_described.reads_back (by_form o) };
}

impl<T: AsDescribed> WritesContent for T {
    ghost writes_content = { T.as_described.writes_content };
}

impl<T: AsDescribed, I: Avoidable> NeverWrites<I> for T {
    ghost never = { T.as_described.never I.avoided };
}
