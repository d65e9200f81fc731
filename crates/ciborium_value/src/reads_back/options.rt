//! Options of what is never written as null.

ghost use Rattle.std.specs.Prelude.{IfSome};
ghost use Rattle.ciborium_value.specs.lemmas.ReadsBackOptions.{option-back, option_levels};

use super::{NeverWrites, Null, ReadsBack};

/// `None` takes no level, `Some` those of the content.
impl<T: ReadsBack + NeverWrites<Null>> ReadsBack for Option<T> {
    ghost is_valid = { λ o. IfSome o T.is_valid };

    ghost levels = { option_levels T.levels };

    ghost reads_back = { λ way plain. option-back (T.reads_back way plain) T.never };
}
