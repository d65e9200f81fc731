//! Lists and tuples.

ghost use Rattle.std.specs.List.{All};
ghost use Rattle.std.specs.Prelude.{max, suc};
ghost use Rattle.ciborium_value.specs.lemmas.ReadsBackParts.{greatest, list-back, tuple1-back};
ghost use Rattle.ciborium_value.specs.lemmas.ReadsBackParts.{tuple2-back, tuple3-back, tuple4-back};

use super::ReadsBack;

/// An empty list takes one level too.
impl<T: ReadsBack> ReadsBack for Vec<T> {
    ghost is_valid = { λ v. All T.is_valid v.items };

    ghost levels = { λ v. suc (greatest T.levels v.items) };

    ghost reads_back = { λ way plain v valid. list-back (T.reads_back way plain) v.items valid };
}

impl<A: ReadsBack> ReadsBack for (A,) {
    ghost is_valid = { λ t. A.is_valid t.0 };

    ghost levels = { λ t. suc (A.levels t.0) };

    ghost reads_back = { λ way plain t valid. tuple1-back (A.reads_back way plain t.0 valid) };
}

impl<A: ReadsBack, B: ReadsBack> ReadsBack for (A, B) {
    ghost is_valid = { λ t. A.is_valid t.0 × B.is_valid t.1 };

    ghost levels = { λ t. suc (max (A.levels t.0) (B.levels t.1)) };

    ghost reads_back = { λ way plain t valid. tuple2-back
        (A.reads_back way plain t.0 valid.0) (B.reads_back way plain t.1 valid.1) };
}

impl<A: ReadsBack, B: ReadsBack, C: ReadsBack> ReadsBack for (A, B, C) {
    ghost is_valid = { λ t. A.is_valid t.0 × B.is_valid t.1 × C.is_valid t.2 };

    ghost levels = { λ t. suc (max (A.levels t.0) (max (B.levels t.1) (C.levels t.2))) };

    ghost reads_back = { λ way plain t valid. tuple3-back
        (A.reads_back way plain t.0 valid.0) (B.reads_back way plain t.1 valid.1)
        (C.reads_back way plain t.2 valid.2) };
}

impl<A: ReadsBack, B: ReadsBack, C: ReadsBack, D: ReadsBack> ReadsBack for (A, B, C, D) {
    ghost is_valid = { λ t. A.is_valid t.0 × B.is_valid t.1 × C.is_valid t.2 × D.is_valid t.3 };

    ghost levels = { λ t. suc
        (max (A.levels t.0) (max (B.levels t.1) (max (C.levels t.2) (D.levels t.3)))) };

    ghost reads_back = { λ way plain t valid. tuple4-back
        (A.reads_back way plain t.0 valid.0) (B.reads_back way plain t.1 valid.1)
        (C.reads_back way plain t.2 valid.2) (D.reads_back way plain t.3 valid.3) };
}
