//! Numbers.

ghost use Rattle.std.proofs.Common.{lit<};
ghost use Rattle.ciborium_value.specs.lemmas.ReadsBackNumbers.{signed-back, unsigned-back};
ghost use Rattle.std.specs.Prelude.{◌<◌, ◌^◌};
ghost use Rattle.ciborium_value.specs.Readings.{IsBounded};

use super::ReadsBack;

impl ReadsBack for u8 {
    ghost is_valid = { λ n. n < 2 ^ 8 };

    ghost levels = { λ n. 0 };

    ghost reads_back = { λ way plain. unsigned-back 8 (lit< tt) way };
}

impl ReadsBack for u16 {
    ghost is_valid = { λ n. n < 2 ^ 16 };

    ghost levels = { λ n. 0 };

    ghost reads_back = { λ way plain. unsigned-back 16 (lit< tt) way };
}

impl ReadsBack for u32 {
    ghost is_valid = { λ n. n < 2 ^ 32 };

    ghost levels = { λ n. 0 };

    ghost reads_back = { λ way plain. unsigned-back 32 (lit< tt) way };
}

impl ReadsBack for u64 {
    ghost is_valid = { λ n. n < 2 ^ 64 };

    ghost levels = { λ n. 0 };

    ghost reads_back = { λ way plain. unsigned-back 64 (lit< tt) way };
}

impl ReadsBack for u128 {
    ghost is_valid = { λ n. n < 2 ^ 128 };

    ghost levels = { λ n. 0 };

    ghost reads_back = { λ way plain. unsigned-back 128 (lit< tt) way };
}

impl ReadsBack for usize {
    ghost is_valid = { λ n. n < 2 ^ 64 };

    ghost levels = { λ n. 0 };

    ghost reads_back = { λ way plain. unsigned-back 64 (lit< tt) way };
}

impl ReadsBack for i8 {
    ghost is_valid = { IsBounded (2 ^ 7) };

    ghost levels = { λ n. 0 };

    ghost reads_back = { λ way plain. signed-back 7 (lit< tt) way };
}

impl ReadsBack for i16 {
    ghost is_valid = { IsBounded (2 ^ 15) };

    ghost levels = { λ n. 0 };

    ghost reads_back = { λ way plain. signed-back 15 (lit< tt) way };
}

impl ReadsBack for i32 {
    ghost is_valid = { IsBounded (2 ^ 31) };

    ghost levels = { λ n. 0 };

    ghost reads_back = { λ way plain. signed-back 31 (lit< tt) way };
}

impl ReadsBack for i64 {
    ghost is_valid = { IsBounded (2 ^ 63) };

    ghost levels = { λ n. 0 };

    ghost reads_back = { λ way plain. signed-back 63 (lit< tt) way };
}

impl ReadsBack for i128 {
    ghost is_valid = { IsBounded (2 ^ 127) };

    ghost levels = { λ n. 0 };

    ghost reads_back = { λ way plain. signed-back 127 (lit< tt) way };
}

impl ReadsBack for isize {
    ghost is_valid = { IsBounded (2 ^ 63) };

    ghost levels = { λ n. 0 };

    ghost reads_back = { λ way plain. signed-back 63 (lit< tt) way };
}
