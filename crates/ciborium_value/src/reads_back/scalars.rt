//! Booleans, null, characters and strings.

ghost use Rattle.std.specs.Char.{IsScalar};
ghost use Rattle.ciborium_value.specs.ReadsBack.{boolean-back, bytes-back, character-back};
ghost use Rattle.ciborium_value.specs.ReadsBack.{string_back, unit-back};

use super::ReadsBack;
use crate::byte_buf::ByteBuf;

impl ReadsBack for () {
    ghost is_valid = { λ u. Unit {0} };

    ghost levels = { λ u. 0 };

    ghost reads_back = { λ way plain. unit-back way };
}

impl ReadsBack for bool {
    ghost is_valid = { λ b. Unit {0} };

    ghost levels = { λ b. 0 };

    ghost reads_back = { λ way plain. boolean-back way };
}

impl ReadsBack for char {
    ghost is_valid = { IsScalar };

    ghost levels = { λ c. 0 };

    ghost reads_back = { λ way plain. character-back way };
}

impl ReadsBack for String {
    ghost is_valid = { λ s. Unit {0} };

    ghost levels = { λ s. 0 };

    ghost reads_back = { λ way plain. string_back way };
}

impl ReadsBack for ByteBuf {
    ghost is_valid = { λ b. Unit {0} };

    ghost levels = { λ b. 0 };

    ghost reads_back = { λ way plain. bytes-back (λ b. b.0.items) way };
}
