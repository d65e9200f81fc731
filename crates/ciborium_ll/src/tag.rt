//! The tags of bignums (RFC 8949, section 3.4.3).

ghost use Rattle.std.specs.Prelude.{◌≡◌, ◌==◌, ◌||◌};

/// An unsigned bignum: the number of its bytes.
pub const BIGPOS: u64 = 2;

/// A negative bignum: -1 - n, where n is the number of its bytes.
pub const BIGNEG: u64 = 3;

/// Whether a tag is one of these two.
#[inline(always)]
pub fn is_bignum(tag: u64) -> bool
    ensures { result ≡ ((tag == 2) || (tag == 3)) }
{
    tag == BIGPOS || tag == BIGNEG
}
