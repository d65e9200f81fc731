//! What a head alone makes.

ghost use Rattle.std.specs.Prelude.{◌≡◌, MatchOption, false};
ghost use Rattle.ciborium_value.specs.View.{tree_of};
ghost use Rattle.ciborium_value.specs.Given.{is_null_simple};
ghost use Rattle.ciborium.specs.inner.ByteSources.{MeansTree, is_portable, tells_null};

use ciborium_ll::{Header, simple};
use ciborium_value::{Integer, Value};

/// Whether a simple value is null or undefined.
#[inline(always)]
pub(crate) fn is_null(number: u8) -> bool
    ensures { result ≡ is_null_simple number }
{
    number == simple::NULL || number == simple::UNDEFINED
}

/// Whether a head is that of null or undefined.
#[inline(always)]
pub(crate) fn is_null_head(header: &Header) -> bool
    ensures { result ≡ tells_null header.now }
{
    match header {
        Header::Simple(number) => is_null(*number),
        _ => false,
    }
}

/// The value of a head that means the same wherever it stands.
pub(crate) fn portable_value(header: Header) -> Option<Value>
    ensures { MatchOption result (is_portable header ≡ false)
        (λ v. MeansTree header (tree_of v)) }
{
    match header {
        Header::Positive(n) => Some(Value::Integer(Integer::from(n))),
        Header::Simple(number) => {
            if is_null(number) {
                return Some(Value::Null);
            }
            None
        }
        _ => None,
    }
}
