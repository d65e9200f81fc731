//! Values from slices.

ghost use Rattle.ciborium.specs.SliceAnswers.{ReadsAll};

use super::{Deserialize, Error, RECURSION_LIMIT, read};
use ciborium_ll::Slice;
use ciborium_value::Kind;
use std::alloc::Global;
use std::io;

/// Reads all of the bytes as one value of any type that implements `Deserialize`, as `from_reader`
/// reads the item at the front, within 256 levels. A slice does not fail, so the answer is `Ok`
/// exactly where the bytes are one item that gives a value, unless an allocation fails. To read
/// item after item from a slice, pass it to `from_buf_reader`.
///
/// # Errors
///
/// Those of `from_reader`; `Io` only where the bytes end inside the item; and `Semantic` with
/// `TrailingData` where bytes follow an item that gives a value, with the offset where they begin.
pub fn from_slice<T: Deserialize>(alloc: Global, bytes: &[u8]) -> Result<T, Error<io::Error>>
    ensures { ReadsAll 256 T.reading bytes.now result }
{
    from_slice_with_recursion_limit(alloc, bytes, RECURSION_LIMIT)
}

/// Reads all of the bytes as `from_slice` does, within this many levels.
///
/// # Errors
///
/// Those of `from_slice`, with `RecursionLimitExceeded` for this limit.
pub fn from_slice_with_recursion_limit<T: Deserialize>(
    alloc: Global,
    bytes: &[u8],
    limit: usize,
) -> Result<T, Error<io::Error>>
    ensures { ReadsAll limit T.reading bytes.now result }
{
    let size = bytes.len();
    let mut rest = bytes;
    let value = read::<T, &[u8], Slice>(alloc, &mut rest, &mut [0], limit)?;
    if rest.is_empty() {
        return Ok(value);
    }
    let end = size.saturating_sub(rest.len());
    Err(Error::Semantic(Some(end), Kind::TrailingData))
}
