//! Values from a reader with a buffer.

ghost use Rattle.std.specs.Prelude.{Some};
ghost use Rattle.ciborium.specs.NextItems.{MovesOffset, ReadsNextAsType, ReadsNextAt};
ghost use Rattle.ciborium_value.specs.Spelling.{any};
ghost use Rattle.ciborium.specs.TypedAnswers.{ReadsAsType};
ghost use Rattle.ciborium.specs.ValueClauses.{ReadsWhole};

use super::{Deserialize, Error, RECURSION_LIMIT, SCRATCH_SIZE, read, read_next, read_next_at};
use ciborium_ll::Buffered;
use std::alloc::Global;
use std::io::{self, BufRead};

/// Reads one value as `from_reader` does, from a reader with a buffer: what stands in the buffer is
/// read there, so this is the faster call for a file or a socket behind a `BufReader`, and for a
/// slice from which item after item is read. Just the item is taken.
///
/// # Errors
///
/// Those of `from_reader`.
pub fn from_buf_reader<T: Deserialize, R: BufRead>(
    alloc: Global,
    reader: &mut R,
) -> Result<T, Error<io::Error>>
    ensures { ReadsAsType 0 (Some 256) T.reading (R.remaining reader.old)
        (R.remaining reader.new) (ReadsWhole any (R.remaining reader.old) 256
        (R.remaining reader.new)) result }
{
    from_buf_reader_with_recursion_limit(alloc, reader, RECURSION_LIMIT)
}

/// Reads one value as `from_buf_reader` does, within this many levels.
///
/// # Errors
///
/// Those of `from_reader`, with `RecursionLimitExceeded` for this limit.
pub fn from_buf_reader_with_recursion_limit<T: Deserialize, R: BufRead>(
    alloc: Global,
    reader: &mut R,
    limit: usize,
) -> Result<T, Error<io::Error>>
    ensures { ReadsAsType 0 (Some limit) T.reading (R.remaining reader.old)
        (R.remaining reader.new) (ReadsWhole any (R.remaining reader.old) limit
        (R.remaining reader.new)) result }
{
    let mut scratch = [0u8; SCRATCH_SIZE];
    read::<T, R, Buffered>(alloc, reader, &mut scratch, limit)
}

/// Reads the next item of a CBOR sequence as `from_reader_next` does, from a reader with a buffer.
/// One that shows nothing where an item would begin is asked once more, and where it gives nothing
/// then the sequence has ended.
///
/// # Errors
///
/// Those of `from_reader_next`.
pub fn from_buf_reader_next<T: Deserialize, R: BufRead>(
    alloc: Global,
    reader: &mut R,
) -> Result<Option<T>, Error<io::Error>>
    ensures { ReadsNextAsType 256 T.reading (R.remaining reader.old) (R.remaining reader.new)
        result }
{
    from_buf_reader_next_with_recursion_limit(alloc, reader, RECURSION_LIMIT)
}

/// Reads the next item as `from_buf_reader_next` does, within this many levels.
///
/// # Errors
///
/// Those of `from_reader_next`, with `RecursionLimitExceeded` for this limit.
pub fn from_buf_reader_next_with_recursion_limit<T: Deserialize, R: BufRead>(
    alloc: Global,
    reader: &mut R,
    recursion_limit: usize,
) -> Result<Option<T>, Error<io::Error>>
    ensures { ReadsNextAsType recursion_limit T.reading (R.remaining reader.old)
        (R.remaining reader.new) result }
{
    let mut scratch = [0u8; SCRATCH_SIZE];
    read_next::<T, R, Buffered>(alloc, reader, &mut scratch, recursion_limit)
}

/// Reads the next item as `from_reader_next_at` does, from a reader with a buffer.
///
/// # Errors
///
/// Those of `from_reader_next_at`.
pub fn from_buf_reader_next_at<T: Deserialize, R: BufRead>(
    alloc: Global,
    reader: &mut R,
    offset: &mut usize,
    limit: usize,
) -> Result<Option<T>, Error<io::Error>>
    ensures next { ReadsNextAt offset.old limit T.reading (R.remaining reader.old)
        (R.remaining reader.new) result }
    ensures moved { MovesOffset offset.old offset.new (R.remaining reader.old)
        (R.remaining reader.new) result }
{
    let mut scratch = [0u8; SCRATCH_SIZE];
    read_next_at::<T, R, Buffered>(alloc, reader, offset, &mut scratch, limit)
}
