//! Bytes to sequences of values (RFC 8742).

ghost use Rattle.std.specs.Prelude.{Some, map};
ghost use Rattle.ciborium_ll.specs.Accesses.{left_at_failure};
ghost use Rattle.ciborium_value.specs.View.{result_map};
ghost use Rattle.ciborium.specs.SequenceReads.{RefusesSequence, TakesSequence};
ghost use Rattle.ciborium.specs.TypedAnswers.{TakesBeginning};

use super::{Deserialize, Error, RECURSION_LIMIT, SCRATCH_SIZE, read_next};
use ciborium_ll::{Access, Buffered, Plain};
use std::alloc::Global;
use std::io::{self, BufRead, Read};

// Reads item after item until the reader gives nothing where one would begin.
fn read_items<T: Deserialize, R, A: Access<R>>(
    alloc: Global,
    reader: &mut R,
) -> Result<Vec<T>, Error<io::Error>>
    ensures ok { TakesSequence (Some 256) T.reading.taken (A.remaining reader.old)
        (A.remaining reader.new) (result_map (λ vs. map T.reading.content vs.items) result) }
    ensures refused { RefusesSequence (Some 256) T.reading.taken (A.remaining reader.old)
        (left_at_failure A.can_fail (A.remaining reader.new))
        (result_map (λ vs. map T.reading.content vs.items) result) }
    ensures taken { TakesBeginning (A.remaining reader.old) (A.remaining reader.new) }
{
    let mut scratch = [0u8; SCRATCH_SIZE];
    let mut items = Vec::new(alloc);
    for _ in 0..u64::MAX {
        let next = read_next::<T, R, A>(alloc, reader, &mut scratch, RECURSION_LIMIT);
        let Some(item) = next? else {
            return Ok(items);
        };
        items.push(item)?;
    }
    // No list holds so many.
    Err(Error::Memory)
}

/// Reads all the items of a CBOR sequence (RFC 8742, section 2), one after the other as
/// `from_reader_next` does, until the reader gives nothing where an item would begin. Where there
/// are no bytes the list is empty. All values are held in memory at once, and nothing is reserved
/// ahead: to hold one at a time, read item after item with `from_reader_next`.
///
/// # Errors
///
/// Those of `from_reader_next` for the first item that is refused: `Io` where the reader ends or
/// fails inside it, or fails before it; otherwise `Syntax`, `Semantic`, `RecursionLimitExceeded`,
/// `TooLong` or `Memory`. Offsets count from the first byte of that item. `Memory` also comes where
/// an allocation for the list failed. What was read before is dropped, and bytes up to and inside
/// that item have been taken from the reader, as `from_reader` says, so that the reader does not
/// stand where an item begins.
pub fn read_sequence<T: Deserialize, R: Read>(
    alloc: Global,
    reader: &mut R,
) -> Result<Vec<T>, Error<io::Error>>
    // All of the known bytes were a sequence that gives the values, and none are left.
    ensures ok { TakesSequence (Some 256) T.reading.taken (R.remaining reader.old)
        (R.remaining reader.new) (result_map (λ vs. map T.reading.content vs.items) result) }
    // Behind items that give values, the next one is refused as it is.
    ensures refused { RefusesSequence (Some 256) T.reading.taken (R.remaining reader.old)
        (R.remaining reader.new) (result_map (λ vs. map T.reading.content vs.items) result) }
    // Refused or not, a prefix of what was there was taken, and nothing else.
    ensures taken { TakesBeginning (R.remaining reader.old) (R.remaining reader.new) }
{
    read_items::<T, R, Plain>(alloc, reader)
}

/// Reads all the items of a CBOR sequence as `read_sequence` does, from a reader with a buffer.
///
/// # Errors
///
/// Those of `read_sequence`.
pub fn read_buf_sequence<T: Deserialize, R: BufRead>(
    alloc: Global,
    reader: &mut R,
) -> Result<Vec<T>, Error<io::Error>>
    // The same as of `read_sequence`.
    ensures ok { TakesSequence (Some 256) T.reading.taken (R.remaining reader.old)
        (R.remaining reader.new) (result_map (λ vs. map T.reading.content vs.items) result) }
    ensures refused { RefusesSequence (Some 256) T.reading.taken (R.remaining reader.old)
        (R.remaining reader.new) (result_map (λ vs. map T.reading.content vs.items) result) }
    ensures taken { TakesBeginning (R.remaining reader.old) (R.remaining reader.new) }
{
    read_items::<T, R, Buffered>(alloc, reader)
}
