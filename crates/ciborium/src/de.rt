//! Bytes to values.

ghost use Rattle.std.specs.Prelude.{◌≡◌, IfErr, IfNone, IfSome, None, Ok, Some};
ghost use Rattle.ciborium_ll.specs.Decoding.{offset_of};
ghost use Rattle.ciborium_value.specs.Sources.{TakesOnly};
ghost use Rattle.ciborium.specs.Errors.{HasEndedBy};
ghost use Rattle.ciborium.specs.NextItems.{IfNotEnded, IsReadFrom, MatchItem, MovesOffset};
ghost use Rattle.ciborium.specs.NextItems.{ReadsNextAsType, ReadsNextAsTypeFrom, ReadsNextAt};
ghost use Rattle.ciborium.specs.NextItems.{ReadsNextAtFrom, behind_head};
ghost use Rattle.ciborium_value.specs.Spelling.{any};
ghost use Rattle.ciborium.specs.TypedAnswers.{ReadsAsType, ReadsAsTypeFrom};
ghost use Rattle.ciborium.specs.ValueAnswers.{TakesBytes};
ghost use Rattle.ciborium.specs.ValueClauses.{ReadsWhole};
ghost use Rattle.ciborium.specs.inner.ByteSources.{HasTakenSince};

mod buffered;
mod building;
mod byte_source;
mod deterministic;
mod error;
mod front;
mod held;
mod loading;
mod parts;
mod sequence;
mod slice;
mod spelling;
mod tags;

pub use buffered::{
    from_buf_reader, from_buf_reader_next, from_buf_reader_next_at,
    from_buf_reader_next_with_recursion_limit, from_buf_reader_with_recursion_limit,
};
use byte_source::ByteSource;
use ciborium_ll::{Access, Decoder, Header, Plain};
pub use ciborium_value::{
    Array, Deserialize, FieldPlace, FieldsEnd, Item, Key, Kind, Label, Labels, NoField,
    NoFieldTwice, NoItem, NoOtherField, SoughtLabel, Source, UniqueKeys, Wanted, WantedFields,
    WantedItems, found_or, read_fields, required,
};
pub use deterministic::{
    from_buf_reader_deterministic, from_buf_reader_deterministic_with_order,
    from_reader_deterministic, from_reader_deterministic_with_order,
};
pub use error::Error;
pub use loading::from_slice_deterministic;
pub use sequence::{read_buf_sequence, read_sequence};
pub use slice::{from_slice, from_slice_with_recursion_limit};
use std::alloc::Global;
use std::io::{self, Read};

/// The levels within which a value is read where no limit is named.
pub const RECURSION_LIMIT: usize = 256;

// The size of the scratch where none is passed.
const SCRATCH_SIZE: usize = 1024;

// Reads one value from a source, and puts the reader's error back.
#[inline(always)]
fn read_from<T: Deserialize, R, A: Access<R>>(
    alloc: Global,
    source: &mut ByteSource<'_, R, A>,
) -> Result<T, Error<io::Error>>
    ensures { IsReadFrom A.can_fail A.remaining T.reading source.old source.new result }
{
    match T::deserialize(alloc, source) {
        Ok(value) => Ok(value),
        Err(refusal) => Err(source.put_back(refusal)),
    }
}

// Reads one value from a source of its own, before which `offset` bytes stand.
fn read_at<T: Deserialize, R, A: Access<R>>(
    alloc: Global,
    reader: &mut R,
    offset: usize,
    scratch: &mut [u8],
    limit: usize,
) -> Result<T, Error<io::Error>>
    ensures reads { ReadsAsTypeFrom A.can_fail offset (Some limit) T.reading
        (A.remaining reader.old) (A.remaining reader.new) (TakesBytes any offset
        (A.remaining reader.old) limit (A.remaining reader.new)) result }
    ensures ended { IfSome T.reading.whole (λ _. IfErr result
        (λ e. HasEndedBy A.can_fail (A.remaining reader.new) e)) }
{
    let mut source = ByteSource {
        decoder: Decoder::<R, A>::begin(reader, offset),
        pending: None,
        levels: limit,
        scratch,
        failure: None,
    };
    read_from(alloc, &mut source)
}

// Reads one value from a source of its own.
fn read<T: Deserialize, R, A: Access<R>>(
    alloc: Global,
    reader: &mut R,
    scratch: &mut [u8],
    limit: usize,
) -> Result<T, Error<io::Error>>
    ensures reads { ReadsAsTypeFrom A.can_fail 0 (Some limit) T.reading (A.remaining reader.old)
        (A.remaining reader.new) (ReadsWhole any (A.remaining reader.old) limit
        (A.remaining reader.new)) result }
    ensures ended { IfSome T.reading.whole (λ _. IfErr result
        (λ e. HasEndedBy A.can_fail (A.remaining reader.new) e)) }
{
    read_at::<T, R, A>(alloc, reader, 0, scratch, limit)
}

/// Reads one value of any type that implements `Deserialize`: just the bytes of the item at the
/// front, in any well-formed encoding, indefinite lengths included (RFC 8949, section 3). The type
/// says what an item gives; it is the same from bytes and from a tree. A `Value` is read from
/// integers, texts, byte strings, booleans, null and undefined (both are `Null`), arrays, maps with
/// every pair in order, and tags; tag 2 or 3 over a definite byte string of at most 16 bytes is an
/// integer where that is in range (section 3.4.3). Arrays, maps and tags nest within 256 levels.
///
/// # Errors
///
/// `Io` where the reader ends or fails inside the item; `Syntax` with the offset of a head or text
/// that is not well-formed; `Semantic` with the reason why the item is not one of the type, and,
/// where a call of the source refused it, the offset of the head that it looked at, after skipped
/// tags (in a `Value` a float, a simple value that is not assigned, a break out of place, a bignum
/// that no `i128` holds); `RecursionLimitExceeded` where an array, map or tag stands where no level
/// is left; `TooLong` where the item would pass the greatest offset; `Memory` where an allocation
/// failed. A prefix of the bytes has then been taken from the reader: those that were looked at.
pub fn from_reader<T: Deserialize, R: Read>(
    alloc: Global,
    reader: &mut R,
) -> Result<T, Error<io::Error>>
    ensures { ReadsAsType 0 (Some 256) T.reading (R.remaining reader.old)
        (R.remaining reader.new) (ReadsWhole any (R.remaining reader.old) 256
        (R.remaining reader.new)) result }
{
    let mut scratch = [0u8; SCRATCH_SIZE];
    read::<T, R, Plain>(alloc, reader, &mut scratch, RECURSION_LIMIT)
}

/// Reads one value as `from_reader` does, with a scratch of the caller's for strings. It may have
/// any length, even 0: no result depends on it.
pub fn from_reader_with_buffer<T: Deserialize, R: Read>(
    alloc: Global,
    reader: &mut R,
    scratch: &mut [u8],
) -> Result<T, Error<io::Error>>
    ensures { ReadsAsType 0 (Some 256) T.reading (R.remaining reader.old)
        (R.remaining reader.new) (ReadsWhole any (R.remaining reader.old) 256
        (R.remaining reader.new)) result }
{
    read::<T, R, Plain>(alloc, reader, scratch, RECURSION_LIMIT)
}

/// Reads one value as `from_reader` does, within this many levels. At limit 0 no array, map or tag
/// is read as a `Value`, except tag 2 or 3 over a definite byte string of at most 16 bytes.
///
/// Reading a `Value` takes no stack for nested levels. But writing, cloning, comparing and dropping
/// a value recurse as deep as it nests, so choose a limit for which the caller's stack suffices.
pub fn from_reader_with_recursion_limit<T: Deserialize, R: Read>(
    alloc: Global,
    reader: &mut R,
    limit: usize,
) -> Result<T, Error<io::Error>>
    ensures { ReadsAsType 0 (Some limit) T.reading (R.remaining reader.old)
        (R.remaining reader.new) (ReadsWhole any (R.remaining reader.old) limit
        (R.remaining reader.new)) result }
{
    let mut scratch = [0u8; SCRATCH_SIZE];
    read::<T, R, Plain>(alloc, reader, &mut scratch, limit)
}

/// Reads one value as `from_reader_with_recursion_limit` does, but counts the bytes before it too:
/// offsets in errors count from the beginning of a file or stream in which `offset` bytes stand
/// before the item, and an item that would pass the greatest offset is `TooLong`.
///
/// # Errors
///
/// Those of `from_reader`.
pub fn from_reader_at<T: Deserialize, R: Read>(
    alloc: Global,
    reader: &mut R,
    offset: usize,
    limit: usize,
) -> Result<T, Error<io::Error>>
    ensures { ReadsAsType offset (Some limit) T.reading (R.remaining reader.old)
        (R.remaining reader.new) (TakesBytes any offset (R.remaining reader.old) limit
        (R.remaining reader.new)) result }
{
    let mut scratch = [0u8; SCRATCH_SIZE];
    read_at::<T, R, Plain>(alloc, reader, offset, &mut scratch, limit)
}

// Reads the item that a source's first head begins, at an offset, which is then that behind it; or
// answers the end where there is no head.
fn read_item<T: Deserialize, R, A: Access<R>>(
    alloc: Global,
    source: &mut ByteSource<'_, R, A>,
    first: Option<Header>,
    offset: &mut usize,
) -> Result<Option<T>, Error<io::Error>>
    ensures only { TakesOnly (HasTakenSince A.remaining) source.old source.new }
    ensures end { IfNone first
        ((result ≡ Ok None) × (source.new.decoder ≡ source.old.decoder)) }
    ensures item { IfSome first (λ header. IfNotEnded result (λ r. IsReadFrom A.can_fail
        A.remaining T.reading (behind_head source.old offset.old header) source.new r)) }
    ensures counted { MatchItem result (offset.new ≡ offset_of source.new.decoder)
        (offset.new ≡ offset.old) }
{
    let Some(header) = first else {
        return Ok(None);
    };
    source.pending = Some((header, *offset));
    let value = read_from(alloc, source)?;
    *offset = source.decoder.offset();
    Ok(Some(value))
}

// Reads the next item of a sequence from a source of its own, before which `*offset` bytes stand.
fn read_next_at<T: Deserialize, R, A: Access<R>>(
    alloc: Global,
    reader: &mut R,
    offset: &mut usize,
    scratch: &mut [u8],
    limit: usize,
) -> Result<Option<T>, Error<io::Error>>
    ensures next { ReadsNextAtFrom A.can_fail offset.old limit T.reading (A.remaining reader.old)
        (A.remaining reader.new) result }
    ensures moved { MovesOffset offset.old offset.new (A.remaining reader.old)
        (A.remaining reader.new) result }
{
    let begin = *offset;
    if begin == usize::MAX {
        // No head fits there.
        return Err(Error::TooLong);
    }
    let mut source = ByteSource {
        decoder: Decoder::<R, A>::begin(reader, begin),
        pending: None,
        levels: limit,
        scratch,
        failure: None,
    };
    let first = source.decoder.pull_first()?;
    read_item(alloc, &mut source, first, offset)
}

// Reads the next item of a sequence from a source of its own.
fn read_next<T: Deserialize, R, A: Access<R>>(
    alloc: Global,
    reader: &mut R,
    scratch: &mut [u8],
    limit: usize,
) -> Result<Option<T>, Error<io::Error>>
    ensures { ReadsNextAsTypeFrom A.can_fail limit T.reading (A.remaining reader.old)
        (A.remaining reader.new) result }
{
    let mut offset = 0;
    read_next_at::<T, R, A>(alloc, reader, &mut offset, scratch, limit)
}

/// Reads the next item of a CBOR sequence (RFC 8742, section 2) as `from_reader` reads a value, or
/// returns `None` where the sequence ends: exactly where the first read gives nothing. So a program
/// that reads item after item from a file or a socket can tell the end, `None`, from a sequence
/// that is cut short within an item, `Io`. Offsets count from the first byte that the call reads.
///
/// # Errors
///
/// Those of `from_reader`; a failure of the first read is `Io`, and so is an item that is cut
/// short, of kind `UnexpectedEof`. A prefix of the bytes has then been taken from the reader, as in
/// `from_reader`, and no byte where the first read failed.
pub fn from_reader_next<T: Deserialize, R: Read>(
    alloc: Global,
    reader: &mut R,
) -> Result<Option<T>, Error<io::Error>>
    ensures { ReadsNextAsType 256 T.reading (R.remaining reader.old) (R.remaining reader.new)
        result }
{
    from_reader_next_with_recursion_limit(alloc, reader, RECURSION_LIMIT)
}

/// Reads the next item as `from_reader_next` does, within this many levels.
///
/// # Errors
///
/// Those of `from_reader_next`, with `RecursionLimitExceeded` for this limit.
pub fn from_reader_next_with_recursion_limit<T: Deserialize, R: Read>(
    alloc: Global,
    reader: &mut R,
    recursion_limit: usize,
) -> Result<Option<T>, Error<io::Error>>
    ensures { ReadsNextAsType recursion_limit T.reading (R.remaining reader.old)
        (R.remaining reader.new) result }
{
    let mut scratch = [0u8; SCRATCH_SIZE];
    read_next::<T, R, Plain>(alloc, reader, &mut scratch, recursion_limit)
}

/// Reads the next item as `from_reader_next_with_recursion_limit` does, from a stream in which
/// `*offset` bytes stand before it. Behind an item `*offset` is where the next one begins: it has
/// grown by the bytes of the item, which are those that were taken. At the end, and at every error,
/// it stays. So it always says where the last whole item ended, for instance in order to cut a file
/// there. Offsets in errors count from the beginning of the stream.
///
/// # Errors
///
/// Those of `from_reader_next`, with `RecursionLimitExceeded` for this limit, and `TooLong` where
/// the item would pass the greatest offset. Where `*offset` is `usize::MAX` nothing is read, and
/// the answer is `TooLong` even if nothing is left. `Error::is_cut_short` tells whether the stream
/// ends within the item.
pub fn from_reader_next_at<T: Deserialize, R: Read>(
    alloc: Global,
    reader: &mut R,
    offset: &mut usize,
    limit: usize,
) -> Result<Option<T>, Error<io::Error>>
    ensures next { ReadsNextAt offset.old limit T.reading (R.remaining reader.old)
        (R.remaining reader.new) result }
    ensures moved { MovesOffset offset.old offset.new (R.remaining reader.old)
        (R.remaining reader.new) result }
{
    let mut scratch = [0u8; SCRATCH_SIZE];
    read_next_at::<T, R, Plain>(alloc, reader, offset, &mut scratch, limit)
}
