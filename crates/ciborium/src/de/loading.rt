//! Values from slices that are their one deterministic encoding.

ghost use Rattle.std.specs.Prelude.{◌≡◌, ℕ, IfErr, IfOk, MatchOption, Some, take};
ghost use Rattle.ciborium_value.specs.Encoding.{encoding};
ghost use Rattle.ciborium.specs.DeterministicWrites.{HasForm, named_form};
ghost use Rattle.ciborium.specs.LoadedAnswers.{AreFormOf, DifferAt, LoadsAll, RefusesOther};
ghost use Rattle.ciborium.specs.LoadedAnswers.{RefusesSpelling};

use super::deterministic::read_in_order;
use super::{Deserialize, Error, from_slice_with_recursion_limit};
use crate::ser::{self, Serialize, into_writer_deterministic};
use ciborium_ll::Slice;
use ciborium_value::{KeyOrder, Kind};
use std::alloc::Global;
use std::io::{self, ErrorKind, Write};

/// Reads all of the bytes as one value of any type, within this many levels, and accepts them only
/// where they are the one deterministic encoding (RFC 8949, section 4.2) of what the value writes,
/// by this order of keys: what `into_writer_deterministic` writes of it. So nothing else stands in
/// the bytes, no two byte strings are loaded as equal contents, and what was loaded can be
/// compared, hashed or signed as bytes.
///
/// # Errors
///
/// Those of `from_slice_with_recursion_limit`. Where the bytes give a value, `Semantic` with
/// `NotShortest`, `Open`, `NotFolded` or `KeyOrder`, as `from_reader_deterministic_with_order` has
/// them, or another refusal of that call, where the bytes are no deterministic encoding at all; and
/// with `NotDeterministic`, and the offset of the first byte that differs, where they are that of
/// another value: fields in another order, one that the type does not know, a tag that it does not
/// write. `Semantic` without an offset holds the kind for which the value has no deterministic
/// encoding. `Memory` comes where an allocation failed.
pub fn from_slice_deterministic<T: Deserialize + Serialize>(
    alloc: Global,
    bytes: &[u8],
    order: KeyOrder,
    limit: usize,
) -> Result<T, Error<io::Error>>
    ensures { LoadsAll order limit T.reading T.written bytes.now result }
{
    let value = from_slice_with_recursion_limit::<T>(alloc, bytes, limit)?;
    match find_difference(alloc, &value, order, bytes) {
        Ok(None) => Ok(value),
        Ok(Some(at)) => Err(refuse_other(alloc, bytes, order, limit, at)),
        Err(error) => Err(error),
    }
}

// Takes just these bytes, in order, and nothing else.
#[derive(Drop)]
struct Expected<'a> {
    bytes: &'a [u8],
    // How many of them were written.
    written: usize,
}

impl<'a> Write for Expected<'a> {
    ghost contents = { λ w. Some (take w.written w.bytes.now) };

    fn write(&mut self, buf: &[u8]) -> io::Result<usize> {
        match self.bytes.get(self.written..) {
            Some(rest) if rest.starts_with(buf) => {
                self.written += buf.len();
                Ok(buf.len())
            }
            _ => Err(io::Error::from(ErrorKind::InvalidData)),
        }
    }

    fn flush(&mut self) -> io::Result<()> {
        Ok(())
    }
}

// Where the bytes first differ from the encoding of the form of what a value names.
fn find_difference<T: Serialize>(
    alloc: Global,
    value: &T,
    order: KeyOrder,
    bytes: &[u8],
) -> Result<Option<usize>, Error<io::Error>>
    ensures ok { IfOk result (λ at. MatchOption at (AreFormOf order bytes.now (T.written value.now))
        (λ k. HasForm (named_form order (T.written value.now))
        (λ t. DifferAt bytes.now (encoding t) k))) }
    ensures refused { IfErr result
        (λ e. (l : ℕ) → RefusesOther order l bytes.now (T.written value.now) e) }
{
    let mut expected = Expected { bytes, written: 0 };
    let outcome = into_writer_deterministic(alloc, value, order, &mut expected);
    // That the writer still holds these bytes, no clause of `Write` says.
    if outcome.is_ok() && expected.written == bytes.len() && expected.bytes == bytes {
        return Ok(None);
    }
    compare(alloc, value, order, bytes)
}

// The same, where the encoding is made first.
fn compare<T: Serialize>(
    alloc: Global,
    value: &T,
    order: KeyOrder,
    bytes: &[u8],
) -> Result<Option<usize>, Error<io::Error>>
    ensures ok { IfOk result (λ at. MatchOption at (AreFormOf order bytes.now (T.written value.now))
        (λ k. HasForm (named_form order (T.written value.now))
        (λ t. DifferAt bytes.now (encoding t) k))) }
    ensures refused { IfErr result
        (λ e. (l : ℕ) → RefusesOther order l bytes.now (T.written value.now) e) }
{
    let mut encoded = Vec::new(alloc);
    match into_writer_deterministic(alloc, value, order, &mut encoded) {
        Ok(()) => Ok(first_difference(bytes, &encoded)),
        Err(ser::Error::Value(kind)) => Err(Error::Semantic(None, kind)),
        // A list fails to grow only where an allocation fails.
        Err(ser::Error::Io(_) | ser::Error::Memory) => Err(Error::Memory),
    }
}

// Where two byte strings first differ.
fn first_difference(left: &[u8], right: &[u8]) -> Option<usize>
    ensures { MatchOption result (left.now ≡ right.now) (DifferAt left.now right.now) }
{
    let mut at = 0;
    while at < left.len() && at < right.len() {
        if left[at] != right[at] {
            return Some(at);
        }
        at += 1;
    }
    if left.len() == right.len() {
        None
    } else {
        Some(at)
    }
}

// Why bytes are refused that first differ at this offset from the encoding that is due.
fn refuse_other(
    alloc: Global,
    bytes: &[u8],
    order: KeyOrder,
    limit: usize,
    at: usize,
) -> Error<io::Error>
    ensures { RefusesSpelling order limit bytes.now at result }
{
    let mut rest = bytes;
    let answer = read_in_order::<&[u8], Slice>(alloc, &mut rest, limit, order);
    if let Err(Error::Semantic(Some(offset), kind)) = answer {
        return Error::Semantic(Some(offset), kind);
    }
    Error::Semantic(Some(at), Kind::NotDeterministic)
}
