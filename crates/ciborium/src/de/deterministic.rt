//! Reading the deterministic encoding alone (RFC 8949, section 4.2), by either order of keys.

ghost use Rattle.std.specs.Prelude.{◌≡◌, ℕ};
ghost use Rattle.std.specs.declared.cmp.Ordering.TheVariants.{Less};
ghost use Rattle.ciborium_value.specs.View.{result_map, tree_of};
ghost use Rattle.ciborium_value.specs.declared.key_order.KeyOrder.TheVariants as orders;
ghost use Rattle.ciborium.specs.ValueClauses.{ReadsWhole};
ghost use Rattle.ciborium.specs.inner.Rules.{counted_fault};
ghost use Rattle.ciborium_value.specs.Spelling.{deterministic};
ghost use Rattle.ciborium.specs.inner.Rules.{long_fault};

use crate::de::SCRATCH_SIZE;
use crate::de::building::read_value;
use crate::de::error::{Error, put_back};
use crate::de::spelling::Rules;
use crate::value::canonical::{Bytewise, EncodingOrder, LengthFirst, cmp_keys, encoded_size};
use ciborium_ll::{Access, Buffered, Decoder, Header, Plain, head_size, simple};
use ciborium_value::stack::Stack;
use ciborium_value::{KeyOrder, Kind, Value};
use std::alloc::Global;
use std::cmp::Ordering;
use std::io::{self, BufRead, Read};
use std::marker::PhantomData;

// The number of bytes up to which a bignum is a number of 64 bits.
const GREATEST_INTEGER_SIZE: usize = 8;

// Why a head of `size` bytes with this argument is not accepted.
#[inline(always)]
fn find_long_fault(argument: u64, size: usize) -> Option<Kind>
    ensures { (major : ℕ) → result ≡ long_fault major argument size }
{
    if size as u64 == head_size(argument) {
        None
    } else {
        Some(Kind::NotShortest)
    }
}

// The same of a head with a length or count, or without one.
#[inline(always)]
fn find_counted_fault(count: Option<usize>, size: usize) -> Option<Kind>
    ensures { (major : ℕ) → result ≡ counted_fault major count size }
{
    match count {
        Some(n) => find_long_fault(n as u64, size),
        None => Some(Kind::Open),
    }
}

// ---- the rules

// The shortest heads, definite lengths, and keys that rise in the order that `O` names.
struct Deterministic<O> {
    order: PhantomData<O>,
}

impl<O: EncodingOrder> Rules for Deterministic<O> {
    ghost spelling = { deterministic O.order };

    #[inline(always)]
    fn find_head_fault(header: Header, size: usize) -> Option<Kind> {
        match header {
            Header::Positive(n) | Header::Negative(n) | Header::Tag(n) => find_long_fault(n, size),
            Header::Bytes(count)
            | Header::Text(count)
            | Header::Array(count)
            | Header::Map(count) => find_counted_fault(count, size),
            Header::Simple(simple::UNDEFINED) => Some(Kind::NotShortest),
            Header::Simple(_) | Header::Float(_) | Header::Break => None,
        }
    }

    #[inline(always)]
    fn refuses_bignum(payload: &[u8]) -> bool {
        payload.len() <= GREATEST_INTEGER_SIZE || payload[0] == 0
    }

    #[inline(always)]
    fn find_disorder(stack: &Stack, end: usize) -> Option<usize> {
        let (before, key) = stack.waiting_keys()?;
        if cmp_keys(O::order(), before, key) == Ordering::Less {
            return None;
        }
        Some(end.saturating_sub(encoded_size(key) as usize))
    }
}

// ---- the calls

// Reads one value by these rules, within this many levels.
fn read_by<S: Rules, R, A: Access<R>>(
    alloc: Global,
    reader: &mut R,
    limit: usize,
) -> Result<Value, Error<io::Error>>
    ensures { ReadsWhole S.spelling (A.remaining reader.old) limit
        (A.remaining reader.new) (result_map tree_of result) }
{
    let mut scratch = [0u8; SCRATCH_SIZE];
    let mut decoder = Decoder::<R, A>::begin(reader, 0);
    let mut failure = None;
    match read_value::<S, R, A>(alloc, &mut decoder, &mut scratch, limit, &mut failure) {
        Ok(value) => Ok(value),
        Err(refusal) => Err(put_back(refusal, failure)),
    }
}

// Reads one value deterministically, with keys in this order.
pub(super) fn read_in_order<R, A: Access<R>>(
    alloc: Global,
    reader: &mut R,
    limit: usize,
    order: KeyOrder,
) -> Result<Value, Error<io::Error>>
    ensures { ReadsWhole (deterministic order) (A.remaining reader.old) limit
        (A.remaining reader.new) (result_map tree_of result) }
{
    match order {
        KeyOrder::LengthFirst => read_by::<Deterministic<LengthFirst>, R, A>(alloc, reader, limit),
        KeyOrder::Bytewise => read_by::<Deterministic<Bytewise>, R, A>(alloc, reader, limit),
    }
}

/// Reads one value as `from_reader_with_recursion_limit` does, but accepts only one encoding of
/// each value, the deterministic one (RFC 8949, section 4.2): every head is the shortest, every
/// string, array and map has a definite length, null is `f6`, a bignum of at most 16 bytes has no
/// leading zeros and does not fit in 64 bits, and the keys of each map strictly rise in the
/// canonical order (section 4.2.3). It is what `into_writer` writes for the value. Comparing keys
/// takes no memory.
///
/// # Errors
///
/// Those of `from_reader`, in the order of the bytes, and `Semantic` with the following kinds.
/// `Open`, with the offset of the head, for a string, array or map of indefinite length, and
/// `NotShortest`, likewise, for a head that is longer than need be, and for undefined; both come
/// before the limit and any payload are judged. `NotFolded`, with the offset of the tag, for a
/// bignum of at most 16 bytes that has leading zeros or at most 8 bytes. `KeyOrder`, with the
/// offset of the key, for a key that does not follow the key before it; it comes before the key's
/// value is read.
pub fn from_reader_deterministic<R: Read>(
    alloc: Global,
    reader: &mut R,
    limit: usize,
) -> Result<Value, Error<io::Error>>
    ensures { ReadsWhole (deterministic orders.LengthFirst) (R.remaining reader.old) limit
        (R.remaining reader.new) (result_map tree_of result) }
{
    read_by::<Deterministic<LengthFirst>, R, Plain>(alloc, reader, limit)
}

/// Reads one value as `from_reader_deterministic` does, with the keys of each map in the given
/// order. By `KeyOrder::LengthFirst` it is the same call: the key with the shorter encoding comes
/// first, and of two of equal length the bytewise lower one (RFC 8949, section 4.2.3). By
/// `KeyOrder::Bytewise` the key with the bytewise lower encoding comes first, whatever the lengths,
/// as in the core deterministic encoding (section 4.2.1). In either order no key of a map is equal
/// to another, and all else is the same: every head is the shortest, every string, array and map
/// has a definite length, null is `f6`, and a bignum of at most 16 bytes has no leading zeros and
/// does not fit in 64 bits. What is read is what `into_writer` writes for the value, since that
/// keeps the order of the pairs. Comparing keys takes no memory.
///
/// # Errors
///
/// Those of `from_reader_deterministic`; `KeyOrder`, with the offset of the key, for a key that
/// does not follow the key before it in the given order, before the key's value is read.
pub fn from_reader_deterministic_with_order<R: Read>(
    alloc: Global,
    reader: &mut R,
    limit: usize,
    order: KeyOrder,
) -> Result<Value, Error<io::Error>>
    ensures { ReadsWhole (deterministic order) (R.remaining reader.old) limit
        (R.remaining reader.new) (result_map tree_of result) }
{
    read_in_order::<R, Plain>(alloc, reader, limit, order)
}

/// Reads one value as `from_reader_deterministic` does, from a reader with a buffer.
///
/// # Errors
///
/// Those of `from_reader_deterministic`.
pub fn from_buf_reader_deterministic<R: BufRead>(
    alloc: Global,
    reader: &mut R,
    limit: usize,
) -> Result<Value, Error<io::Error>>
    ensures { ReadsWhole (deterministic orders.LengthFirst) (R.remaining reader.old) limit
        (R.remaining reader.new) (result_map tree_of result) }
{
    read_by::<Deterministic<LengthFirst>, R, Buffered>(alloc, reader, limit)
}

/// Reads one value as `from_reader_deterministic_with_order` does, from a reader with a buffer.
///
/// # Errors
///
/// Those of `from_reader_deterministic_with_order`.
pub fn from_buf_reader_deterministic_with_order<R: BufRead>(
    alloc: Global,
    reader: &mut R,
    limit: usize,
    order: KeyOrder,
) -> Result<Value, Error<io::Error>>
    ensures { ReadsWhole (deterministic order) (R.remaining reader.old) limit
        (R.remaining reader.new) (result_map tree_of result) }
{
    read_in_order::<R, Buffered>(alloc, reader, limit, order)
}
