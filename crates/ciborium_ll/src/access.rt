//! How the bytes of a reader are taken.

ghost use Rattle.std.specs.Prelude.{◌≡◌, ◌+◌, ◌≤◌, Bool, IfErr, IfNone, IfSome, List, Option, true};
ghost use Rattle.std.specs.Prelude.{false};
ghost use Rattle.std.specs.Prelude.{Some, length, take, ℕ};
ghost use Rattle.std.specs.Io.{ReadsAtMost};
ghost use Rattle.std.specs.Io.KnownBytes.{Keeps, ReadConsumes};
ghost use Rattle.ciborium_ll.specs.Accesses.{AppendsHeld, HasEnded, HasReadToEnd};
ghost use Rattle.ciborium_ll.specs.Accesses.{TakesHeldHead, VisitsHeld};
ghost use Rattle.ciborium_ll.specs.Bytes.{AreBytes};
ghost use Rattle.ciborium_ll.specs.FirstHeads.{IsHeadIo};

use crate::header::{Error, Header};
use crate::keep::Keep;
use crate::reading::front_head;
use crate::visitor::Visitor;
use std::io::{self, BufRead, ErrorKind, Read};

/// How the bytes of a reader are taken. Beside `read`, which every reader has, one that holds bytes
/// may hand them out where they stand: a head that is held whole is parsed there, and a payload is
/// visited there, or appended from there.
pub trait Access<R> {
    // The bytes that are left, where they are known.
    ghost remaining: { R → Option (List ℕ) };

    // Whether reading may fail before the end of the bytes.
    ghost can_fail: { Bool };

    /// Takes bytes into the buffer, and answers how many: none only at the end of the bytes, or
    /// where the buffer has no room.
    fn read(reader: &mut R, buffer: &mut [u8]) -> io::Result<usize>
        ensures bound { ReadsAtMost result buffer.new }
        ensures bytes { ReadConsumes (remaining reader.old) (remaining reader.new) result
            buffer.new }
        ensures ended { HasReadToEnd can_fail (remaining reader.new) (length buffer.new) result };

    /// Whether no byte is held, where a reader that holds bytes has asked for more.
    fn holds_nothing<K: Keep>(reader: &mut R, keep: &mut K) -> Result<bool, Error<K::Kept>>
        ensures kept { Keeps (remaining reader.old) (remaining reader.new) }
        ensures io { IfErr result IsHeadIo }
        ensures ended { IfErr result (HasEnded can_fail (remaining reader.new)) };

    /// Takes the head at the front, which begins at offset `start`, where it is held whole, and
    /// answers it with its size; `Io` where no byte is left. `None` takes nothing.
    fn take_head<K: Keep>(
        reader: &mut R,
        start: usize,
        keep: &mut K,
    ) -> Option<(Result<Header, Error<K::Kept>>, usize)>
        ensures none { IfNone result (Keeps (remaining reader.old) (remaining reader.new)) }
        ensures fits { IfSome result (λ t. start + t.1 ≤ usize.MAX) }
        ensures some { IfSome result (λ t. TakesHeldHead (remaining reader.old)
            (remaining reader.new) can_fail start t.1 t.0) };

    /// Appends bytes that are held, so many at most, and answers how many: none only at the end of
    /// the bytes, or where none are asked for. `None`, where no bytes can be handed out, and an
    /// error take and append nothing.
    fn append<K: Keep>(
        reader: &mut R,
        most: usize,
        out: &mut Vec<u8>,
        keep: &mut K,
    ) -> Result<Option<usize>, Error<K::Kept>>
        ensures { AppendsHeld (remaining reader.old) (remaining reader.new) can_fail most result
            out.old.items out.new.items };

    /// Takes the next n bytes, where they are held whole, and answers what the visitor makes of
    /// them. `None`, and an error, takes nothing.
    fn visit<V: Visitor, K: Keep>(
        reader: &mut R,
        n: usize,
        visitor: &V,
        keep: &mut K,
    ) -> Option<Result<V::Value, Error<K::Kept>>>
        ensures { VisitsHeld (remaining reader.old) (remaining reader.new) can_fail n
            (V.makes visitor.now) result };
}

// The error of a reader that has come to its end.
#[inline(never)]
pub(crate) fn end_of_bytes<K: Keep>(keep: &mut K) -> Error<K::Kept>
    ensures { IsHeadIo result }
{
    Error::Io(keep.keep(io::Error::from(ErrorKind::UnexpectedEof)))
}

// The first n bytes.
#[inline(always)]
fn front(bytes: &[u8], n: usize) -> &[u8]
    requires { n ≤ length bytes.now }
    ensures front { result.now ≡ take n bytes.now }
    ensures bytes { AreBytes result.now }
{
    &bytes[..n]
}

/// Of any reader: it is read only where a byte is needed, for no more than is needed.
pub struct Plain;

impl<R: Read> Access<R> for Plain {
    ghost remaining = { R.remaining };

    ghost can_fail = { true };

    #[inline(always)]
    fn read(reader: &mut R, buffer: &mut [u8]) -> io::Result<usize> {
        reader.read(buffer)
    }

    #[inline(always)]
    fn holds_nothing<K: Keep>(_reader: &mut R, _keep: &mut K) -> Result<bool, Error<K::Kept>> {
        Ok(true)
    }

    #[inline(always)]
    fn take_head<K: Keep>(
        _reader: &mut R,
        _start: usize,
        _keep: &mut K,
    ) -> Option<(Result<Header, Error<K::Kept>>, usize)> {
        None
    }

    #[inline(always)]
    fn append<K: Keep>(
        _reader: &mut R,
        _most: usize,
        _out: &mut Vec<u8>,
        _keep: &mut K,
    ) -> Result<Option<usize>, Error<K::Kept>> {
        Ok(None)
    }

    #[inline(always)]
    fn visit<V: Visitor, K: Keep>(
        _reader: &mut R,
        _n: usize,
        _visitor: &V,
        _keep: &mut K,
    ) -> Option<Result<V::Value, Error<K::Kept>>> {
        None
    }
}

/// Of a reader with a buffer: what stands in its buffer is taken from there.
pub struct Buffered;

impl<R: BufRead> Access<R> for Buffered {
    ghost remaining = { R.remaining };

    ghost can_fail = { true };

    #[inline(always)]
    fn read(reader: &mut R, buffer: &mut [u8]) -> io::Result<usize> {
        reader.read(buffer)
    }

    #[inline(always)]
    fn holds_nothing<K: Keep>(reader: &mut R, keep: &mut K) -> Result<bool, Error<K::Kept>> {
        match reader.fill_buf() {
            Ok(held) => Ok(held.is_empty()),
            Err(e) => Err(Error::Io(keep.keep(e))),
        }
    }

    #[inline(always)]
    fn take_head<K: Keep>(
        reader: &mut R,
        start: usize,
        keep: &mut K,
    ) -> Option<(Result<Header, Error<K::Kept>>, usize)> {
        if start > usize::MAX - 9 {
            return None;
        }
        let (head, size) = match reader.fill_buf() {
            Ok(held) => {
                if held.is_empty() {
                    return Some((Err(end_of_bytes(keep)), 0));
                }
                front_head(start, held)?
            }
            Err(e) => return Some((Err(Error::Io(keep.keep(e))), 0)),
        };
        reader.consume(size);
        Some((head, size))
    }

    #[inline(always)]
    fn append<K: Keep>(
        reader: &mut R,
        most: usize,
        out: &mut Vec<u8>,
        keep: &mut K,
    ) -> Result<Option<usize>, Error<K::Kept>> {
        let count = match reader.fill_buf() {
            Ok(held) => {
                let count = most.min(held.len());
                if out.extend_from_slice(front(held, count)).is_err() {
                    return Err(Error::Memory);
                }
                count
            }
            Err(e) => return Err(Error::Io(keep.keep(e))),
        };
        reader.consume(count);
        Ok(Some(count))
    }

    #[inline(always)]
    fn visit<V: Visitor, K: Keep>(
        reader: &mut R,
        n: usize,
        visitor: &V,
        keep: &mut K,
    ) -> Option<Result<V::Value, Error<K::Kept>>> {
        if n == 0 {
            return None;
        }
        let value = match reader.fill_buf() {
            Ok(held) => {
                if held.is_empty() {
                    return Some(Err(end_of_bytes(keep)));
                }
                if held.len() < n {
                    return None;
                }
                visitor.visit(front(held, n))
            }
            Err(e) => return Some(Err(Error::Io(keep.keep(e)))),
        };
        reader.consume(n);
        Some(Ok(value))
    }
}

/// Of a slice, which holds all of its bytes, and never fails.
pub struct Slice;

impl<'s> Access<&'s [u8]> for Slice {
    ghost remaining = { λ slice. Some slice.now };

    ghost can_fail = { false };

    #[inline(always)]
    fn read(reader: &mut &'s [u8], buffer: &mut [u8]) -> io::Result<usize> {
        reader.read(buffer)
    }

    #[inline(always)]
    fn holds_nothing<K: Keep>(
        reader: &mut &'s [u8],
        _keep: &mut K,
    ) -> Result<bool, Error<K::Kept>> {
        Ok(reader.is_empty())
    }

    #[inline(always)]
    fn take_head<K: Keep>(
        reader: &mut &'s [u8],
        start: usize,
        keep: &mut K,
    ) -> Option<(Result<Header, Error<K::Kept>>, usize)> {
        if start > usize::MAX - 9 {
            return None;
        }
        let held: &'s [u8] = *reader;
        if held.is_empty() {
            return Some((Err(end_of_bytes(keep)), 0));
        }
        let (head, size) = front_head(start, held)?;
        *reader = &held[size..];
        Some((head, size))
    }

    #[inline(always)]
    fn append<K: Keep>(
        reader: &mut &'s [u8],
        most: usize,
        out: &mut Vec<u8>,
        _keep: &mut K,
    ) -> Result<Option<usize>, Error<K::Kept>> {
        let held: &'s [u8] = *reader;
        let count = held.len().min(most);
        if out.extend_from_slice(front(held, count)).is_err() {
            return Err(Error::Memory);
        }
        *reader = &held[count..];
        Ok(Some(count))
    }

    #[inline(always)]
    fn visit<V: Visitor, K: Keep>(
        reader: &mut &'s [u8],
        n: usize,
        visitor: &V,
        _keep: &mut K,
    ) -> Option<Result<V::Value, Error<K::Kept>>> {
        let held: &'s [u8] = *reader;
        if held.len() < n {
            return None;
        }
        let value = visitor.visit(front(held, n));
        *reader = &held[n..];
        Some(Ok(value))
    }
}
