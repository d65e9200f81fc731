//! A reader of heads.

use crate::access::{Access, Plain};
use crate::counter::Counter;
use crate::cursor::Cursor;
use crate::header::{Error, Header};
use crate::keep::{Answered, Keep};
use crate::strings::StringType;
use crate::visitor::Visitor;
use std::io::{self, Read};
use std::marker::PhantomData;
use std::mem;

/// Reads heads and payloads from a borrowed reader, and counts the bytes that it takes.
///
/// `A` says how they are taken. No byte is taken before it is needed, nor one whose offset would
/// pass `usize::MAX`. After an error a prefix of what was to be read has been taken from the
/// reader.
#[derive(Drop)]
pub struct Decoder<'a, R, A = Plain> {
    reader: &'a mut R,
    access: PhantomData<A>,
    counter: Counter,
    pushed: Option<(Header, usize)>,
    last: usize,
    head_len: usize,
}

impl<'a, R: Read> Decoder<'a, R, Plain> {
    ghost use Rattle.std.specs.Prelude.{◌≡◌};
    ghost use Rattle.ciborium_ll.specs.Decoding.{HasBegun};

    /// A decoder of any reader, whose offsets begin at 0. A head takes one read, and a second one
    /// where bytes of its argument follow the first.
    pub fn new(reader: &'a mut R) -> Decoder<'a, R, Plain>
        ensures same_reader { result.reader.ghost_name ≡ reader.entry.ghost_name }
        ensures begins { HasBegun result reader.old 0 }
    {
        Decoder::begin(reader, 0)
    }

    /// A decoder of any reader, whose offsets begin at the given offset.
    pub fn at(reader: &'a mut R, offset: usize) -> Decoder<'a, R, Plain>
        ensures same_reader { result.reader.ghost_name ≡ reader.entry.ghost_name }
        ensures begins { HasBegun result reader.old offset }
    {
        Decoder::begin(reader, offset)
    }
}

impl<'a, R, A: Access<R>> Decoder<'a, R, A> {
    ghost use Rattle.std.specs.Prelude.{[], ◌≡◌, ◌<◌, IfErr, IfNone, IfOk, List, None, Some};
    ghost use Rattle.std.specs.Prelude.{string_bytes, ℕ};
    ghost use Rattle.std.specs.Io.KnownBytes.{IsAtEnd};
    ghost use Rattle.ciborium_ll.specs.Bytes.{greatest_offset};
    ghost use Rattle.ciborium_ll.specs.Decoding.{HasBegun, HasEndedFor, HasSameReader, IsAhead};
    ghost use Rattle.ciborium_ll.specs.Decoding.{MeasuresHead, Pulls, ReadsNothing, Takes};
    ghost use Rattle.ciborium_ll.specs.Decoding.{count_of, head_len_of, last_of, left_of};
    ghost use Rattle.ciborium_ll.specs.Decoding.{offset_of, pushed_of};
    ghost use Rattle.ciborium_ll.specs.Decoded.{HasAppended, HasFilled, HasPulled, HasVisited};
    ghost use Rattle.ciborium_ll.specs.FirstHeads.{IsEndOrFault, IsFirstTaken, MeasuresFirst};
    ghost use Rattle.ciborium_ll.specs.FirstHeads.{PullsFirst};
    ghost use Rattle.ciborium_ll.specs.ReaderSteps.{IsHeadTaken};
    ghost use Rattle.ciborium_ll.specs.declared.strings.StringType.{StringType};

    /// A decoder that takes the bytes of its reader as `A` says, whose offsets begin at the given
    /// offset.
    pub fn begin(reader: &'a mut R, offset: usize) -> Decoder<'a, R, A>
        ensures same_reader { result.reader.ghost_name ≡ reader.entry.ghost_name }
        ensures begins { HasBegun result reader.old offset }
    {
        Decoder {
            reader,
            access: PhantomData,
            counter: Counter { count: offset },
            pushed: None,
            last: offset,
            head_len: 0,
        }
    }

    /// The offset of the head that the next `pull` returns: that of the pushed head if there is
    /// one, else the offset at which the decoder began, plus the number of bytes taken.
    #[inline(always)]
    pub fn offset(&self) -> usize
        ensures { result ≡ offset_of self.now }
    {
        match self.pushed {
            Some((_, offset)) => offset,
            None => self.counter.count,
        }
    }

    /// The length in bytes of the head that `pull` last took from the reader, and 0 before the
    /// first. Pushing a head back, and pulling one that was pushed back, does not change it.
    #[inline(always)]
    pub fn head_len(&self) -> usize
        ensures { result ≡ head_len_of self.now }
    {
        self.head_len
    }

    /// The offset of the head that `pull` returned last; before the first, the offset at which the
    /// decoder began.
    #[inline(always)]
    pub fn last_offset(&self) -> usize
        ensures { result ≡ last_of self.now }
    {
        self.last
    }

    /// Pushes one head back, with its offset. The next `pull` returns it and reads nothing.
    #[inline(always)]
    pub fn push(&mut self, header: Header, offset: usize)
        requires { pushed_of self.old ≡ None }
        ensures same_reader { HasSameReader self.old self.new }
        ensures unread { ReadsNothing self.old self.new }
        ensures last { last_of self.new ≡ last_of self.old }
        ensures head_len { head_len_of self.new ≡ head_len_of self.old }
        ensures pushed { pushed_of self.new ≡ Some (header, offset) }
    {
        self.pushed = Some((header, offset));
    }

    /// Drops the head that was pushed back, if there is one.
    #[inline(always)]
    pub fn forget(&mut self)
        ensures same_reader { HasSameReader self.old self.new }
        ensures unread { ReadsNothing self.old self.new }
        ensures last { last_of self.new ≡ last_of self.old }
        ensures head_len { head_len_of self.new ≡ head_len_of self.old }
        ensures none_pushed { pushed_of self.new ≡ None }
    {
        self.pushed = None;
    }

    /// The head that was pushed back, or else the next one of the reader (RFC 8949, section 3).
    ///
    /// # Errors
    ///
    /// `Io` where the reader ends or fails inside the head; `Syntax` with the head's offset where
    /// it is not well-formed; `TooLong` where the head, or the payload of a definite string that it
    /// announces, would pass the greatest offset.
    #[inline(always)]
    pub fn pull(&mut self) -> Result<Header, Error<io::Error>>
        ensures { HasPulled A.can_fail A.remaining self.old self.new result }
    {
        self.pull_keeping(&mut Answered)
    }

    /// Does what `pull` does; the reader's error goes to `keep`.
    #[inline(always)]
    pub fn pull_keeping<K: Keep>(&mut self, keep: &mut K) -> Result<Header, Error<K::Kept>>
        ensures { HasPulled A.can_fail A.remaining self.old self.new result }
    {
        if let Some((header, offset)) = self.pushed {
            self.forget();
            self.last = offset;
            return Ok(header);
        }
        self.pull_next_keeping(keep)
    }

    /// Does what `pull_keeping` does, where no head was pushed back.
    #[inline(always)]
    pub fn pull_next_keeping<K: Keep>(&mut self, keep: &mut K) -> Result<Header, Error<K::Kept>>
        requires { pushed_of self.old ≡ None }
        ensures same_reader { HasSameReader self.old self.new }
        ensures none_pushed { pushed_of self.new ≡ None }
        ensures taken { Takes A.remaining self.old self.new
            (λ b. IsHeadTaken b (count_of self.old) result) }
        ensures last { last_of self.new ≡ count_of self.old }
        ensures head_len { MeasuresHead self.old self.new result }

        // The same, said of all that is unread.
        ensures ahead { (b : List ℕ) (p : ℕ) → IsAhead A.remaining self.old b p →
            Pulls A.remaining self.new b p result }

        // A reader that cannot fail before its end has nothing left at `Io`.
        ensures ended { IfErr result (λ e. HasEndedFor A.can_fail A.remaining self.new e) }
    {
        let start = self.counter.count;
        self.last = start;
        let mut cursor = Cursor {
            reader: self.reader,
            access: PhantomData::<A>,
            counter: &mut self.counter,
            keep,
        };
        let pulled = cursor.read_head();
        if pulled.is_ok() {
            self.head_len = self.counter.count - start;
        }
        pulled
    }

    /// The first head of the reader, as `pull` returns it, or `None` where the reader is at its
    /// end, which is where a sequence of items ends (RFC 8742, section 2). A sequence that is cut
    /// short within the head has not ended so. No head may have been pulled or pushed before.
    ///
    /// # Errors
    ///
    /// Those of `pull`: `Io` where a read fails, even the first one, or the reader ends inside the
    /// head. After `None`, and after a failure of the first read, no byte has been taken.
    #[inline(always)]
    pub fn pull_first(&mut self) -> Result<Option<Header>, Error<io::Error>>
        requires unpushed { pushed_of self.old ≡ None }
        requires unpulled { head_len_of self.old ≡ 0 }
        requires room { count_of self.old < greatest_offset }
        ensures same_reader { HasSameReader self.old self.new }
        ensures none_pushed { pushed_of self.new ≡ None }

        // At the end nothing is taken, and otherwise just the bytes that determine the answer.
        ensures taken { Takes A.remaining self.old self.new
            (λ b. IsFirstTaken b (count_of self.old) result) }
        ensures last { last_of self.new ≡ count_of self.old }
        ensures head_len { MeasuresFirst self.old self.new result }

        // Where the reader's bytes are known, the end is where none are left, unless it failed.
        ensures end { IfOk result (λ o. IfNone o (IsAtEnd (left_of A.remaining self.new))) }
        ensures empty { left_of A.remaining self.old ≡ Some [] → IsEndOrFault result }

        // The same, said of all that is unread.
        ensures ahead { (b : List ℕ) (p : ℕ) → IsAhead A.remaining self.old b p →
            PullsFirst A.remaining self.new b p result }

        // A reader that cannot fail before its end has nothing left at `Io`.
        ensures ended { IfErr result (λ e. HasEndedFor A.can_fail A.remaining self.new e) }
    {
        let offset = self.counter.count;
        self.last = offset;
        let mut cursor = Cursor {
            reader: self.reader,
            access: PhantomData::<A>,
            counter: &mut self.counter,
            keep: &mut Answered,
        };
        let pulled = cursor.read_first_head();
        if let Ok(Some(_)) = pulled {
            self.head_len = self.counter.count - offset;
        }
        pulled
    }

    /// Fills the buffer with the next bytes.
    ///
    /// # Errors
    ///
    /// `Io` where the reader ends or fails before that; `TooLong`, with nothing read, where the
    /// bytes would pass the greatest offset. What the buffer then holds is unspecified.
    #[inline(always)]
    pub fn read_exact(&mut self, buffer: &mut [u8]) -> Result<(), Error<io::Error>>
        requires { pushed_of self.old ≡ None }
        ensures { HasFilled A.can_fail A.remaining self.old self.new buffer.new result }
    {
        self.read_exact_keeping(buffer, &mut Answered)
    }

    /// Does what `read_exact` does; the reader's error goes to `keep`.
    #[inline(always)]
    pub fn read_exact_keeping<K: Keep>(
        &mut self,
        buffer: &mut [u8],
        keep: &mut K,
    ) -> Result<(), Error<K::Kept>>
        requires { pushed_of self.old ≡ None }
        ensures { HasFilled A.can_fail A.remaining self.old self.new buffer.new result }
    {
        Cursor {
            reader: self.reader,
            access: PhantomData::<A>,
            counter: &mut self.counter,
            keep,
        }
        .fill(buffer)
    }

    /// Takes the next n bytes where the reader holds them whole, and answers what the visitor makes
    /// of them there; the reader's error goes to `keep`. `None`, which takes nothing, where they
    /// are not held, or would pass the greatest offset: then `read_exact_keeping` says which.
    ///
    /// # Errors
    ///
    /// `Io`, with nothing taken, where the reader fails.
    #[inline(always)]
    pub fn visit_keeping<V: Visitor, K: Keep>(
        &mut self,
        n: usize,
        visitor: &V,
        keep: &mut K,
    ) -> Option<Result<V::Value, Error<K::Kept>>>
        requires { pushed_of self.old ≡ None }
        ensures { HasVisited A.can_fail A.remaining self.old self.new n (V.makes visitor.now)
            result }
    {
        if usize::MAX - self.counter.count < n {
            return None;
        }
        let visited = A::visit(self.reader, n, visitor, keep)?;
        if visited.is_ok() {
            self.counter.count += n;
        }
        Some(visited)
    }

    /// Appends the payload of the byte string whose head was pulled last. `len` is the length in
    /// that head; `None` is indefinite length, where the chunks are appended up to the break. The
    /// scratch may have any length, even 0: no result depends on it.
    ///
    /// # Errors
    ///
    /// `Io` where the reader ends or fails before the end; `Syntax` with the offset of a head that
    /// is not well-formed, or in a string of indefinite length is neither that of a definite byte
    /// string nor the break; `TooLong` where what a head announces would pass the greatest offset;
    /// `Memory` where an allocation for `out` fails. What was appended then is a prefix of the
    /// payload.
    #[inline(always)]
    pub fn bytes_into(
        &mut self,
        len: Option<usize>,
        scratch: &mut [u8],
        out: &mut Vec<u8>,
    ) -> Result<(), Error<io::Error>>
        requires { pushed_of self.old ≡ None }
        ensures { HasAppended StringType.Bytes len A.can_fail A.remaining self.old self.new
            out.old.items out.new.items result }
    {
        self.bytes_into_keeping(len, scratch, out, &mut Answered)
    }

    /// Does what `bytes_into` does; the reader's error goes to `keep`.
    #[inline(always)]
    pub fn bytes_into_keeping<K: Keep>(
        &mut self,
        len: Option<usize>,
        scratch: &mut [u8],
        out: &mut Vec<u8>,
        keep: &mut K,
    ) -> Result<(), Error<K::Kept>>
        requires { pushed_of self.old ≡ None }
        ensures { HasAppended StringType.Bytes len A.can_fail A.remaining self.old self.new
            out.old.items out.new.items result }
    {
        let head = self.last;
        Cursor {
            reader: self.reader,
            access: PhantomData::<A>,
            counter: &mut self.counter,
            keep,
        }
        .append_string(StringType::Bytes, len, head, scratch, out)
    }

    /// Appends the payload of the text whose head was pulled last, as `bytes_into` does for a byte
    /// string. The payload of a definite text, and each chunk of one of indefinite length, is read
    /// whole, and then checked to be UTF-8.
    ///
    /// # Errors
    ///
    /// Those of `bytes_into`, with texts in place of byte strings, and `Syntax` with the offset of
    /// the head of a text or chunk that is not UTF-8. What was appended then is a prefix of the
    /// payload.
    #[inline(always)]
    pub fn text_into(
        &mut self,
        len: Option<usize>,
        scratch: &mut [u8],
        out: &mut String,
    ) -> Result<(), Error<io::Error>>
        requires { pushed_of self.old ≡ None }
        ensures { HasAppended StringType.Text len A.can_fail A.remaining self.old self.new
            (string_bytes out.old) (string_bytes out.new) result }
    {
        self.text_into_keeping(len, scratch, out, &mut Answered)
    }

    /// Does what `text_into` does; the reader's error goes to `keep`.
    #[inline(always)]
    pub fn text_into_keeping<K: Keep>(
        &mut self,
        len: Option<usize>,
        scratch: &mut [u8],
        out: &mut String,
        keep: &mut K,
    ) -> Result<(), Error<K::Kept>>
        requires { pushed_of self.old ≡ None }
        ensures { HasAppended StringType.Text len A.can_fail A.remaining self.old self.new
            (string_bytes out.old) (string_bytes out.new) result }
    {
        let empty = String::new(*out.allocator());
        let mut bytes = mem::replace(out, empty).into_bytes();
        let head = self.last;
        let mut cursor = Cursor {
            reader: self.reader,
            access: PhantomData::<A>,
            counter: &mut self.counter,
            keep,
        };
        let result = cursor.append_string(StringType::Text, len, head, scratch, &mut bytes);
        // SAFETY: `out` held UTF-8, and each chunk that was appended to it is UTF-8 by itself.
        *out = unsafe { String::from_utf8_unchecked(bytes) };
        result
    }
}
