//! The payloads of strings: appended as they come, tested where they stand.

ghost use Rattle.std.specs.Prelude.{◌≡◌, ◌↔◌, IsTrue};
ghost use Rattle.ciborium_ll.specs.StringRefusal.{IsAllowed};
ghost use Rattle.ciborium_ll.specs.Strings.{IsChunk};

use crate::access::{Access, end_of_bytes};
use crate::cursor::Cursor;
use crate::header::{Error, Header};
use crate::keep::Keep;

/// What a string holds: bytes (major type 2) or UTF-8 (major type 3; RFC 8949, section 3.1).
#[derive(Clone, Copy)]
pub enum StringType {
    /// Bytes.
    Bytes,
    /// Text.
    Text,
}

// The scratch of a caller that passes none.
const OWN_SCRATCH: usize = 64;

// Whether a string of this type may hold these bytes.
#[inline(always)]
fn is_allowed(string_type: StringType, payload: &[u8]) -> bool
    ensures { IsTrue result ↔ IsAllowed string_type payload.now }
{
    match string_type {
        StringType::Bytes => true,
        StringType::Text => str::from_utf8(payload).is_ok(),
    }
}

// What a head is inside a string of indefinite length.
enum Chunk {
    End,
    Definite(usize),
    Other,
}

fn chunk_of(string_type: StringType, header: Header) -> Chunk
    ensures { IsChunk string_type header result }
{
    match (string_type, header) {
        (_, Header::Break) => Chunk::End,
        (StringType::Bytes, Header::Bytes(Some(n))) => Chunk::Definite(n),
        (StringType::Text, Header::Text(Some(n))) => Chunk::Definite(n),
        _ => Chunk::Other,
    }
}

impl<'c, R, A: Access<R>, K: Keep> Cursor<'c, R, A, K> {
    ghost use Rattle.std.specs.Prelude.{◌+◌, ◌<◌, ◌≤◌, IfErr, length};
    ghost use Rattle.ciborium_ll.specs.inner.Cursors.{HasEndedAt, IsSameCursor, Moves, count_at};
    ghost use Rattle.ciborium_ll.specs.Strings.{AreChunksTaken, Grows, IsPayloadTaken};
    ghost use Rattle.ciborium_ll.specs.Strings.{IsPiecesTaken, IsSomeTaken, IsStringTaken};

    // Appends some of the next n bytes, of which there is one at least, and answers how many: what
    // is held, or else a piece of at most the length of the scratch.
    #[inline(always)]
    fn append_some(
        &mut self,
        n: usize,
        scratch: &mut [u8],
        out: &mut Vec<u8>,
    ) -> Result<usize, Error<K::Kept>>
        requires some { 0 < n }
        requires room { 0 < length scratch.old }
        requires below { count_at self.old + n ≤ usize.MAX }
        ensures same { IsSameCursor self.old self.new }
        ensures some { Moves A.remaining self.old self.new
            (λ b. IsSomeTaken n b result out.old.items out.new.items) }
        ensures ended { IfErr result (λ e. HasEndedAt A.can_fail A.remaining self.new e) }
    {
        if let Some(count) = A::append(self.reader, n, out, self.keep)? {
            if count == 0 {
                return Err(end_of_bytes(self.keep));
            }
            self.counter.count += count;
            return Ok(count);
        }
        let size = n.min(scratch.len());
        let piece = &mut scratch[..size];
        self.fill(piece)?;
        if out.extend_from_slice(piece).is_err() {
            return Err(Error::Memory);
        }
        Ok(size)
    }

    // Appends n bytes, in pieces.
    #[inline(always)]
    fn append_pieces(
        &mut self,
        n: usize,
        scratch: &mut [u8],
        out: &mut Vec<u8>,
    ) -> Result<(), Error<K::Kept>>
        requires room { 0 < length scratch.old }
        requires below { count_at self.old + n ≤ usize.MAX }
        ensures same { IsSameCursor self.old self.new }
        ensures bytes { Moves A.remaining self.old self.new
            (λ b. IsPiecesTaken n b result out.old.items out.new.items) }
        ensures ended { IfErr result (λ e. HasEndedAt A.can_fail A.remaining self.new e) }
    {
        let mut left = n;
        while left > 0 {
            left -= self.append_some(left, scratch, out)?;
        }
        Ok(())
    }

    // Appends n bytes, whatever the length of the scratch.
    #[inline(always)]
    fn append_bytes(
        &mut self,
        n: usize,
        scratch: &mut [u8],
        out: &mut Vec<u8>,
    ) -> Result<(), Error<K::Kept>>
        requires { count_at self.old + n ≤ usize.MAX }
        ensures same { IsSameCursor self.old self.new }
        ensures bytes { Moves A.remaining self.old self.new
            (λ b. IsPiecesTaken n b result out.old.items out.new.items) }
        ensures ended { IfErr result (λ e. HasEndedAt A.can_fail A.remaining self.new e) }
    {
        if scratch.is_empty() {
            return self.append_pieces(n, &mut [0; OWN_SCRATCH], out);
        }
        self.append_pieces(n, scratch, out)
    }

    // Appends the payload, of n bytes, of a definite string whose head is at this offset. A refusal
    // takes what was appended of it off again.
    #[inline(always)]
    fn append_payload(
        &mut self,
        string_type: StringType,
        n: usize,
        head: usize,
        scratch: &mut [u8],
        out: &mut Vec<u8>,
    ) -> Result<(), Error<K::Kept>>
        requires { count_at self.old + n ≤ usize.MAX }
        ensures same { IsSameCursor self.old self.new }
        ensures bytes { Moves A.remaining self.old self.new (λ b. Grows out.old.items out.new.items
            (IsPayloadTaken string_type n head b result)) }
        ensures ended { IfErr result (λ e. HasEndedAt A.can_fail A.remaining self.new e) }
    {
        let start = out.len();
        if let Err(e) = self.append_bytes(n, scratch, out) {
            out.truncate(start);
            return Err(e);
        }
        if !is_allowed(string_type, &out[start..]) {
            out.truncate(start);
            return Err(Error::Syntax(head));
        }
        Ok(())
    }

    // Appends the payloads of the chunks of a string of indefinite length, up to the break.
    #[inline(never)]
    fn append_chunks(
        &mut self,
        string_type: StringType,
        scratch: &mut [u8],
        out: &mut Vec<u8>,
    ) -> Result<(), Error<K::Kept>>
        ensures same { IsSameCursor self.old self.new }
        ensures bytes { Moves A.remaining self.old self.new (λ b. Grows out.old.items out.new.items
            (AreChunksTaken string_type b (count_at self.old) result)) }
        ensures ended { IfErr result (λ e. HasEndedAt A.can_fail A.remaining self.new e) }
    {
        let mut head = self.counter.count;
        'chunks: loop {
            let header = self.read_head()?;
            match chunk_of(string_type, header) {
                Chunk::End => return Ok(()),
                Chunk::Definite(n) => self.append_payload(string_type, n, head, scratch, out)?,
                Chunk::Other => return Err(Error::Syntax(head)),
            }
            head = self.counter.count;
        }
    }

    // Appends the payload of the string of this length (`None`: indefinite) whose head is at this
    // offset.
    #[inline(always)]
    pub(crate) fn append_string(
        &mut self,
        string_type: StringType,
        len: Option<usize>,
        head: usize,
        scratch: &mut [u8],
        out: &mut Vec<u8>,
    ) -> Result<(), Error<K::Kept>>
        ensures same { IsSameCursor self.old self.new }
        ensures bytes { Moves A.remaining self.old self.new (λ b. Grows out.old.items out.new.items
            (IsStringTaken string_type len head b (count_at self.old) result)) }
        ensures ended { IfErr result (λ e. HasEndedAt A.can_fail A.remaining self.new e) }
    {
        match len {
            Some(n) => {
                if usize::MAX - self.counter.count < n {
                    return Err(Error::TooLong);
                }
                self.append_payload(string_type, n, head, scratch, out)
            }
            None => self.append_chunks(string_type, scratch, out),
        }
    }
}
