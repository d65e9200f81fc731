//! Heads, as they come or where they are held.
//!
//! An `io::Error` is large, and so is a result that may hold one: inlined, none is moved on the way
//! of a head.

ghost use Rattle.std.specs.Prelude.{◌≡◌, ◌+◌, ◌<◌, ◌≤◌, ◌%◌, ◌∷◌, IfErr, IfSome, length, take};
ghost use Rattle.ciborium_ll.specs.Accesses.{HasEnded};
ghost use Rattle.ciborium_ll.specs.Bytes.{AreBytes};
ghost use Rattle.ciborium_ll.specs.FirstHeads.{IsHeadIo};
ghost use Rattle.ciborium_ll.specs.Header.{announced_length};
ghost use Rattle.ciborium_ll.specs.Refusal.{argument_length};
ghost use Rattle.ciborium_ll.specs.ReaderSteps.{Advances, IsHeadTaken, IsParsed};

use crate::access::Access;
use crate::counter::Counter;
use crate::cursor::Cursor;
use crate::header::{Error, Header};
use crate::keep::Keep;
use crate::parsing::{parse_head, parse_held};
use std::marker::PhantomData;

// How many bytes of payload a definite string's head announces.
#[inline(always)]
pub(crate) fn payload_size(header: Header) -> usize
    ensures { result ≡ announced_length header }
{
    match header {
        Header::Bytes(Some(n)) | Header::Text(Some(n)) => n,
        _ => 0,
    }
}

// What these bytes are as the head between these offsets, where they are parsed so.
#[inline(always)]
fn judge_head<E>(
    start: usize,
    end: usize,
    initial: u8,
    argument: &[u8],
    parsed: Option<Header>,
) -> Result<Header, Error<E>>
    requires whole { length argument.now ≡ argument_length (initial % 32) }
    requires between { end ≡ start + 1 + length argument.now }
    requires parsed { IsParsed (initial ∷ argument.now) parsed }
    ensures head { IsHeadTaken (initial ∷ argument.now) start result }
    ensures no_io { IfErr result (λ e. ¬ IsHeadIo e) }
{
    let Some(header) = parsed else {
        return Err(Error::Syntax(start));
    };
    if usize::MAX - end < payload_size(header) {
        return Err(Error::TooLong);
    }
    Ok(header)
}

// How many bytes of argument follow an initial byte with this additional information.
#[tactic(auto, unfolding(crate::specs::Refusal::argument_length))]
#[inline(always)]
fn argument_size(info: u8) -> usize
    ensures length { result ≡ argument_length info }
    ensures at_most { result ≤ 8 }
{
    match info {
        24 => 1,
        25 => 2,
        26 => 4,
        27 => 8,
        _ => 0,
    }
}

// How many bytes a head has, by its additional information from 24 on.
const SIZES: [usize; 8] = [2, 3, 5, 9, 1, 1, 1, 1];

// How many bytes a head with this additional information has.
#[inline(always)]
pub(crate) fn front_size(info: u8) -> usize
    requires { info < 32 }
    ensures size { result ≡ 1 + argument_length info }
    ensures at_most { result ≤ 9 }
{
    if info < 24 {
        return 1;
    }
    SIZES[(info % 8) as usize]
}

// The head at the front of what is held, where all of it is, and its size. It begins at offset
// `start`, and no byte of it passes the greatest offset.
#[inline(always)]
pub(crate) fn front_head<E>(start: usize, held: &[u8]) -> Option<(Result<Header, Error<E>>, usize)>
    requires { start + 9 ≤ usize.MAX }
    ensures within { IfSome result (λ t. t.1 ≤ length held.now) }
    ensures fits { IfSome result (λ t. start + t.1 ≤ usize.MAX) }
    ensures head { IfSome result (λ t. IsHeadTaken (take t.1 held.now) start t.0) }
    ensures no_io { IfSome result (λ t. IfErr t.0 (λ e. ¬ IsHeadIo e)) }
    ensures bytes { AreBytes held.now }
{
    if held.is_empty() {
        return None;
    }
    let initial = held[0];
    let size = front_size(initial % 32);
    if held.len() < size {
        return None;
    }
    let argument = &held[1..size];
    let parsed = parse_held(initial, held, argument);
    let head = judge_head(start, start + size, initial, argument, parsed);
    Some((head, size))
}

// Reads the head at the front, which is not held whole. Out of line: where bytes are held it is
// seldom called. What it reads from comes in parts, so that no cursor need stand in memory.
#[inline(never)]
fn read_apart<R, A: Access<R>, K: Keep>(
    reader: &mut R,
    counter: &mut Counter,
    keep: &mut K,
) -> Result<Header, Error<K::Kept>>
    ensures head { Advances (A.remaining reader.old) (A.remaining reader.new) counter.old.count
        counter.new.count (λ b. IsHeadTaken b counter.old.count result) }
    ensures ended { IfErr result (HasEnded A.can_fail (A.remaining reader.new)) }
{
    let start = counter.count;
    let mut cursor = Cursor {
        reader,
        access: PhantomData::<A>,
        counter,
        keep,
    };
    let mut first = [0u8; 1];
    cursor.fill(&mut first)?;
    cursor.read_behind(start, first[0])
}

impl<'c, R, A: Access<R>, K: Keep> Cursor<'c, R, A, K> {
    ghost use Rattle.std.specs.Prelude.{IfNone, IfOk};
    ghost use Rattle.std.specs.Io.KnownBytes.{IsAtEnd};
    ghost use Rattle.ciborium_ll.specs.inner.Cursors.{HasEndedAt, IsSameCursor, Moves, count_at};
    ghost use Rattle.ciborium_ll.specs.inner.Cursors.{left_at};
    ghost use Rattle.ciborium_ll.specs.FirstHeads.{IsFirstTaken};

    // Reads the argument behind the initial byte of the head at this offset.
    #[inline(always)]
    fn read_argument(
        &mut self,
        start: usize,
        initial: u8,
        argument: &mut [u8],
    ) -> Result<Header, Error<K::Kept>>
        requires behind { count_at self.old ≡ start + 1 }
        requires whole { length argument.old ≡ argument_length (initial % 32) }
        ensures same { IsSameCursor self.old self.new }
        ensures head { Moves A.remaining self.old self.new
            (λ b. IsHeadTaken (initial ∷ b) start result) }
        ensures ended { IfErr result (λ e. HasEndedAt A.can_fail A.remaining self.new e) }
    {
        self.fill(argument)?;
        let parsed = parse_head(initial, argument);
        judge_head(start, self.counter.count, initial, argument, parsed)
    }

    // Reads what follows the initial byte of the head at this offset.
    #[inline(always)]
    fn read_behind(&mut self, start: usize, initial: u8) -> Result<Header, Error<K::Kept>>
        requires { count_at self.old ≡ start + 1 }
        ensures same { IsSameCursor self.old self.new }
        ensures head { Moves A.remaining self.old self.new
            (λ b. IsHeadTaken (initial ∷ b) start result) }
        ensures ended { IfErr result (λ e. HasEndedAt A.can_fail A.remaining self.new e) }
    {
        let size = argument_size(initial % 32);
        if size == 0 {
            return self.read_argument(start, initial, &mut []);
        }
        let mut buffer = [0u8; 8];
        self.read_argument(start, initial, &mut buffer[..size])
    }

    // Reads the head at the front.
    #[inline(always)]
    pub(crate) fn read_head(&mut self) -> Result<Header, Error<K::Kept>>
        ensures same { IsSameCursor self.old self.new }
        ensures head { Moves A.remaining self.old self.new
            (λ b. IsHeadTaken b (count_at self.old) result) }
        ensures ended { IfErr result (λ e. HasEndedAt A.can_fail A.remaining self.new e) }
    {
        match A::take_head(self.reader, self.counter.count, self.keep) {
            Some((head, size)) => {
                self.counter.count += size;
                head
            }
            None => read_apart::<R, A, K>(self.reader, self.counter, self.keep),
        }
    }

    // Reads the first head, or none where the reader is at its end; it is not held whole.
    #[inline(never)]
    fn read_first_apart(&mut self) -> Result<Option<Header>, Error<K::Kept>>
        requires { count_at self.old < usize.MAX }
        ensures same { IsSameCursor self.old self.new }
        ensures head { Moves A.remaining self.old self.new
            (λ b. IsFirstTaken b (count_at self.old) result) }
        ensures end { IfOk result (λ o. IfNone o (IsAtEnd (left_at A.remaining self.new))) }
        ensures ended { IfErr result (λ e. HasEndedAt A.can_fail A.remaining self.new e) }
    {
        let start = self.counter.count;
        let mut first = [0u8; 1];
        if self.read_some(&mut first)? == 0 {
            return Ok(None);
        }
        let header = self.read_behind(start, first[0])?;
        Ok(Some(header))
    }

    // Reads the head at the front, or none where the reader is at its end.
    #[inline(always)]
    pub(crate) fn read_first_head(&mut self) -> Result<Option<Header>, Error<K::Kept>>
        requires { count_at self.old < usize.MAX }
        ensures same { IsSameCursor self.old self.new }
        ensures head { Moves A.remaining self.old self.new
            (λ b. IsFirstTaken b (count_at self.old) result) }
        ensures end { IfOk result (λ o. IfNone o (IsAtEnd (left_at A.remaining self.new))) }
        ensures ended { IfErr result (λ e. HasEndedAt A.can_fail A.remaining self.new e) }
    {
        if A::holds_nothing(self.reader, self.keep)? {
            return self.read_first_apart();
        }
        match A::take_head(self.reader, self.counter.count, self.keep) {
            Some((head, size)) => {
                self.counter.count += size;
                match head {
                    Ok(header) => Ok(Some(header)),
                    Err(e) => Err(e),
                }
            }
            None => self.read_first_apart(),
        }
    }
}
