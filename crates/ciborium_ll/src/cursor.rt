//! Where a reader is read: how its bytes are taken and counted.

use crate::access::{Access, end_of_bytes};
use crate::counter::Counter;
use crate::header::Error;
use crate::keep::Keep;
use std::marker::PhantomData;

// A reader, how many bytes of it were taken, and where an error of its own goes.
#[derive(Drop)]
pub(crate) struct Cursor<'c, R, A, K> {
    pub(crate) reader: &'c mut R,
    pub(crate) access: PhantomData<A>,
    pub(crate) counter: &'c mut Counter,
    pub(crate) keep: &'c mut K,
}

impl<'c, R, A: Access<R>, K: Keep> Cursor<'c, R, A, K> {
    ghost use Rattle.std.specs.Prelude.{◌≡◌, ◌+◌, ◌<◌, ◌≤◌, IfErr, IfOk, length};
    ghost use Rattle.ciborium_ll.specs.Accesses.{IsUsedUp};
    ghost use Rattle.ciborium_ll.specs.inner.Cursors.{GivesSome, HasEndedAt, IsSameCursor, Moves};
    ghost use Rattle.ciborium_ll.specs.inner.Cursors.{count_at, left_at};
    ghost use Rattle.ciborium_ll.specs.ReaderSteps.{IsFillTaken};

    // Takes bytes into the buffer, which has room for one at least, and answers how many: none at
    // the reader's end.
    #[inline(always)]
    pub(crate) fn read_some(&mut self, buffer: &mut [u8]) -> Result<usize, Error<K::Kept>>
        requires some { 0 < length buffer.old }
        requires room { count_at self.old + length buffer.old ≤ usize.MAX }
        ensures same { IsSameCursor self.old self.new }
        ensures some { GivesSome A.remaining self.old self.new buffer.new result }
        ensures ended { IfErr result (λ e. HasEndedAt A.can_fail A.remaining self.new e) }
        ensures used_up { IfOk result (λ n. n ≡ 0 →
            IsUsedUp A.can_fail (left_at A.remaining self.new)) }
    {
        match A::read(self.reader, buffer) {
            Ok(n) => {
                self.counter.count += n;
                Ok(n)
            }
            Err(e) => Err(Error::Io(self.keep.keep(e))),
        }
    }

    // Fills the buffer, which does not pass the greatest offset. A read of nothing or a failure of
    // the device ends it.
    #[inline(always)]
    fn fill_within(&mut self, buffer: &mut [u8]) -> Result<(), Error<K::Kept>>
        requires { count_at self.old + length buffer.old ≤ usize.MAX }
        ensures same { IsSameCursor self.old self.new }
        ensures taken { Moves A.remaining self.old self.new
            (λ b. IsFillTaken b (count_at self.old) buffer.new result) }
        ensures ended { IfErr result (λ e. HasEndedAt A.can_fail A.remaining self.new e) }
    {
        let mut filled = 0;
        while filled < buffer.len() {
            let n = self.read_some(&mut buffer[filled..])?;
            if n == 0 {
                return Err(end_of_bytes(self.keep));
            }
            filled += n;
        }
        Ok(())
    }

    // Fills the buffer, and takes nothing where that would pass the greatest offset.
    #[inline(always)]
    pub(crate) fn fill(&mut self, buffer: &mut [u8]) -> Result<(), Error<K::Kept>>
        ensures same { IsSameCursor self.old self.new }
        ensures taken { Moves A.remaining self.old self.new
            (λ b. IsFillTaken b (count_at self.old) buffer.new result) }
        ensures ended { IfErr result (λ e. HasEndedAt A.can_fail A.remaining self.new e) }
    {
        if usize::MAX - self.counter.count < buffer.len() {
            return Err(Error::TooLong);
        }
        self.fill_within(buffer)
    }
}
