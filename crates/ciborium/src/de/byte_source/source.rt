//! The calls of a source.

ghost use Rattle.std.specs.Prelude.{Some};
ghost use Rattle.ciborium.specs.inner.ByteSources.{HasTakenSince, IsUnread, LevelStands, SeqOwes};
ghost use Rattle.ciborium.specs.inner.ByteSources.{ReadsValue, SeqStands, StandsBefore, fault_at};
ghost use Rattle.ciborium.specs.inner.ByteSources.{offset_of_next, seq_left, weight_left};

use crate::de::building::read_value;
use crate::de::byte_source::characters::{GREATEST_CHARACTER_SIZE, only_character};
use crate::de::byte_source::levels::is_one;
use crate::de::byte_source::names::label_type;
use crate::de::byte_source::scalars::{is_null, is_null_head, portable_value};
use crate::de::byte_source::{ByteLevel, ByteSeq, ByteSource, Left};
use crate::de::error::{BareReadError, Error};
use crate::de::spelling::AnySpelling;
use ciborium_ll::{Access, Header, simple};
use ciborium_value::{Kind, Labels, Source, Value};
use std::alloc::Global;

impl<'a, R, A: Access<R>> Source for ByteSource<'a, R, A> {
    type Error = BareReadError;

    type Seq = ByteSeq;

    type Level = ByteLevel;

    ghost stands_before = { StandsBefore A.remaining };

    ghost seq_stands = { SeqStands };

    ghost level_stands = { LevelStands };

    ghost left = { weight_left };

    ghost seq_left = { seq_left };

    ghost level_left = { λ level. 0 };

    ghost is_unread = { IsUnread A.remaining };

    ghost has_taken = { HasTakenSince A.remaining };

    ghost owes = { SeqOwes };

    ghost reads = { ReadsValue A.can_fail A.remaining };

    ghost cause = { fault_at A.can_fail A.remaining };

    ghost offset_ahead = { λ s. Some (offset_of_next s) };

    #[inline(always)]
    fn integer(&mut self) -> Result<(bool, u128), BareReadError> {
        let (number, _) = self.read_integer()?;
        Ok(number)
    }

    #[inline(always)]
    fn boolean(&mut self) -> Result<bool, BareReadError> {
        let (header, offset) = self.bare_head(false)?;
        match header {
            Header::Simple(number) => {
                if number == simple::FALSE {
                    return Ok(false);
                }
                if number == simple::TRUE {
                    return Ok(true);
                }
                Err(Error::Semantic(Some(offset), Kind::Bool))
            }
            _ => Err(Error::Semantic(Some(offset), Kind::Bool)),
        }
    }

    #[inline(always)]
    fn unit(&mut self) -> Result<(), BareReadError> {
        let (header, offset) = self.bare_head(false)?;
        match header {
            Header::Simple(number) => {
                if is_null(number) {
                    return Ok(());
                }
                Err(Error::Semantic(Some(offset), Kind::Unit))
            }
            _ => Err(Error::Semantic(Some(offset), Kind::Unit)),
        }
    }

    // A text that is longer than any character is not read.
    fn character(&mut self) -> Result<char, BareReadError> {
        let (header, offset) = self.bare_head(false)?;
        match header {
            Header::Text(len) => match len {
                Some(n) => {
                    if n > GREATEST_CHARACTER_SIZE {
                        return Err(Error::Semantic(Some(offset), Kind::Char));
                    }
                    let mut buffer = [0u8; GREATEST_CHARACTER_SIZE];
                    let payload = &mut buffer[..n];
                    self.fill(payload)?;
                    only_character(payload, offset)
                }
                None => Err(Error::Semantic(Some(offset), Kind::Char)),
            },
            _ => Err(Error::Semantic(Some(offset), Kind::Char)),
        }
    }

    #[inline(always)]
    fn text(&mut self, alloc: Global) -> Result<String, BareReadError> {
        let (header, offset) = self.bare_head(false)?;
        match header {
            Header::Text(len) => self.text_content(alloc, len),
            _ => Err(Error::Semantic(Some(offset), Kind::Text)),
        }
    }

    #[inline(always)]
    fn bytes(&mut self, alloc: Global) -> Result<Vec<u8>, BareReadError> {
        let (header, offset) = self.bare_head(false)?;
        match header {
            Header::Bytes(len) => self.bytes_content(alloc, len),
            Header::Array(count) => {
                let mut seq = self.enter(count, offset)?;
                self.read_byte_items(alloc, &mut seq)
            }
            _ => Err(Error::Semantic(Some(offset), Kind::Bytes)),
        }
    }

    #[inline(always)]
    fn name(&mut self, alloc: Global) -> Result<String, BareReadError> {
        self.name(alloc)
    }

    #[inline(always)]
    fn label<N: Labels>(&mut self, alloc: Global, labels: &N) -> Result<N::Place, BareReadError> {
        let (header, offset) = self.next_head()?;
        match header {
            Header::Text(len) => self.text_place(alloc, len, offset, labels),
            Header::Positive(n) => Ok(labels.find_number(false, u128::from(n))),
            Header::Negative(n) => Ok(labels.find_number(true, u128::from(n))),
            _ => {
                self.pending = Some((header, offset));
                self.place_of_type(alloc, label_type(header), labels)
            }
        }
    }

    #[inline(always)]
    fn null_ahead(&mut self) -> Result<bool, BareReadError> {
        let (header, offset) = self.next_head()?;
        let answer = is_null_head(&header);
        self.pending = Some((header, offset));
        Ok(answer)
    }

    #[inline(always)]
    fn begin_tag(&mut self) -> Result<(Option<u64>, ByteLevel), BareReadError> {
        let (header, offset) = self.next_head()?;
        if let Header::Break = header {
            return Err(Error::Semantic(Some(offset), Kind::Break));
        }
        let level = self.take_level()?;
        match header {
            Header::Tag(tag) => Ok((Some(tag), level)),
            _ => {
                self.pending = Some((header, offset));
                Ok((None, level))
            }
        }
    }

    #[inline(always)]
    fn end_tag(&mut self, level: ByteLevel) {
        self.levels = level.levels;
    }

    #[inline(always)]
    fn begin_variant(&mut self, alloc: Global) -> Result<(String, ByteLevel), BareReadError> {
        let (header, offset) = self.bare_head(false)?;
        match header {
            Header::Text(len) => {
                let level = self.take_level()?;
                let name = self.text_content(alloc, len)?;
                // The null that is the data is not in the bytes: it stands where the text does.
                self.pending = Some((Header::Simple(simple::NULL), offset));
                Ok((name, level))
            }
            Header::Map(count) => {
                if !is_one(count) {
                    return Err(Error::Semantic(Some(offset), Kind::Variant));
                }
                let level = self.take_level()?;
                let name = self.name(alloc)?;
                Ok((name, level))
            }
            _ => Err(Error::Semantic(Some(offset), Kind::Variant)),
        }
    }

    #[inline(always)]
    fn end_variant(&mut self, level: ByteLevel) {
        self.levels = level.levels;
    }

    #[inline(always)]
    fn begin_seq(&mut self, alloc: Global) -> Result<ByteSeq, BareReadError> {
        let (header, offset) = self.bare_head(false)?;
        match header {
            Header::Array(count) => self.enter(count, offset),
            Header::Bytes(len) => self.enter_bytes(alloc, len, offset),
            _ => Err(Error::Semantic(Some(offset), Kind::Array)),
        }
    }

    #[inline(always)]
    fn begin_map(&mut self) -> Result<ByteSeq, BareReadError> {
        let (header, offset) = self.bare_head(false)?;
        let Header::Map(count) = header else {
            return Err(Error::Semantic(Some(offset), Kind::Map));
        };
        self.enter(count, offset)
    }

    #[inline(always)]
    fn next(&mut self, seq: &mut ByteSeq) -> Result<bool, BareReadError> {
        match &mut seq.left {
            Left::Counted(n) => {
                if *n == 0 {
                    self.levels = seq.levels;
                    return Ok(false);
                }
                *n -= 1;
                Ok(true)
            }
            Left::Open => {
                let (header, offset) = self.next_head()?;
                match header {
                    Header::Break => {
                        self.levels = seq.levels;
                        Ok(false)
                    }
                    _ => {
                        self.pending = Some((header, offset));
                        Ok(true)
                    }
                }
            }
            Left::Bytes(bytes) => {
                // The byte before was not read.
                if self.pending.is_some() {
                    return Err(Error::Semantic(None, Kind::Other));
                }
                match bytes.next() {
                    Some(byte) => {
                        self.pending = Some((Header::Positive(u64::from(byte)), seq.offset));
                        Ok(true)
                    }
                    None => Ok(false),
                }
            }
        }
    }

    fn value(&mut self, alloc: Global) -> Result<Value, BareReadError> {
        if let Some((header, offset)) = self.pending.take() {
            if let Some(value) = portable_value(header) {
                return Ok(value);
            }
            self.decoder.push(header, offset);
        }
        read_value::<AnySpelling, R, A>(
            alloc,
            &mut self.decoder,
            self.scratch,
            self.levels,
            &mut self.failure,
        )
    }

    #[inline(always)]
    fn skip(&mut self, alloc: Global) -> Result<(), BareReadError> {
        self.skip(alloc)
    }

    #[inline(always)]
    fn refuse(&self, kind: Kind) -> BareReadError {
        Error::Semantic(None, kind)
    }

    #[inline(always)]
    fn offset(&self) -> Option<usize> {
        Some(match self.pending {
            Some((_, offset)) => offset,
            None => self.decoder.offset(),
        })
    }

    #[inline(always)]
    fn refuse_at(&self, offset: Option<usize>, kind: Kind) -> BareReadError {
        Error::Semantic(offset, kind)
    }

    #[inline(always)]
    fn memory(&self) -> BareReadError {
        Error::Memory
    }
}
