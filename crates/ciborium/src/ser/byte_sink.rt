//! A writer as what is written to.

ghost use Rattle.std.specs.Prelude.{◌≡◌, ◌++◌, IfErr, IfSome, OnOk};
ghost use Rattle.ciborium_ll.specs.Bytes.{AreBytes};
ghost use Rattle.ciborium_ll.specs.Header.{IsWritable, header_bytes};
ghost use Rattle.ciborium_ll.specs.Integer.{IsInRange};
ghost use Rattle.ciborium_value.specs.Encoding.{boolean_item, integer_item, written_bytes};
ghost use Rattle.ciborium_value.specs.Sinks.{bignum_item};
ghost use Rattle.ciborium_value.specs.WrittenItems.{IsWritten};
ghost use Rattle.ciborium.specs.Writes.{IsOutFor, PutsOut, out_of, refusal_cause};
ghost use Rattle.ciborium.specs.declared.ser.byte_sink.BareWriteError.TheVariants.{Io};

use ciborium_ll::tag::{BIGNEG, BIGPOS};
use ciborium_ll::{Encoder, Failed, Header, simple};
use ciborium_value::bignum::without_leading_zeros;
use ciborium_value::{Integer, Kind, Sink};
use std::convert::TryFrom;
use std::io::{self, ErrorKind, Write};

// Why a call was refused. The writer's error is kept aside in the sink: it is large, and a result
// that held it would be moved at every level.
#[derive(Clone, Copy, Drop)]
pub(super) enum BareWriteError {
    Io,
    Value(Kind),
    Memory,
}

// Writes each head and payload as it comes.
#[derive(Drop)]
pub(super) struct ByteSink<'a, W> {
    writer: &'a mut W,
    failure: Option<io::Error>,
}

impl<'a, W: Write> ByteSink<'a, W> {
    pub(super) fn new(writer: &'a mut W) -> ByteSink<'a, W>
        ensures same_writer { result.writer.ghost_name ≡ writer.entry.ghost_name }
        ensures unchanged { result.writer.now ≡ writer.old }
    {
        ByteSink {
            writer,
            failure: None,
        }
    }

    // The error that the writer gave. There is one wherever a call was refused as `Io`.
    pub(super) fn take_failure(&mut self) -> io::Error
        ensures given { IfSome self.old.failure (λ error. result ≡ error) }
        ensures writer { self.new.writer ≡ self.old.writer }
    {
        match self.failure.take() {
            Some(error) => error,
            None => io::Error::from(ErrorKind::Other),
        }
    }

    // Writes a head.
    #[inline(always)]
    fn push(&mut self, header: Header) -> Result<(), BareWriteError>
        requires { IsWritable header }
        ensures same_writer { self.new.writer.ghost_name ≡ self.old.writer.ghost_name }
        ensures bytes { PutsOut W.contents self.old self.new result
            (header_bytes header) }
        ensures io { IfErr result (λ e. e ≡ Io) }
    {
        match Encoder::new(self.writer).push_keeping(header, &mut self.failure) {
            Ok(()) => Ok(()),
            Err(Failed) => Err(BareWriteError::Io),
        }
    }

    // Writes bytes as they are.
    #[inline(always)]
    fn write_all(&mut self, bytes: &[u8]) -> Result<(), BareWriteError>
        ensures same_writer { self.new.writer.ghost_name ≡ self.old.writer.ghost_name }
        ensures bytes { PutsOut W.contents self.old self.new result bytes.now }
        ensures io { IfErr result (λ e. e ≡ Io) }
    {
        match Encoder::new(self.writer).write_all_keeping(bytes, &mut self.failure) {
            Ok(()) => Ok(()),
            Err(Failed) => Err(BareWriteError::Io),
        }
    }

    // Writes the head of a string and its payload.
    #[inline(always)]
    fn write_string(&mut self, header: Header, payload: &[u8]) -> Result<(), BareWriteError>
        requires { IsWritable header }
        ensures same_writer { self.new.writer.ghost_name ≡ self.old.writer.ghost_name }
        ensures bytes { PutsOut W.contents self.old self.new result
            (header_bytes header ++ payload.now) }
        ensures io { IfErr result (λ e. e ≡ Io) }
        ensures payload { OnOk result (AreBytes payload.now) }
    {
        self.push(header)?;
        self.write_all(payload)
    }

    // Writes a number that one head holds.
    #[inline(always)]
    fn write_integer(&mut self, number: Integer) -> Result<(), BareWriteError>
        ensures same_writer { self.new.writer.ghost_name ≡ self.old.writer.ghost_name }
        ensures bytes { PutsOut W.contents self.old self.new result
            (written_bytes (integer_item number)) }
        ensures io { IfErr result (λ e. e ≡ Io) }
        ensures written { OnOk result (IsWritten (integer_item number)) }
        ensures in_range { IsInRange number }
    {
        self.push(integer_head(number))
    }

    // Writes a bignum: the tag over the bytes of the number, without leading zeros.
    fn write_bignum(&mut self, tag: u64, number: u128) -> Result<(), BareWriteError>
        ensures same_writer { self.new.writer.ghost_name ≡ self.old.writer.ghost_name }
        ensures bytes { PutsOut W.contents self.old self.new result
            (written_bytes (bignum_item tag number)) }
        ensures io { IfErr result (λ e. e ≡ Io) }
        ensures written { OnOk result (IsWritten (bignum_item tag number)) }
    {
        let bytes = number.to_be_bytes();
        let shortest = without_leading_zeros(&bytes);
        self.push(Header::Tag(tag))?;
        self.write_string(Header::Bytes(Some(shortest.len())), shortest)
    }
}

// The head that is all of a number.
#[inline(always)]
fn integer_head(number: Integer) -> Header
    ensures writable { IsWritable result }
    ensures head { header_bytes result ≡ written_bytes (integer_item number) }
    ensures written { IsWritten (integer_item number) }
    ensures in_range { IsInRange number }
{
    match number.head() {
        (true, argument) => Header::Negative(argument),
        (false, argument) => Header::Positive(argument),
    }
}

// The head that is all of a boolean.
#[inline(always)]
fn boolean_head(boolean: bool) -> Header
    ensures writable { IsWritable result }
    ensures head { header_bytes result ≡ written_bytes (boolean_item boolean) }
    ensures written { IsWritten (boolean_item boolean) }
{
    match boolean {
        false => Header::Simple(simple::FALSE),
        true => Header::Simple(simple::TRUE),
    }
}

impl<W: Write> Sink for ByteSink<'_, W> {
    type Error = BareWriteError;

    ghost stands_at = { IsOutFor W.contents };

    ghost out = { out_of W.contents };

    ghost takes_memory = { ⊥ };

    ghost cause = { refusal_cause };

    ghost shows = { λ s p at. at.0 };

    #[inline(always)]
    fn integer(&mut self, number: i128) -> Result<(), BareWriteError> {
        match Integer::try_from(number) {
            Ok(number) => self.write_integer(number),
            Err(_) if number < 0 => self.write_bignum(BIGNEG, (-1 - number) as u128),
            Err(_) => self.write_bignum(BIGPOS, number as u128),
        }
    }

    #[inline(always)]
    fn unsigned(&mut self, number: u128) -> Result<(), BareWriteError> {
        match Integer::try_from(number) {
            Ok(number) => self.write_integer(number),
            Err(_) => self.write_bignum(BIGPOS, number),
        }
    }

    #[inline(always)]
    fn boolean(&mut self, boolean: bool) -> Result<(), BareWriteError> {
        self.push(boolean_head(boolean))
    }

    #[inline(always)]
    fn null(&mut self) -> Result<(), BareWriteError> {
        self.push(Header::Simple(simple::NULL))
    }

    #[inline(always)]
    fn text(&mut self, text: &str) -> Result<(), BareWriteError> {
        self.write_string(Header::Text(Some(text.len())), text.as_bytes())
    }

    #[inline(always)]
    fn bytes(&mut self, bytes: &[u8]) -> Result<(), BareWriteError> {
        self.write_string(Header::Bytes(Some(bytes.len())), bytes)
    }

    #[inline(always)]
    fn tag(&mut self, tag: u64) -> Result<(), BareWriteError> {
        self.push(Header::Tag(tag))
    }

    #[inline(always)]
    fn begin_array(&mut self, items: Option<usize>) -> Result<(), BareWriteError> {
        self.push(Header::Array(items))
    }

    #[inline(always)]
    fn begin_map(&mut self, pairs: Option<usize>) -> Result<(), BareWriteError> {
        self.push(Header::Map(pairs))
    }

    #[inline(always)]
    fn end(&mut self, count: Option<usize>) -> Result<(), BareWriteError> {
        match count {
            Some(_) => Ok(()),
            None => self.push(Header::Break),
        }
    }

    #[inline(always)]
    fn refuse(&self, kind: Kind) -> BareWriteError {
        BareWriteError::Value(kind)
    }

    #[inline(always)]
    fn memory(&self) -> BareWriteError {
        BareWriteError::Memory
    }
}
