//! Calls of a decoder that take no memory: heads that are given back, bytes that are read exactly,
//! and errors that are kept aside.

use crate::devices::{Cut, Failure as Fault, Source};
use crate::outcome::{Failure, expect, judge_head};
use ciborium::ll::{Access, Buffered, Decoder, Error, Header, Plain, Slice};
use std::io::{self, ErrorKind};

/// Makes each of these calls.
///
/// # Errors
///
/// `Wrong` where an answer is not the right one.
pub fn make_head_calls() -> Result<(), Failure> {
    measure_heads()?;
    forget_heads()?;
    read_too_far()?;
    keep_an_error()?;
    read_no_further()?;
    read_where_bytes_stand()?;
    begin_behind_a_prefix()?;
    end_behind_a_prefix()?;
    for fault in [
        Fault::Kind(ErrorKind::Interrupted),
        Fault::Kind(ErrorKind::ConnectionReset),
        Fault::Nothing,
    ] {
        fail_once(fault)?;
        keep_each_error(fault)?;
        fail_first(fault)?;
    }
    Ok(())
}

// The head that was taken last is measured; one that was given back stays measured.
fn measure_heads() -> Result<(), Failure> {
    let mut reader: &[u8] = &[0x19, 0x01, 0x00, 0xf6, 0x18];
    let mut decoder = Decoder::new(&mut reader);
    expect(decoder.head_len() == 0)?;
    let header = decoder.pull().map_err(judge_head)?;
    expect(decoder.head_len() == 3)?;
    decoder.push(header, 0);
    expect(decoder.head_len() == 3)?;
    expect(decoder.pull().map_err(judge_head)? == header)?;
    expect(decoder.head_len() == 3)?;
    decoder.pull().map_err(judge_head)?;
    expect(decoder.head_len() == 1 && decoder.last_offset() == 3)?;
    expect(decoder.pull().is_err() && decoder.head_len() == 1)
}

// A head that was given back is forgotten, and the bytes behind it are read exactly.
fn forget_heads() -> Result<(), Failure> {
    let mut reader: &[u8] = &[0x83, 0x01, 0x02, 0x03, 0x04];
    let mut decoder = Decoder::new(&mut reader);
    let header = decoder.pull().map_err(judge_head)?;
    decoder.push(header, 0);
    expect(decoder.offset() == 0)?;
    expect(decoder.pull().map_err(judge_head)? == Header::Array(Some(3)))?;
    decoder.push(Header::Break, 9);
    decoder.forget();
    expect(decoder.offset() == 1)?;
    let mut two = [0; 2];
    decoder.read_exact(&mut two).map_err(judge_head)?;
    expect(two == [1, 2] && decoder.offset() == 3)?;
    match decoder.read_exact(&mut [0; 3]) {
        Err(Error::Io(error)) => expect(error.kind() == ErrorKind::UnexpectedEof),
        _ => Err(Failure::Wrong),
    }
}

// Nothing is read where the last byte would pass the greatest offset.
fn read_too_far() -> Result<(), Failure> {
    let mut reader: &[u8] = &[0x01, 0x02];
    let refused = Decoder::at(&mut reader, usize::MAX - 1).read_exact(&mut [0; 2]);
    expect(matches!(refused, Err(Error::TooLong)) && reader.len() == 2)
}

// The reader's error is put aside, and the answer holds nothing of it.
fn keep_an_error() -> Result<(), Failure> {
    let mut reader: &[u8] = &[0x00, 0x18];
    let mut kept: Option<io::Error> = None;
    let mut decoder = Decoder::new(&mut reader);
    let first = decoder.pull_next_keeping(&mut kept);
    expect(matches!(first, Ok(Header::Positive(0))) && kept.is_none())?;
    let second = decoder.pull_next_keeping(&mut kept);
    expect(matches!(second, Err(Error::Io(()))))?;
    expect(kept.map(|e| e.kind()) == Some(ErrorKind::UnexpectedEof))
}

// No offset passes the greatest one.
fn read_no_further() -> Result<(), Failure> {
    let mut reader: &[u8] = &[0x01, 0x02, 0x03];
    let mut decoder = Decoder::at(&mut reader, usize::MAX - 2);
    expect(decoder.pull().map_err(judge_head)? == Header::Positive(1))?;
    expect(decoder.pull().map_err(judge_head)? == Header::Positive(2))?;
    expect(matches!(decoder.pull(), Err(Error::TooLong)))?;
    expect(decoder.offset() == usize::MAX && reader.len() == 1)
}

// A head and what follows it are taken where they stand, and no byte behind them.
fn read_where_bytes_stand() -> Result<(), Failure> {
    let bytes: &[u8] = &[0x19, 0x01, 0x00, 0x05, 0x06, 0x07];
    take_two::<Plain>(bytes)?;
    take_two::<Slice>(bytes)?;
    take_two::<Buffered>(bytes)
}

// The number 256, and two of the three bytes behind it.
fn take_two<'s, A: Access<&'s [u8]>>(bytes: &'s [u8]) -> Result<(), Failure> {
    let mut reader = bytes;
    let mut decoder = Decoder::<&'s [u8], A>::begin(&mut reader, 4);
    expect(decoder.pull().map_err(judge_head)? == Header::Positive(256))?;
    expect(decoder.last_offset() == 4 && decoder.head_len() == 3 && decoder.offset() == 7)?;
    let mut two = [0; 2];
    decoder.read_exact(&mut two).map_err(judge_head)?;
    expect(two == [5, 6] && decoder.offset() == 9 && reader == [7].as_slice())
}

// Behind a prefix a sequence has a first head.
fn begin_behind_a_prefix() -> Result<(), Failure> {
    let mut reader: &[u8] = b"CBOR\x19\x01\x00";
    let mut decoder = Decoder::new(&mut reader);
    let mut prefix = [0; 4];
    decoder.read_exact(&mut prefix).map_err(judge_head)?;
    expect(prefix == *b"CBOR" && decoder.offset() == 4)?;
    let first = decoder.pull_first().map_err(judge_head)?;
    expect(first == Some(Header::Positive(256)) && decoder.head_len() == 3)?;
    expect(decoder.last_offset() == 4 && decoder.offset() == 7)
}

// Or it ends there.
fn end_behind_a_prefix() -> Result<(), Failure> {
    let mut reader: &[u8] = b"CBOR";
    let mut decoder = Decoder::new(&mut reader);
    decoder.read_exact(&mut [0; 4]).map_err(judge_head)?;
    let first = decoder.pull_first().map_err(judge_head)?;
    expect(first.is_none() && decoder.head_len() == 0 && decoder.offset() == 4)
}

// The fault of a read is the answer of the call that makes it, and takes nothing. A read that gives
// nothing is the end for that call.
fn fail_once(fault: Fault) -> Result<(), Failure> {
    let mut reader = Source::new(&[0x18, 0x20], Cut::Most(2), Some((0, fault)));
    let mut decoder = Decoder::at(&mut reader, 4);
    decoder.push(Header::Tag(5), 3);
    expect(decoder.pull().map_err(judge_head)? == Header::Tag(5))?;
    expect(is_io(decoder.pull(), fault.kind(ErrorKind::UnexpectedEof)))?;
    expect(decoder.offset() == 4 && decoder.last_offset() == 4)?;
    expect(decoder.pull().map_err(judge_head)? == Header::Positive(32))?;
    expect(decoder.offset() == 6 && reader.reads == 3 && reader.asked == 3)
}

// Each error is put aside.
fn keep_each_error(fault: Fault) -> Result<(), Failure> {
    let mut reader = Source::new(&[0x07, 0x08], Cut::Most(2), Some((0, fault)));
    let mut kept: Option<io::Error> = None;
    let mut decoder = Decoder::new(&mut reader);
    let first = decoder.pull_next_keeping(&mut kept);
    expect(matches!(first, Err(Error::Io(()))))?;
    expect(kept.take().map(|e| e.kind()) == Some(fault.kind(ErrorKind::UnexpectedEof)))?;
    let second = decoder.pull_next_keeping(&mut kept);
    expect(matches!(second, Ok(Header::Positive(7))) && kept.is_none())?;
    expect(decoder.pull().map_err(judge_head)? == Header::Positive(8))
}

// A fault of the first read is no end of a sequence, but a read that gives nothing is.
fn fail_first(fault: Fault) -> Result<(), Failure> {
    let mut reader = Source::new(&[0x01, 0x02], Cut::Most(2), Some((0, fault)));
    let mut decoder = Decoder::new(&mut reader);
    match (decoder.pull_first(), fault) {
        (Ok(None), Fault::Nothing) => {}
        (Err(Error::Io(error)), Fault::Kind(kind)) => expect(error.kind() == kind)?,
        _ => return Err(Failure::Wrong),
    }
    let first = decoder.pull_first().map_err(judge_head)?;
    expect(first == Some(Header::Positive(1)) && decoder.offset() == 1)
}

// Whether no head was pulled for an error of this kind.
fn is_io(answer: Result<Header, Error<io::Error>>, kind: ErrorKind) -> bool {
    match answer {
        Err(Error::Io(error)) => error.kind() == kind,
        _ => false,
    }
}
