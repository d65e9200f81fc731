//! A reader and a writer of few bytes at a time, that may fail.

use std::alloc::{AllocError, Global};
use std::io::{self, BufReader, ErrorKind, Read, Write};

/// How a device fails.
#[derive(Clone, Copy, Debug)]
pub enum Failure {
    /// One read or write answers an error of this kind.
    Kind(ErrorKind),
    /// One read gives nothing, or one write takes nothing, and those behind it go on.
    Nothing,
    /// Nothing is given or taken from then on.
    End,
}

/// Ways to fail that are all tried.
pub const FAILURES: [Failure; 7] = [
    Failure::Kind(ErrorKind::Interrupted),
    Failure::Kind(ErrorKind::WouldBlock),
    Failure::Kind(ErrorKind::ConnectionReset),
    Failure::Kind(ErrorKind::BrokenPipe),
    Failure::Kind(ErrorKind::Other),
    Failure::Nothing,
    Failure::End,
];

impl Failure {
    /// The kind of error that a call then answers: of a reader that ended, or of a writer that took
    /// nothing, the one given.
    pub fn kind(self, ended: ErrorKind) -> ErrorKind {
        match self {
            Failure::Kind(kind) => kind,
            Failure::Nothing | Failure::End => ended,
        }
    }
}

/// How many bytes a read gives at most.
#[derive(Clone, Copy, Debug)]
pub enum Cut {
    /// The same number at each read.
    Most(usize),
    /// A number that is drawn at each read, from this seed on.
    Drawn(u64),
}

impl Cut {
    /// The most bytes of the next read.
    fn draw(&mut self) -> usize {
        match self {
            Cut::Most(most) => *most,
            Cut::Drawn(state) => {
                *state = state
                    .wrapping_mul(6364136223846793005)
                    .wrapping_add(1442695040888963407);
                size_of_read(*state >> 33)
            }
        }
    }
}

// A size for a number that was drawn: mostly of a few bytes, and up to 300 else.
fn size_of_read(drawn: u64) -> usize {
    let most = if drawn.is_multiple_of(4) { 300 } else { 9 };
    1 + (drawn / 4 % most) as usize
}

/// How readers of these bytes cut them: one byte a read, three, and so many as are drawn from a
/// seed that the bytes decide.
pub fn cuts_of(bytes: &[u8]) -> [Cut; 3] {
    let mut seed = 0xcbf29ce484222325u64;
    for byte in bytes {
        seed = (seed ^ u64::from(*byte)).wrapping_mul(0x100000001b3);
    }
    [Cut::Most(1), Cut::Most(3), Cut::Drawn(seed)]
}

/// Gives its bytes, cut into reads, fails at one of its reads, and counts what it is asked for.
#[derive(Drop)]
pub struct Source<'a> {
    bytes: &'a [u8],
    cut: Cut,
    fault: Option<(usize, Failure)>,
    /// How many reads were made.
    pub reads: usize,
    /// How many bytes they asked for.
    pub asked: usize,
    /// Whether it has failed.
    pub failed: bool,
}

impl<'a> Source<'a> {
    /// A source of these bytes. A fault is the number of a read, from 0 on, and how it fails.
    pub fn new(bytes: &'a [u8], cut: Cut, fault: Option<(usize, Failure)>) -> Source<'a> {
        Source {
            bytes,
            cut,
            fault,
            reads: 0,
            asked: 0,
            failed: false,
        }
    }

    /// How many bytes are left.
    pub fn left(&self) -> usize {
        self.bytes.len()
    }
}

impl<'a> Read for Source<'a> {
    fn read(&mut self, buffer: &mut [u8]) -> io::Result<usize> {
        let number = self.reads;
        self.reads = number.saturating_add(1);
        self.asked = self.asked.saturating_add(buffer.len());
        if let Some((at, failure)) = self.fault
            && at == number
        {
            self.failed = true;
            match failure {
                Failure::Kind(kind) => return Err(io::Error::from(kind)),
                Failure::Nothing => return Ok(0),
                Failure::End => self.bytes = &self.bytes[..0],
            }
        }
        let taken = self.bytes.len().min(self.cut.draw()).min(buffer.len());
        buffer[..taken].copy_from_slice(&self.bytes[..taken]);
        self.bytes = &self.bytes[taken..];
        Ok(taken)
    }
}

/// A buffer of so many bytes over a source.
///
/// # Errors
///
/// `AllocError` where an allocation fails for the buffer.
pub fn buffer<'a>(
    alloc: Global,
    capacity: usize,
    source: Source<'a>,
) -> Result<BufReader<Source<'a>>, AllocError> {
    BufReader::with_capacity(alloc, capacity, source).map_err(|_| AllocError)
}

/// How many bytes are left of a source and of what its buffer holds.
pub fn left_behind(reader: &BufReader<Source<'_>>) -> usize {
    reader
        .buffer()
        .len()
        .saturating_add(reader.get_ref().left())
}

/// Holds what is written, at most so many bytes a write, and may fail at one of its writes.
#[derive(Drop)]
pub struct Sink {
    most: usize,
    fault: Option<(usize, Failure)>,
    /// What was written.
    pub held: Vec<u8>,
    /// How many writes were made.
    pub writes: usize,
    /// Whether it was flushed.
    pub flushed: bool,
    /// Whether it has failed.
    pub failed: bool,
}

impl Sink {
    /// An empty sink. A fault is the number of a write, from 0 on, and how it fails.
    pub fn new(alloc: Global, most: usize, fault: Option<(usize, Failure)>) -> Sink {
        Sink {
            most,
            fault,
            held: Vec::new(alloc),
            writes: 0,
            flushed: false,
            failed: false,
        }
    }
}

impl Write for Sink {
    fn write(&mut self, buffer: &[u8]) -> io::Result<usize> {
        let number = self.writes;
        self.writes = number.saturating_add(1);
        if let Some((at, failure)) = self.fault
            && at == number
        {
            self.failed = true;
            match failure {
                Failure::Kind(kind) => return Err(io::Error::from(kind)),
                Failure::Nothing => return Ok(0),
                Failure::End => self.most = 0,
            }
        }
        let taken = buffer.len().min(self.most);
        self.held.extend_from_slice(&buffer[..taken])?;
        Ok(taken)
    }

    fn flush(&mut self) -> io::Result<()> {
        self.flushed = true;
        Ok(())
    }
}
