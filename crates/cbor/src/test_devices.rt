//! An input and an output that may fail, and a run of the program on them.

ghost use Rattle.std.specs.Prelude.{Some};

use crate::files::Opener;
use crate::run::run;
use std::alloc::{AllocError, Global};
use std::cell::Cell;
use std::io::{self, ErrorKind, Read, Write};

/// Gives its bytes, at most so many a read, after a read that is interrupted, and then ends or
/// fails.
#[derive(Drop)]
pub struct Source<'a> {
    bytes: &'a [u8],
    most: usize,
    fault: Option<ErrorKind>,
    reads: usize,
}

impl<'a> Source<'a> {
    /// A source of these bytes, at most so many a read, that ends by this fault.
    pub fn new(bytes: &'a [u8], most: usize, fault: Option<ErrorKind>) -> Source<'a> {
        Source {
            bytes,
            most,
            fault,
            reads: 0,
        }
    }

    /// How often it was read.
    pub fn reads(&self) -> usize {
        self.reads
    }
}

impl<'a> Read for Source<'a> {
    fn read(&mut self, buffer: &mut [u8]) -> io::Result<usize> {
        let number = self.reads;
        self.reads = number.saturating_add(1);
        if number == 0 {
            return Err(io::Error::from(ErrorKind::Interrupted));
        }
        if self.bytes.is_empty()
            && let Some(kind) = self.fault
        {
            return Err(io::Error::from(kind));
        }
        let taken = self.bytes.len().min(self.most).min(buffer.len());
        buffer[..taken].copy_from_slice(&self.bytes[..taken]);
        self.bytes = &self.bytes[taken..];
        Ok(taken)
    }
}

/// Files by name, each with its bytes and the fault that it ends by.
#[derive(Drop)]
pub struct Shelf<'a> {
    files: &'a [(&'a str, &'a [u8], Option<ErrorKind>)],
}

impl<'a> Shelf<'a> {
    /// A shelf of these files.
    pub fn new(files: &'a [(&'a str, &'a [u8], Option<ErrorKind>)]) -> Shelf<'a> {
        Shelf { files }
    }
}

impl<'a> Opener for Shelf<'a> {
    type File = Source<'a>;

    fn open(&self, name: &str) -> io::Result<Source<'a>> {
        for &(known, bytes, fault) in self.files {
            if known == name {
                return Ok(Source::new(bytes, 3, fault));
            }
        }
        Err(io::Error::from(ErrorKind::NotFound))
    }
}

/// The same bytes under every name, so that it is known what each file holds.
#[derive(Drop)]
pub struct SameFile<'a> {
    bytes: &'a [u8],
}

impl<'a> SameFile<'a> {
    /// Files of these bytes.
    pub fn new(bytes: &'a [u8]) -> SameFile<'a> {
        SameFile { bytes }
    }
}

impl<'a> Opener for SameFile<'a> {
    type File = &'a [u8];

    ghost contents = { λ files name. Some files.bytes.now };

    fn open(&self, _name: &str) -> io::Result<&'a [u8]> {
        Ok(self.bytes)
    }
}

/// Gives bytes, fails once, and then gives others.
#[derive(Drop)]
pub struct Mended<'a> {
    before: &'a [u8],
    fault: Option<ErrorKind>,
    after: &'a [u8],
}

impl<'a> Mended<'a> {
    /// A device of these bytes, which fails so between them.
    pub fn new(before: &'a [u8], kind: ErrorKind, after: &'a [u8]) -> Mended<'a> {
        Mended {
            before,
            fault: Some(kind),
            after,
        }
    }
}

impl<'a> Read for Mended<'a> {
    fn read(&mut self, buffer: &mut [u8]) -> io::Result<usize> {
        if !self.before.is_empty() {
            return self.before.read(buffer);
        }
        match self.fault.take() {
            Some(kind) => Err(io::Error::from(kind)),
            None => self.after.read(buffer),
        }
    }
}

/// Holds so many bytes, and fails where there is room for no more, or where it is flushed.
#[derive(Drop)]
pub struct Device {
    held: Vec<u8>,
    room: usize,
    flush_fails: bool,
}

impl Device {
    /// An empty device with room for so many bytes.
    pub fn new(alloc: Global, room: usize, flush_fails: bool) -> Device {
        Device {
            held: Vec::new(alloc),
            room,
            flush_fails,
        }
    }

    /// The bytes that were written.
    pub fn held(&self) -> &[u8] {
        &self.held
    }
}

impl Write for Device {
    fn write(&mut self, buffer: &[u8]) -> io::Result<usize> {
        let taken = buffer.len().min(self.room);
        if taken == 0 {
            return Err(io::Error::from(ErrorKind::StorageFull));
        }
        self.held.extend_from_slice(&buffer[..taken])?;
        self.room -= taken;
        Ok(taken)
    }

    fn flush(&mut self) -> io::Result<()> {
        if self.flush_fails {
            return Err(io::Error::from(ErrorKind::BrokenPipe));
        }
        Ok(())
    }
}

/// Gives a line a read, and fails where one is asked for before each line so far is answered.
#[derive(Drop)]
pub struct Asker<'a> {
    lines: &'a [&'a str],
    given: usize,
    answered: &'a Cell<usize>,
}

impl<'a> Asker<'a> {
    /// An asker of these lines, which counts on the answers so far.
    pub fn new(lines: &'a [&'a str], answered: &'a Cell<usize>) -> Asker<'a> {
        Asker {
            lines,
            given: 0,
            answered,
        }
    }

    /// How many lines it gave.
    pub fn given(&self) -> usize {
        self.given
    }
}

impl<'a> Read for Asker<'a> {
    fn read(&mut self, buffer: &mut [u8]) -> io::Result<usize> {
        if self.answered.get() != self.given {
            return Err(io::Error::from(ErrorKind::Other));
        }
        let Some(line) = self.lines.get(self.given) else {
            return Ok(0);
        };
        let taken = line.len().min(buffer.len());
        buffer[..taken].copy_from_slice(&line.as_bytes()[..taken]);
        self.given = self.given.saturating_add(1);
        Ok(taken)
    }
}

/// Counts the lines that are written.
#[derive(Drop)]
pub struct Listener<'a> {
    answered: &'a Cell<usize>,
}

impl<'a> Listener<'a> {
    /// A listener that counts so.
    pub fn new(answered: &'a Cell<usize>) -> Listener<'a> {
        Listener { answered }
    }
}

impl<'a> Write for Listener<'a> {
    fn write(&mut self, buffer: &[u8]) -> io::Result<usize> {
        for &byte in buffer {
            if byte == b'\n' {
                self.answered.set(self.answered.get().saturating_add(1));
            }
        }
        Ok(buffer.len())
    }

    fn flush(&mut self) -> io::Result<()> {
        Ok(())
    }
}

/// Counts the lines that are written, once they are flushed.
#[derive(Drop)]
pub struct Viewer<'a> {
    written: usize,
    seen: &'a Cell<usize>,
}

impl<'a> Viewer<'a> {
    /// A viewer that counts so.
    pub fn new(seen: &'a Cell<usize>) -> Viewer<'a> {
        Viewer { written: 0, seen }
    }
}

impl<'a> Write for Viewer<'a> {
    fn write(&mut self, buffer: &[u8]) -> io::Result<usize> {
        for &byte in buffer {
            if byte == b'\n' {
                self.written = self.written.saturating_add(1);
            }
        }
        Ok(buffer.len())
    }

    fn flush(&mut self) -> io::Result<()> {
        self.seen.set(self.written);
        Ok(())
    }
}

/// Counts the calls, and takes all bytes.
#[derive(Drop)]
pub struct Tally {
    writes: usize,
    flushes: usize,
}

impl Tally {
    /// A tally of no calls.
    pub fn new() -> Tally {
        Tally {
            writes: 0,
            flushes: 0,
        }
    }

    /// How often it was written to, and flushed.
    pub fn calls(&self) -> (usize, usize) {
        (self.writes, self.flushes)
    }
}

impl Write for Tally {
    fn write(&mut self, buffer: &[u8]) -> io::Result<usize> {
        self.writes = self.writes.saturating_add(1);
        Ok(buffer.len())
    }

    fn flush(&mut self) -> io::Result<()> {
        self.flushes = self.flushes.saturating_add(1);
        Ok(())
    }
}

/// The status that a run ended with, and what it wrote.
#[derive(Drop)]
pub struct Ended {
    pub status: u8,
    pub output: Vec<u8>,
    pub errors: Vec<u8>,
}

/// Runs the program with these words, where no file can be opened.
pub fn run_on(
    alloc: Global,
    texts: &[&str],
    input: &mut Source<'_>,
    output: Device,
) -> Result<Ended, AllocError> {
    run_on_files(alloc, texts, input, &Shelf::new(&[]), output)
}

/// Runs the program with these words, where these files can be opened.
pub fn run_on_files(
    alloc: Global,
    texts: &[&str],
    input: &mut Source<'_>,
    files: &Shelf<'_>,
    mut output: Device,
) -> Result<Ended, AllocError> {
    let mut words = Vec::new(alloc);
    for text in texts {
        words.push(String::from_str(alloc, text)?)?;
    }
    let mut errors = Vec::new(alloc);
    let status = run(alloc, &words, input, files, &mut output, &mut errors);
    Ok(Ended {
        status,
        output: output.held,
        errors,
    })
}

/// Runs the program with these words on a text, where nothing fails.
pub fn run_on_text(alloc: Global, texts: &[&str], text: &str) -> Result<Ended, AllocError> {
    let mut input = Source::new(text.as_bytes(), usize::MAX, None);
    run_on(
        alloc,
        texts,
        &mut input,
        Device::new(alloc, usize::MAX, false),
    )
}
