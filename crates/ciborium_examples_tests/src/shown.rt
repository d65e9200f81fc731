//! A reader with a buffer, which shows few bytes at a time, and may fail.
use std::io::{self, BufRead, ErrorKind, Read};

/// How fills fail.
#[derive(Clone, Copy, Debug)]
pub enum Fault {
    /// It answers an error.
    Breaks,
    /// It answers the error of an end, though bytes are left.
    SaysItEnded,
    /// It shows nothing, though bytes are left.
    ShowsNothing,
}

/// Shows its bytes, so many at most at a time, and fails at one of its fills.
#[derive(Drop)]
pub struct Shown<'a> {
    bytes: &'a [u8],
    most: usize,
    fault: Option<(usize, Fault)>,
    /// How many fills were asked for.
    pub fills: usize,
}

impl<'a> Shown<'a> {
    /// A fault is the number of a fill, from 0 on, and how it fails.
    pub fn new(bytes: &'a [u8], most: usize, fault: Option<(usize, Fault)>) -> Shown<'a> {
        Shown {
            bytes,
            most,
            fault,
            fills: 0,
        }
    }

    /// The bytes that are left.
    pub fn left(&self) -> &'a [u8] {
        self.bytes
    }

    // How many bytes the next fill shows.
    fn fill(&mut self) -> io::Result<usize> {
        let number = self.fills;
        self.fills = number.saturating_add(1);
        match self.fault {
            Some((at, Fault::Breaks)) if number == at => {
                Err(io::Error::from(ErrorKind::ConnectionReset))
            }
            Some((at, Fault::SaysItEnded)) if number == at => {
                Err(io::Error::from(ErrorKind::UnexpectedEof))
            }
            Some((at, Fault::ShowsNothing)) if number == at => Ok(0),
            _ => Ok(self.bytes.len().min(self.most)),
        }
    }
}

impl<'a> BufRead for Shown<'a> {
    fn fill_buf(&mut self) -> io::Result<&[u8]> {
        let size = self.fill()?;
        let size = size.min(self.bytes.len());
        Ok(&self.bytes[..size])
    }

    fn consume(&mut self, amount: usize) {
        let taken = amount.min(self.bytes.len());
        self.bytes = &self.bytes[taken..];
    }
}

// A read takes of what a fill shows.
impl<'a> Read for Shown<'a> {
    fn read(&mut self, buffer: &mut [u8]) -> io::Result<usize> {
        let size = self.fill()?;
        let taken = size.min(self.bytes.len()).min(buffer.len());
        buffer[..taken].copy_from_slice(&self.bytes[..taken]);
        self.consume(taken);
        Ok(taken)
    }
}
