//! Heads and bytes to a writer.

ghost use Rattle.std.specs.Prelude.{◌≡◌, IsSome, OnErr};
ghost use Rattle.ciborium_ll.specs.Header.{IsWritable, header_bytes};
ghost use Rattle.ciborium_ll.specs.Writing.{HasSameWriter, Puts, writer_of};

use crate::header::Header;
use crate::writing::{self, Failed};
use std::io::{self, Write};

/// Writes heads and payloads to a borrowed writer (RFC 8949, section 3).
///
/// Each call writes all of its bytes or returns an error. The first error of the writer, even
/// `Interrupted`, ends the call and is returned; a write that takes nothing is a `WriteZero`.
/// Nothing is buffered, and nothing is flushed.
#[derive(Drop)]
pub struct Encoder<'a, W> {
    writer: &'a mut W,
}

impl<'a, W: Write> Encoder<'a, W> {
    /// An encoder that appends to what the writer holds. Making it writes nothing.
    pub fn new(writer: &'a mut W) -> Encoder<'a, W>
        ensures same_writer { (writer_of result).ghost_name ≡ writer.entry.ghost_name }
        ensures unchanged { (writer_of result).now ≡ writer.old }
    {
        Encoder { writer }
    }

    /// Writes the head in its shortest form (RFC 8949, section 4.1).
    ///
    /// At an error only a strict prefix of the head was written.
    ///
    /// Two kinds of header may not be pushed: a float, whose raw bytes are not in its `Header`, and
    /// a simple value from 24 to 31, which has no head (section 3.3).
    #[inline(always)]
    pub fn push(&mut self, header: Header) -> io::Result<()>
        requires { IsWritable header }
        ensures same_writer { HasSameWriter self.old self.new }
        ensures bytes { Puts W.contents self.old self.new result (header_bytes header) }
    {
        let mut failure = None;
        match self.push_keeping(header, &mut failure) {
            Ok(()) => Ok(()),
            Err(Failed) => match failure {
                Some(error) => Err(error),
                None => unreachable!(),
            },
        }
    }

    /// Writes the bytes as they are, such as the payload behind a string's head (RFC 8949,
    /// section 3.1).
    ///
    /// At an error only a strict prefix of the bytes was written.
    #[inline(always)]
    pub fn write_all(&mut self, bytes: &[u8]) -> io::Result<()>
        ensures same_writer { HasSameWriter self.old self.new }
        ensures bytes { Puts W.contents self.old self.new result bytes.now }
    {
        let mut failure = None;
        match self.write_all_keeping(bytes, &mut failure) {
            Ok(()) => Ok(()),
            Err(Failed) => match failure {
                Some(error) => Err(error),
                None => unreachable!(),
            },
        }
    }

    /// Does what `push` does, and keeps the writer's error in `failure`. An `io::Error` is large,
    /// and this result is small, for a caller that writes many heads.
    #[inline(always)]
    pub fn push_keeping(
        &mut self,
        header: Header,
        failure: &mut Option<io::Error>,
    ) -> Result<(), Failed>
        requires { IsWritable header }
        ensures same_writer { HasSameWriter self.old self.new }
        ensures bytes { Puts W.contents self.old self.new result (header_bytes header) }
        ensures kept { OnErr result (IsSome failure.new) }
    {
        writing::write_head(self.writer, header, failure)
    }

    /// Does what `write_all` does, and keeps the writer's error in `failure`.
    #[inline(always)]
    pub fn write_all_keeping(
        &mut self,
        bytes: &[u8],
        failure: &mut Option<io::Error>,
    ) -> Result<(), Failed>
        ensures same_writer { HasSameWriter self.old self.new }
        ensures bytes { Puts W.contents self.old self.new result bytes.now }
        ensures kept { OnErr result (IsSome failure.new) }
    {
        writing::write_all(self.writer, bytes, failure)
    }
}
