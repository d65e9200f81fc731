//! Functions of an application, with an error type of its own: `?` throughout, as CALLING shows.

ghost use Rattle.std.specs.Prelude.{◌≡◌};
ghost use Rattle.ciborium_examples.specs.declared.application.CopyError.TheVariants as errors;

use crate::own_types::Message;
use ciborium::{de, from_buf_reader_next, ser, write_sequence};
use std::fs::File;
use std::io::{self, BufReader, BufWriter, Write};
use std::{error, fmt};

/// Why messages were not copied.
#[derive(Debug, Drop)]
pub enum CopyError {
    /// A file cannot be made, or does not take what was written.
    File(io::Error),
    /// What is read is no sequence of messages, or cannot be opened.
    Read(de::Error<io::Error>),
    /// Messages cannot be written.
    Write(ser::Error<io::Error>),
}

impl From<io::Error> for CopyError {
    ghost from_gives = { λ e f. f ≡ errors.File e };

    fn from(error: io::Error) -> CopyError {
        CopyError::File(error)
    }
}

impl From<de::Error<io::Error>> for CopyError {
    ghost from_gives = { λ e f. f ≡ errors.Read e };

    fn from(error: de::Error<io::Error>) -> CopyError {
        CopyError::Read(error)
    }
}

impl From<ser::Error<io::Error>> for CopyError {
    ghost from_gives = { λ e f. f ≡ errors.Write e };

    fn from(error: ser::Error<io::Error>) -> CopyError {
        CopyError::Write(error)
    }
}

impl fmt::Display for CopyError {
    fn fmt<W: fmt::Write>(&self, f: &mut fmt::Formatter<W>) -> fmt::Result {
        match self {
            CopyError::File(error) => write!(f, "the copy: {error}"),
            CopyError::Read(error) => write!(f, "the messages: {error}"),
            CopyError::Write(error) => write!(f, "the copy: {error}"),
        }
    }
}

impl error::Error for CopyError {}

/// The messages of one version in a file, which holds a sequence (RFC 8742).
pub fn read_version(
    rt: &HostRuntime,
    path: &str,
    version: u8,
) -> Result<Vec<Message>, de::Error<io::Error>> {
    let mut reader = BufReader::new(rt.alloc(), File::open(rt, path)?)?;
    let mut messages = Vec::new(rt.alloc());
    for _ in 0..u64::MAX {
        let Some(message) = from_buf_reader_next::<Message, _>(rt.alloc(), &mut reader)? else {
            return Ok(messages);
        };
        if message.version == version {
            messages.push(message)?;
        }
    }
    Err(de::Error::TooLong)
}

/// Copies the messages of one version into a new file, and answers how many they are.
pub fn copy_version(
    rt: &HostRuntime,
    from: &str,
    to: &str,
    version: u8,
) -> Result<usize, CopyError> {
    let messages = read_version(rt, from, version)?;
    let mut writer = BufWriter::new(rt.alloc(), File::create(rt, to)?)?;
    write_sequence(messages.as_slice(), &mut writer)?;
    writer.flush()?;
    Ok(messages.len())
}
