//! The ways to read a document, each with the time that it takes.

use crate::fault::Fault;
use crate::run::Run;
use ciborium::de::Deserialize;
use ciborium::{from_buf_reader, from_reader, from_slice};
use std::fs;
use std::io::BufReader;
use std::time::{Duration, Instant};

/// A way to read a document.
pub trait Way {
    /// Reads the document as a value of the type, and answers also what that took.
    fn read<T: Deserialize>(rt: &HostRuntime, run: &Run) -> Result<(T, Duration), Fault>;
}

/// By `from_reader`, from the bytes.
pub struct Plain;

impl Way for Plain {
    fn read<T: Deserialize>(rt: &HostRuntime, run: &Run) -> Result<(T, Duration), Fault> {
        let mut reader = run.bytes.as_slice();
        let start = Instant::now(rt)?;
        let value = from_reader(rt.alloc(), &mut reader)?;
        Ok((value, start.elapsed(rt)?))
    }
}

/// By `from_slice`.
pub struct Slice;

impl Way for Slice {
    fn read<T: Deserialize>(rt: &HostRuntime, run: &Run) -> Result<(T, Duration), Fault> {
        let start = Instant::now(rt)?;
        let value = from_slice(rt.alloc(), run.bytes.as_slice())?;
        Ok((value, start.elapsed(rt)?))
    }
}

/// By `from_buf_reader`, from the file, which was opened before.
pub struct Buffered;

impl Way for Buffered {
    fn read<T: Deserialize>(rt: &HostRuntime, run: &Run) -> Result<(T, Duration), Fault> {
        let mut reader = BufReader::new(rt.alloc(), fs::open(rt, run.path.as_str())?)?;
        let start = Instant::now(rt)?;
        let value = from_buf_reader(rt.alloc(), &mut reader)?;
        Ok((value, start.elapsed(rt)?))
    }
}

/// By `from_reader`, from the same file.
pub struct PlainFile;

impl Way for PlainFile {
    fn read<T: Deserialize>(rt: &HostRuntime, run: &Run) -> Result<(T, Duration), Fault> {
        let mut reader = BufReader::new(rt.alloc(), fs::open(rt, run.path.as_str())?)?;
        let start = Instant::now(rt)?;
        let value = from_reader(rt.alloc(), &mut reader)?;
        Ok((value, start.elapsed(rt)?))
    }
}
