//! Reads that a signal interrupts.

ghost use Rattle.std.specs.Prelude.{◌≡◌, ◌≢◌, IfErr};
ghost use Rattle.std.specs.Io.{ReadsAtMost};
ghost use Rattle.std.specs.Io.KnownBytes.{ReadConsumes};
ghost use Rattle.std.specs.IoError.{error_kind};

use std::io::{self, ErrorKind, Read};

/// A reader that asks its device again where it was interrupted.
#[derive(Drop)]
pub struct Retrying<R> {
    device: R,
}

impl<R: Read> Retrying<R> {
    /// Reads from this device.
    pub fn new(device: R) -> Retrying<R>
        ensures { result.device ≡ device }
    {
        Retrying { device }
    }
}

impl<R: Read> Read for Retrying<R> {
    ghost remaining = { λ reader. R.remaining reader.device };

    // No byte is lost where it was interrupted, and no caller is told.
    fn read(&mut self, buffer: &mut [u8]) -> io::Result<usize>
        ensures bound { ReadsAtMost result buffer.new }
        ensures bytes { ReadConsumes (R.remaining self.old.device) (R.remaining self.new.device)
            result buffer.new }
        ensures retried { IfErr result (λ e. error_kind e ≢ ErrorKind.Interrupted) }
    {
        for _ in 0..u64::MAX {
            match self.device.read(buffer) {
                Err(error) if error.kind() == ErrorKind::Interrupted => {}
                read => return read,
            }
        }
        Err(io::Error::from(ErrorKind::Other))
    }
}
