//! How far a long input is read.

ghost use Rattle.std.specs.Prelude.{◌≡◌};
ghost use Rattle.std.specs.Io.{ReadsAtMost};
ghost use Rattle.std.specs.Io.KnownBytes.{ReadConsumes};

use std::io::{self, IsTerminal, Lock, Read, Write};
use std::time::Instant;

// How many bytes are a megabyte.
const MEGABYTE: u64 = 1_000_000;

/// A reader that tells once a second, behind the first one, how much of its device was read: on the
/// error output, where that is a terminal, on a line that the next one takes the place of.
#[derive(Drop)]
pub struct Progress<'a, R> {
    device: R,
    rt: &'a HostRuntime,
    // When reading began, where it is told of.
    begun: Option<Instant>,
    // How many seconds were told of.
    seconds: u64,
    bytes: u64,
}

impl<'a, R: Read> Progress<'a, R> {
    /// Reads from this device.
    pub fn new(rt: &'a HostRuntime, device: R) -> Progress<'a, R>
        ensures { result.device ≡ device }
    {
        let begun = if rt.stderr().is_terminal() {
            Instant::now(rt).ok()
        } else {
            None
        };
        Progress {
            device,
            rt,
            begun,
            seconds: 0,
            bytes: 0,
        }
    }

    // Tells how much was read, where a second more has passed.
    fn tell(&mut self)
        ensures { self.new.device ≡ self.old.device }
    {
        let Some(begun) = self.begun else {
            return;
        };
        let Ok(passed) = begun.elapsed(self.rt) else {
            return;
        };
        if passed.as_secs() <= self.seconds {
            return;
        }
        self.seconds = passed.as_secs();
        // A message that is refused has nowhere else to go.
        let _ = write!(self.rt.stderr().lock(), "\r{} MB", self.bytes / MEGABYTE);
    }

    // Ends the line that tells how much was read, if there is one.
    fn end(&mut self)
        ensures { self.new.device ≡ self.old.device }
    {
        if self.seconds > 0 {
            self.seconds = 0;
            self.begun = None;
            let _ = self.rt.stderr().lock().write_all(b"\n");
        }
    }
}

impl<'a, R: Read> Read for Progress<'a, R> {
    ghost remaining = { λ reader. R.remaining reader.device };

    fn read(&mut self, buffer: &mut [u8]) -> io::Result<usize>
        ensures bound { ReadsAtMost result buffer.new }
        ensures bytes { ReadConsumes (R.remaining self.old.device) (R.remaining self.new.device)
            result buffer.new }
    {
        let read = self.device.read(buffer);
        match read {
            Ok(0) => self.end(),
            Ok(count) => {
                self.bytes = self.bytes.saturating_add(count as u64);
                self.tell();
            }
            Err(_) => {}
        }
        read
    }
}
