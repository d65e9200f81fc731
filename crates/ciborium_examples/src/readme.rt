//! The examples of README and CALLING, as they stand there.

use ciborium::{Value, de, from_buf_reader, from_buf_reader_next};
use std::fs::File;
use std::io::{self, BufReader};

/// One value from a file, which is read in the buffer.
pub fn read_file(rt: &HostRuntime, path: &str) -> Result<Value, de::Error<io::Error>> {
    let file = File::open(rt, path)?;
    let mut reader = BufReader::new(rt.alloc(), file)?;
    from_buf_reader(rt.alloc(), &mut reader)
}

/// The sum of the numbers of a sequence (RFC 8742) in a file: `None` is its end, and a cut is `Io`.
pub fn sum_file(rt: &HostRuntime, path: &str) -> Result<u64, de::Error<io::Error>> {
    let file = File::open(rt, path)?;
    let mut reader = BufReader::new(rt.alloc(), file)?;
    let mut sum: u64 = 0;
    for _ in 0..u64::MAX {
        match from_buf_reader_next::<u32, _>(rt.alloc(), &mut reader)? {
            Some(n) => sum = sum.saturating_add(u64::from(n)),
            None => return Ok(sum),
        }
    }
    Err(de::Error::TooLong)
}
