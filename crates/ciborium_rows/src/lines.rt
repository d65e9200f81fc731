//! The lines of an input.

use std::io::{self, BufRead, BufReader, Read};

/// Reads a line, without the line feed at its end, or says that none is left.
///
/// # Errors
///
/// The input fails, or an allocation fails for the line.
pub fn read_line<R: Read>(input: &mut BufReader<R>, line: &mut Vec<u8>) -> io::Result<bool> {
    line.clear();
    if input.read_until(b'\n', line)? == 0 {
        return Ok(false);
    }
    if line.last() == Some(&b'\n') {
        line.pop();
    }
    Ok(true)
}
