//! Texts of which only the beginning is there.

ghost use Rattle.std.specs.Prelude.{◌≡◌, ◌≤◌, ◌↔◌, length, IsTrue};
ghost use Rattle.std.specs.Str.{continuation_len};
ghost use Rattle.ciborium_ll.specs.ItemLengths.{BeginText};

use std::str;

/// Whether a text of `size` bytes can begin with these, of which there are at most so many.
pub(crate) fn begin_text(bytes: &[u8], size: usize) -> bool
    requires { length bytes.now ≤ size }
    ensures { IsTrue result ↔ BeginText size bytes.now }
{
    match str::from_utf8(bytes) {
        Ok(_) => true,
        Err(e) => match e.error_len() {
            Some(_) => false,
            None => {
                let at = e.valid_up_to();
                bytes_behind(bytes[at]) < size - at
            }
        },
    }
}

// How many bytes follow the first byte of a character.
fn bytes_behind(first: u8) -> usize
    ensures { result ≡ continuation_len first }
{
    if first < 0x80 {
        0
    } else if first < 0xe0 {
        1
    } else if first < 0xf0 {
        2
    } else {
        3
    }
}
