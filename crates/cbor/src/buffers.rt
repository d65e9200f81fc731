//! The buffers for a line.

ghost use Rattle.std.specs.Prelude.{◌≡◌, IfOk, string_bytes};

use std::alloc::{AllocError, Global};

/// The buffers for a line. They are made once and used again for each line, so that they grow to
/// the longest line and then take no more memory.
#[derive(Drop)]
pub struct Buffers {
    /// The bytes of the line, and then the encoding of its item.
    pub bytes: Vec<u8>,
    /// The encoding of an item of a sequence.
    pub encoding: Vec<u8>,
    /// The text of the answer.
    pub text: Vec<u8>,
}

impl Buffers {
    /// Empty buffers, which take no memory.
    pub fn new(alloc: Global) -> Buffers {
        Buffers {
            bytes: Vec::new(alloc),
            encoding: Vec::new(alloc),
            text: Vec::new(alloc),
        }
    }

    /// The text of the answer. Each is UTF-8, so the error is unreachable in practice.
    pub fn into_answer(self) -> Result<String, AllocError>
        ensures { IfOk result (λ text. string_bytes text ≡ self.text.items) }
    {
        String::from_utf8(self.text).or(Err(AllocError))
    }
}
