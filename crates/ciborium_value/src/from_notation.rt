//! Values from diagnostic notation (RFC 8949, section 8).

ghost use Rattle.std.specs.Prelude.{◌≡◌, IfErr, IfOk, ℕ};
ghost use Rattle.ciborium_value.specs.Denotes.{Denotes, DenotesWithin, MayRefuse};
ghost use Rattle.ciborium_value.specs.Tree.{Tree};
ghost use Rattle.ciborium_value.specs.View.{tree_of};

mod blanks;
mod byte_strings;
mod error;
mod levels;
mod numbers;
mod texts;
mod tokens;

use crate::tree::Value;
use blanks::skip_blanks;
pub use error::{NotationError, NotationFault};
use levels::{Due, Levels};
use std::alloc::Global;
use tokens::read_token;

/// How many levels a text may nest where no limit is given.
const NOTATION_LIMIT: usize = 256;

impl Value {
    /// The value that a text of diagnostic notation denotes (RFC 8949, section 8), within 256
    /// levels: `from_notation_with_limit` says the rest.
    ///
    /// # Errors
    ///
    /// Those of `from_notation_with_limit`.
    pub fn from_notation(alloc: Global, text: &str) -> Result<Value, NotationError>
        ensures ok { IfOk result (λ v. DenotesWithin 256 text.now (tree_of v)) }
        ensures only { IfOk result (λ v. (w : Tree) → Denotes text.now w → w ≡ tree_of v) }
        ensures refused { IfErr result (λ e. (l : ℕ) (v : Tree) → DenotesWithin l text.now v →
            MayRefuse 256 e l) }
    {
        Value::from_notation_with_limit(alloc, text, NOTATION_LIMIT)
    }

    /// The value that a text of diagnostic notation denotes.
    ///
    /// Numbers are decimal, or hex behind `0x`, octal behind `0o`, binary behind `0b`, from -2^127
    /// to 2^128 - 1; those that 64 bits do not hold are bignums, as in `from_i128`. Texts have the
    /// escapes of JSON, a byte string is `h'0a ff'` or `b64'Cv8'`, with white space anywhere in it,
    /// a tag's number stands before its content in parentheses, `undefined` is as `null`, and pairs
    /// stay in order, equal keys too. Between these stands white space, `/ a comment /`, or
    /// `# one up to the end of its line`. An array, a map and a tag are a level each.
    ///
    /// What is printed of a value, on one line or indented, is read as that value.
    ///
    /// # Errors
    ///
    /// `At`, the byte of the text at which it is wrong, and why; `Memory` where an allocation
    /// fails.
    pub fn from_notation_with_limit(
        alloc: Global,
        text: &str,
        limit: usize,
    ) -> Result<Value, NotationError>
        ensures ok { IfOk result (λ v. DenotesWithin limit text.now (tree_of v)) }
        ensures only { IfOk result (λ v. (w : Tree) → Denotes text.now w → w ≡ tree_of v) }
        ensures refused { IfErr result (λ e. (l : ℕ) (v : Tree) → DenotesWithin l text.now v →
            MayRefuse limit e l) }
    {
        match read_tree(alloc, text.as_bytes(), limit) {
            Ok(value) => Ok(value),
            Err(error) => Err(error.from_front(text.len())),
        }
    }
}

// The value that a text denotes. The place of an error is counted from the end of the text.
fn read_tree(alloc: Global, text: &[u8], limit: usize) -> Result<Value, NotationError>
    ensures ok { IfOk result (λ v. DenotesWithin limit text.now (tree_of v)) }
    ensures only { IfOk result (λ v. (w : Tree) → Denotes text.now w → w ≡ tree_of v) }
    ensures refused { IfErr result (λ e. (l : ℕ) (v : Tree) → DenotesWithin l text.now v →
        MayRefuse limit e l) }
{
    let mut levels = Levels::new(alloc, limit);
    let mut due = Due::Item;
    let mut rest = text;
    'tokens: loop {
        let Some(front) = skip_blanks(rest) else {
            return Err(NotationError::At(0, NotationFault::Comment));
        };
        if front.is_empty() {
            return levels.end(due);
        }
        let (token, behind) = match read_token(alloc, front) {
            Ok(read) => read,
            Err(error) => return Err(error),
        };
        due = match levels.take(due, token, front.len()) {
            Ok(due) => due,
            Err(error) => return Err(error),
        };
        rest = behind;
    }
}
