//! The lowest layer of CBOR (RFC 8949): heads, strings and offsets over any reader and writer, and
//! the numbers that one head holds.
#![tactic(auto)]

mod access;
mod counter;
mod cursor;
mod decoder;
mod encoder;
mod header;
mod integer;
mod item_bytes;
mod item_heads;
mod keep;
mod kind;
mod levels;
mod parsing;
mod reading;
pub mod simple;
pub mod spelling_laws;
mod strings;
pub mod tag;
mod texts;
mod visitor;
mod writing;

pub use access::{Access, Buffered, Plain, Slice};
pub use decoder::Decoder;
pub use encoder::Encoder;
pub use header::{Error, Header, head_size};
pub use integer::{Integer, OutOfRange};
pub use item_bytes::{NotCopied, copy_item};
pub use item_heads::{ItemHead, ItemHeads, NoItem, is_well_formed, item_len};
pub use keep::{Answered, Keep};
pub use kind::Kind;
pub use levels::{Level, Step, step_of};
pub use strings::StringType;
pub use visitor::Visitor;
pub use writing::Failed;
