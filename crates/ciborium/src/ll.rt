//! Heads, strings and offsets over any reader and writer: the lowest layer, re-exported.

pub use ciborium_ll::{
    Access, Answered, Buffered, Decoder, Encoder, Error, Failed, Header, ItemHead, ItemHeads, Keep,
    NoItem, NotCopied, Plain, Slice, Visitor, copy_item, head_size, is_well_formed, item_len,
    simple, tag,
};
