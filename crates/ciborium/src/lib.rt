//! CBOR (RFC 8949), whose promises are machine-checked contracts.
#![tactic(auto)]

pub mod de;
pub mod described;
pub mod laws;
#[doc(hidden)]
pub mod literals;
pub mod ll;
mod macros;
mod own_types;
pub mod ser;
pub mod tag;
pub mod value;

pub use de::{
    from_buf_reader, from_buf_reader_deterministic, from_buf_reader_deterministic_with_order,
    from_buf_reader_next, from_buf_reader_next_at, from_buf_reader_next_with_recursion_limit,
    from_buf_reader_with_recursion_limit, from_reader, from_reader_deterministic,
    from_reader_deterministic_with_order, from_reader_next, from_reader_next_at,
    from_reader_next_with_recursion_limit, from_reader_with_buffer,
    from_reader_with_recursion_limit, from_slice, from_slice_deterministic,
    from_slice_with_recursion_limit, read_buf_sequence, read_sequence,
};
pub use ser::{
    into_writer, into_writer_deterministic, to_vec, write_deterministic_value, write_sequence,
};
pub use value::Value;
