//! How many bytes were taken.

ghost use Rattle.std.specs.Prelude.{◌≤◌};
ghost use Rattle.ciborium_ll.specs.Bytes.{greatest_offset};

// The offset behind the bytes that were taken.
#[derive(Drop)]
pub(crate) struct Counter {
    pub(crate) count: usize,
    ghost fits: { count ≤ greatest_offset },
}
