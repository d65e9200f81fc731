//! What bytes load, which have to be the one encoding of it: `loaded TYPE LIMIT HEX`.

use crate::refusals::describe_read;
use crate::types::Job;
use ciborium::de::Deserialize;
use ciborium::from_slice_deterministic;
use ciborium::ser::Serialize;
use ciborium::value::KeyOrder;
use std::alloc::{AllocError, Global};

/// All of the bytes as a type, within the limit.
#[derive(Clone, Copy)]
pub struct Loading<'a> {
    pub order: KeyOrder,
    pub limit: usize,
    pub bytes: &'a [u8],
}

/// `loaded`, or why the bytes are refused.
impl Job for Loading<'_> {
    fn answer<T: Deserialize + Serialize>(&self, alloc: Global) -> Result<String, AllocError> {
        match from_slice_deterministic::<T>(alloc, self.bytes, self.order, self.limit) {
            Ok(_) => String::from_str(alloc, "loaded"),
            Err(error) => describe_read(alloc, error),
        }
    }
}
