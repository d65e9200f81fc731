//! Own types that say once what they are: their laws follow from that.

pub use ciborium_value::{AsDescribed, Described, DescribedKey};
