//! Values, re-exported, and the orders of their encodings.

pub mod canonical;
pub(crate) mod encoding_order;

pub use canonical::{BytewiseValue, CanonicalValue, KeyOrder, MeasuredValue, OrderedValue};
pub use ciborium_value::error::Error;
pub use ciborium_value::{ByteBuf, Integer, Kind, NotationError, NotationFault, OutOfRange, Value};
