//! The tree of a CBOR item (RFC 8949): what items mean, when bytes are refused, what is written.
#![tactic(auto)]

pub mod bignum;
mod byte_buf;
pub mod canonical;
mod clone;
mod described;
mod deserialize;
mod deserialized;
mod deterministic;
pub mod error;
mod fields;
mod from_notation;
mod items;
mod key_order;
mod labels;
mod notation;
mod parts;
mod reads_back;
mod serialize;
mod serialized;
mod sink;
mod source;
pub mod stack;
mod tree;
pub mod tree_laws;
mod unique_keys;
mod wanted;

pub use byte_buf::ByteBuf;
pub use ciborium_ll::{Integer, Kind, OutOfRange};
pub use described::{AsDescribed, Described, DescribedKey};
pub use deserialize::{Deserialize, Key};
pub use fields::{Field, MaybeField, NoField};
pub use from_notation::{NotationError, NotationFault};
pub use items::{Array, Item, NoItem, WantedItems};
pub use key_order::KeyOrder;
pub use labels::{Label, LabelType, Labels, SoughtLabel};
pub use parts::{Container, OfArray, OfMap, Parts, serialize_parts};
pub use reads_back::{
    Avoidable, ByteString, FormReadsBack, NeverWrites, Null, ReadsBack, WritesContent,
};
pub use serialize::{Serialize, serialize_tagged};
pub use sink::Sink;
pub use source::Source;
pub use tree::Value;
pub use unique_keys::UniqueKeys;
pub use wanted::{
    FieldPlace, FieldsEnd, NoFieldTwice, NoOtherField, Wanted, WantedFields, found_or, read_fields,
    required,
};
