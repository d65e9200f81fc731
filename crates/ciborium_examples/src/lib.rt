//! The library as its users have it: types of their own, and callers with contracts.
#![tactic(auto)]

pub mod application;
pub mod array_types;
pub mod callers;
pub mod described_callers;
pub mod described_types;
pub mod framing;
pub mod head_callers;
pub mod key_types;
pub mod lookups;
pub mod messages;
pub mod notation_callers;
pub mod own_callers;
pub mod own_types;
pub mod readme;
pub mod round_trips;
pub mod sequence_callers;
pub mod slice_callers;
pub mod strict_types;
pub mod struct_types;
pub mod tag_types;
pub mod tree_types;
pub mod variant_types;
