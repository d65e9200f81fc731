//! Tests of the libraries and of `ciborium_examples`, run. In a crate of their own, so that they
//! are proved over its contracts and it is proved once.
#![tactic(auto)]

#[cfg(test)]
mod ample_memory;
#[cfg(test)]
mod application_tests;
#[cfg(test)]
mod buffered_tests;
#[cfg(test)]
mod caller_tests;
#[cfg(test)]
mod cut_tests;
#[cfg(test)]
mod described_tests;
#[cfg(test)]
mod deterministic_tests;
#[cfg(test)]
mod expectations;
#[cfg(test)]
mod form_tests;
#[cfg(test)]
mod head_tests;
#[cfg(test)]
mod key_tests;
#[cfg(test)]
mod lookup_tests;
#[cfg(test)]
mod macro_tests;
#[cfg(test)]
mod message_tests;
#[cfg(test)]
mod notation_tests;
#[cfg(test)]
mod readme_tests;
#[cfg(test)]
mod round_trip_tests;
#[cfg(test)]
mod sequence_tests;
#[cfg(test)]
mod shown;
#[cfg(test)]
mod slice_tests;
#[cfg(test)]
mod tree_tests;
#[cfg(test)]
mod tree_type_tests;
#[cfg(test)]
mod value_tests;
