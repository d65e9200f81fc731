//! What is never written as null, and what never as a byte string.

ghost use Rattle.std.specs.Prelude.{◌∷◌, [], encode_utf8, map, pos, string_bytes};
ghost use Rattle.ciborium_value.specs.NeverWritten.{never-boolean, never-bytes, never-container};
ghost use Rattle.ciborium_value.specs.NeverWritten.{never-null, never-number, never-option};
ghost use Rattle.ciborium_value.specs.NeverWritten.{never-text};
ghost use Rattle.ciborium_value.specs.Places.{a_map, an_array};
ghost use Rattle.ciborium_value.specs.Sinks.{in_turn};

use super::{Avoidable, ByteString, NeverWrites, Null};
use crate::byte_buf::ByteBuf;
use crate::serialize::Serialize;
use crate::unique_keys::UniqueKeys;
use std::collections::BTreeMap;

impl NeverWrites<ByteString> for () {
    ghost never = { λ u. never-null };
}

impl<T: NeverWrites<ByteString>> NeverWrites<ByteString> for Option<T> {
    ghost never = { never-option T.never };
}

impl NeverWrites<Null> for ByteBuf {
    ghost never = { λ b. never-bytes b.0.items };
}

impl<I: Avoidable> NeverWrites<I> for bool {
    ghost never = { never-boolean I.avoided };
}

impl<I: Avoidable> NeverWrites<I> for char {
    ghost never = { λ c. never-text I.avoided (encode_utf8 c) };
}

impl<I: Avoidable> NeverWrites<I> for String {
    ghost never = { λ s. never-text I.avoided (string_bytes s) };
}

impl<T: Serialize, I: Avoidable> NeverWrites<I> for Vec<T> {
    ghost never = { λ v. never-container I.avoided an_array (map T.written v.items) };
}

impl<A: Serialize, I: Avoidable> NeverWrites<I> for (A,) {
    ghost never = { λ t. never-container I.avoided an_array (A.written t.0 ∷ []) };
}

impl<A: Serialize, B: Serialize, I: Avoidable> NeverWrites<I> for (A, B) {
    ghost never = { λ t. never-container I.avoided an_array
        (A.written t.0 ∷ B.written t.1 ∷ []) };
}

impl<A: Serialize, B: Serialize, C: Serialize, I: Avoidable> NeverWrites<I> for (A, B, C) {
    ghost never = { λ t. never-container I.avoided an_array
        (A.written t.0 ∷ B.written t.1 ∷ C.written t.2 ∷ []) };
}

impl<A: Serialize, B: Serialize, C: Serialize, D: Serialize, I: Avoidable> NeverWrites<I>
    for (A, B, C, D) {
    ghost never = { λ t. never-container I.avoided an_array
        (A.written t.0 ∷ B.written t.1 ∷ C.written t.2 ∷ D.written t.3 ∷ []) };
}

impl<K: Serialize + Ord, V: Serialize, I: Avoidable> NeverWrites<I> for BTreeMap<K, V> {
    ghost never = { λ m. never-container I.avoided a_map
        (in_turn K.written V.written m.entries) };
}

impl<K: Serialize + Ord, V: Serialize, I: Avoidable> NeverWrites<I> for UniqueKeys<K, V> {
    ghost never = { λ m. never-container I.avoided a_map
        (in_turn K.written V.written m.0.entries) };
}

impl<I: Avoidable> NeverWrites<I> for u8 {
    ghost never = { λ n. never-number I.avoided (pos n) };
}

impl<I: Avoidable> NeverWrites<I> for u16 {
    ghost never = { λ n. never-number I.avoided (pos n) };
}

impl<I: Avoidable> NeverWrites<I> for u32 {
    ghost never = { λ n. never-number I.avoided (pos n) };
}

impl<I: Avoidable> NeverWrites<I> for u64 {
    ghost never = { λ n. never-number I.avoided (pos n) };
}

impl<I: Avoidable> NeverWrites<I> for u128 {
    ghost never = { λ n. never-number I.avoided (pos n) };
}

impl<I: Avoidable> NeverWrites<I> for usize {
    ghost never = { λ n. never-number I.avoided (pos n) };
}

impl<I: Avoidable> NeverWrites<I> for i8 {
    ghost never = { never-number I.avoided };
}

impl<I: Avoidable> NeverWrites<I> for i16 {
    ghost never = { never-number I.avoided };
}

impl<I: Avoidable> NeverWrites<I> for i32 {
    ghost never = { never-number I.avoided };
}

impl<I: Avoidable> NeverWrites<I> for i64 {
    ghost never = { never-number I.avoided };
}

impl<I: Avoidable> NeverWrites<I> for i128 {
    ghost never = { never-number I.avoided };
}

impl<I: Avoidable> NeverWrites<I> for isize {
    ghost never = { never-number I.avoided };
}
