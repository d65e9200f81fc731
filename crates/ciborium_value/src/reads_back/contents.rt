//! Equal contents are written alike.

ghost use Rattle.std.specs.Prelude.{Ok, encode_utf8, false};
ghost use Rattle.ciborium_ll.specs.Item.{bytes, simple};
ghost use Rattle.ciborium_value.specs.Encoding.{boolean_item, item_of};
ghost use Rattle.ciborium_value.specs.Sinks.{named_text};
ghost use Rattle.ciborium_value.specs.WrittenContents.{from_content, list-alike, map-alike};
ghost use Rattle.ciborium_value.specs.WrittenContents.{option-alike, signed-alike, string-alike};
ghost use Rattle.ciborium_value.specs.WrittenContents.{tuple1-alike, tuple2-alike, tuple3-alike};
ghost use Rattle.ciborium_value.specs.WrittenContents.{tuple4-alike, unsigned-alike};

use super::WritesContent;
use crate::byte_buf::ByteBuf;
use crate::deserialize::Key;
use crate::tree::Value;
use std::collections::BTreeMap;

impl WritesContent for bool {
    ghost writes_content = { from_content (λ b. Ok (boolean_item b)) _ };
}

impl WritesContent for () {
    ghost writes_content = { from_content (λ u. Ok (simple 22)) _ };
}

impl WritesContent for char {
    ghost writes_content = { from_content (λ c. named_text (encode_utf8 c)) _ };
}

impl WritesContent for String {
    ghost writes_content = { string-alike };
}

impl WritesContent for ByteBuf {
    ghost writes_content = { from_content (λ b. Ok (bytes false b)) _ };
}

impl<T: WritesContent> WritesContent for Option<T> {
    ghost writes_content = { option-alike T.writes_content };
}

impl<T: WritesContent> WritesContent for Vec<T> {
    ghost writes_content = { λ v w same. list-alike T.writes_content v.items w.items same };
}

impl<A: WritesContent> WritesContent for (A,) {
    ghost writes_content = { λ v w same. tuple1-alike A.writes_content v.0 w.0 same };
}

impl<A: WritesContent, B: WritesContent> WritesContent for (A, B) {
    ghost writes_content = { tuple2-alike A.writes_content B.writes_content };
}

impl<A: WritesContent, B: WritesContent, C: WritesContent> WritesContent for (A, B, C) {
    ghost writes_content = { tuple3-alike A.writes_content B.writes_content C.writes_content };
}

impl<A: WritesContent, B: WritesContent, C: WritesContent, D: WritesContent> WritesContent
    for (A, B, C, D) {
    ghost writes_content = { tuple4-alike
        A.writes_content B.writes_content C.writes_content D.writes_content };
}

impl<K: Key + WritesContent, V: WritesContent> WritesContent for BTreeMap<K, V> {
    ghost writes_content = { λ v w same. map-alike
        K.writes_content V.writes_content v.entries w.entries same };
}

impl WritesContent for Value {
    ghost writes_content = { from_content (λ t. Ok (item_of t)) _ };
}

impl WritesContent for u8 {
    ghost writes_content = { unsigned-alike };
}

impl WritesContent for u16 {
    ghost writes_content = { unsigned-alike };
}

impl WritesContent for u32 {
    ghost writes_content = { unsigned-alike };
}

impl WritesContent for u64 {
    ghost writes_content = { unsigned-alike };
}

impl WritesContent for u128 {
    ghost writes_content = { unsigned-alike };
}

impl WritesContent for usize {
    ghost writes_content = { unsigned-alike };
}

impl WritesContent for i8 {
    ghost writes_content = { signed-alike };
}

impl WritesContent for i16 {
    ghost writes_content = { signed-alike };
}

impl WritesContent for i32 {
    ghost writes_content = { signed-alike };
}

impl WritesContent for i64 {
    ghost writes_content = { signed-alike };
}

impl WritesContent for i128 {
    ghost writes_content = { signed-alike };
}

impl WritesContent for isize {
    ghost writes_content = { signed-alike };
}
