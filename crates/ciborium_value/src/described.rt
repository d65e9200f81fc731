//! Types that say once what they are, as data from which their laws follow.

ghost use Rattle.std.proofs.Common.{lit<};
ghost use Rattle.ciborium_value.specs.Described.{Description, IsDescribed, KeyDescription};
ghost use Rattle.std.proofs.lemmas.Cmp.{nat_cmp_total};
ghost use Rattle.std.specs.Char.{IsScalar};
ghost use Rattle.std.specs.Cmp.{bool_cmp_total};
ghost use Rattle.std.specs.String.{string_cmp_total};
ghost use Rattle.std.specs.Prelude.{Ok, encode_utf8, false, refl, string_bytes, true};
ghost use Rattle.ciborium_ll.specs.Item.{bytes};
ghost use Rattle.ciborium_value.specs.NeverWritten.{never-boolean, never-bytes, never-null};
ghost use Rattle.ciborium_value.specs.NeverWritten.{never-text};
ghost use Rattle.ciborium_value.specs.ReadsBack.{boolean-back, bytes-back, character-back};
ghost use Rattle.ciborium_value.specs.ReadsBack.{string_back, unit-back};
ghost use Rattle.ciborium_value.specs.lemmas.Descriptions.{as-never_byte_string, as-never_null};
ghost use Rattle.ciborium_value.specs.lemmas.Descriptions.{list_description, never_byte_string};
ghost use Rattle.ciborium_value.specs.lemmas.Descriptions.{never_null, option_description, scalar};
ghost use Rattle.ciborium_value.specs.lemmas.Descriptions.{signed_description};
ghost use Rattle.ciborium_value.specs.lemmas.Descriptions.{tuple1_description, tuple2_description};
ghost use Rattle.ciborium_value.specs.lemmas.Descriptions.{tuple3_description, tuple4_description};
ghost use Rattle.ciborium_value.specs.lemmas.Descriptions.{unsigned_description};
ghost use Rattle.ciborium_value.specs.lemmas.MapDescriptions.{map_description, signed_key};
ghost use Rattle.ciborium_value.specs.lemmas.MapDescriptions.{unsigned_key};
ghost use Rattle.ciborium_value.specs.WrittenContents.{from_content, string-alike};

use crate::byte_buf::ByteBuf;
use crate::deserialize::Deserialize;
use crate::serialize::Serialize;
use crate::unique_keys::UniqueKeys;
use std::collections::BTreeMap;

/// A type that says what it is: how its values are read and written, and the laws of that. What is
/// made of such types is described by their descriptions.
pub trait Described {
    // What it is.
    ghost description: { Description Self };
}

/// A described type whose values can be the keys of a map.
pub trait DescribedKey: Ord {
    // What it is, and that values compare as their contents do.
    ghost key_description: { KeyDescription Self };
}

/// An own type that is read and written as its description says. It then has its laws: `ReadsBack`,
/// `FormReadsBack`, `WritesContent` and `NeverWrites`.
pub trait AsDescribed: Described + Serialize + Deserialize {
    // By `described` of the description and `refl`, which shows that the laws hold of it: that no
    // two of its labels or names are equal, that no option is of what may be null, and that no
    // value is null or a byte string.
    ghost as_described: { IsDescribed Self.description Self.written Self.reading };
}

impl Described for () {
    ghost description = { scalar ⟦<() as Deserialize>⟧.reading ⟦<() as Serialize>⟧.written
        (λ u. Unit {0}) never_byte_string unit-back
        (from_content (λ u. ⟦<() as Serialize>⟧.written u) _)
        (as-never_byte_string (λ u. never-null)) };
}

impl Described for bool {
    ghost description = { scalar ⟦<bool as Deserialize>⟧.reading ⟦<bool as Serialize>⟧.written
        (λ b. Unit {0}) (λ a. true) boolean-back
        (from_content ⟦<bool as Serialize>⟧.written _) (λ a h b. never-boolean a b) };
}

impl Described for char {
    ghost description = { scalar ⟦<char as Deserialize>⟧.reading ⟦<char as Serialize>⟧.written
        IsScalar (λ a. true) character-back
        (from_content ⟦<char as Serialize>⟧.written _) (λ a h c. never-text a (encode_utf8 c)) };
}

impl Described for String {
    ghost description = { scalar ⟦<String as Deserialize>⟧.reading ⟦<String as Serialize>⟧.written
        (λ s. Unit {0}) (λ a. true) string_back string-alike
        (λ a h s. never-text a (string_bytes s)) };
}

impl Described for ByteBuf {
    ghost description = { scalar ⟦<ByteBuf as Deserialize>⟧.reading
        ⟦<ByteBuf as Serialize>⟧.written (λ b. Unit {0}) never_null (bytes-back (λ b. b.0.items))
        (from_content (λ b. Ok (bytes false b)) _)
        (as-never_null (λ b. never-bytes b.0.items)) };
}

impl DescribedKey for bool {
    ghost key_description = { record {
      key = ⟦<bool as Described>⟧.description;
      compare = ⟦<bool as Ord>⟧.cmp;
      total = bool_cmp_total;
      orders = λ a b. refl;
    } };
}

impl DescribedKey for char {
    ghost key_description = { record {
      key = ⟦<char as Described>⟧.description;
      compare = ⟦<char as Ord>⟧.cmp;
      total = nat_cmp_total;
      orders = λ a b. refl;
    } };
}

impl DescribedKey for String {
    ghost key_description = { record {
      key = ⟦<String as Described>⟧.description;
      compare = ⟦<String as Ord>⟧.cmp;
      total = string_cmp_total;
      orders = λ a b. refl;
    } };
}

impl<K: DescribedKey, V: Described> Described for BTreeMap<K, V> {
    ghost description = { map_description false (λ m. m) K.key_description V.description };
}

impl<K: DescribedKey, V: Described> Described for UniqueKeys<K, V> {
    ghost description = { map_description true (λ m. m.0) K.key_description V.description };
}

impl<T: Described> Described for Option<T> {
    ghost description = { option_description T.description };
}

impl<T: Described> Described for Vec<T> {
    ghost description = { list_description (λ v. v.items) T.description };
}

impl<A: Described> Described for (A,) {
    ghost description = { tuple1_description (λ t. t.0) A.description };
}

impl<A: Described, B: Described> Described for (A, B) {
    ghost description = { tuple2_description A.description B.description };
}

impl<A: Described, B: Described, C: Described> Described for (A, B, C) {
    ghost description = { tuple3_description A.description B.description C.description };
}

impl<A: Described, B: Described, C: Described, D: Described> Described for (A, B, C, D) {
    ghost description = { tuple4_description
        A.description B.description C.description D.description };
}

impl Described for u8 {
    ghost description = { unsigned_description 8 (lit< tt) };
}

impl DescribedKey for u8 {
    ghost key_description = { unsigned_key 8 (lit< tt) };
}

impl Described for u16 {
    ghost description = { unsigned_description 16 (lit< tt) };
}

impl DescribedKey for u16 {
    ghost key_description = { unsigned_key 16 (lit< tt) };
}

impl Described for u32 {
    ghost description = { unsigned_description 32 (lit< tt) };
}

impl DescribedKey for u32 {
    ghost key_description = { unsigned_key 32 (lit< tt) };
}

impl Described for u64 {
    ghost description = { unsigned_description 64 (lit< tt) };
}

impl DescribedKey for u64 {
    ghost key_description = { unsigned_key 64 (lit< tt) };
}

impl Described for u128 {
    ghost description = { unsigned_description 128 (lit< tt) };
}

impl DescribedKey for u128 {
    ghost key_description = { unsigned_key 128 (lit< tt) };
}

impl Described for usize {
    ghost description = { unsigned_description 64 (lit< tt) };
}

impl DescribedKey for usize {
    ghost key_description = { unsigned_key 64 (lit< tt) };
}

impl Described for i8 {
    ghost description = { signed_description 7 (lit< tt) };
}

impl DescribedKey for i8 {
    ghost key_description = { signed_key 7 (lit< tt) };
}

impl Described for i16 {
    ghost description = { signed_description 15 (lit< tt) };
}

impl DescribedKey for i16 {
    ghost key_description = { signed_key 15 (lit< tt) };
}

impl Described for i32 {
    ghost description = { signed_description 31 (lit< tt) };
}

impl DescribedKey for i32 {
    ghost key_description = { signed_key 31 (lit< tt) };
}

impl Described for i64 {
    ghost description = { signed_description 63 (lit< tt) };
}

impl DescribedKey for i64 {
    ghost key_description = { signed_key 63 (lit< tt) };
}

impl Described for i128 {
    ghost description = { signed_description 127 (lit< tt) };
}

impl DescribedKey for i128 {
    ghost key_description = { signed_key 127 (lit< tt) };
}

impl Described for isize {
    ghost description = { signed_description 63 (lit< tt) };
}

impl DescribedKey for isize {
    ghost key_description = { signed_key 63 (lit< tt) };
}
