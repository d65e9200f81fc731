//! What is written in its deterministic form.

ghost use Rattle.std.proofs.Common.{lit<};
ghost use Rattle.ciborium_value.specs.lemmas.ReadsBackNumbers.{signed-back, unsigned-back};
ghost use Rattle.std.specs.Prelude.{false};
ghost use Rattle.ciborium_value.specs.ReadsBack.{boolean-back, by_form, bytes-back};
ghost use Rattle.ciborium_value.specs.ReadsBack.{character-back, string_back, unit-back};
ghost use Rattle.ciborium_value.specs.lemmas.ReadsBackMaps.{map-back};
ghost use Rattle.ciborium_value.specs.lemmas.ReadsBackOptions.{option-back};
ghost use Rattle.ciborium_value.specs.lemmas.ReadsBackParts.{list-back, tuple1-back, tuple2-back};
ghost use Rattle.ciborium_value.specs.lemmas.ReadsBackParts.{tuple3-back, tuple4-back};

use super::{FormReadsBack, NeverWrites, Null};
use crate::byte_buf::ByteBuf;
use crate::deserialize::Key;
use std::collections::BTreeMap;

impl FormReadsBack for bool {
    ghost form_reads_back = { λ o. boolean-back (by_form o) };
}

impl FormReadsBack for () {
    ghost form_reads_back = { λ o. unit-back (by_form o) };
}

impl FormReadsBack for char {
    ghost form_reads_back = { λ o. character-back (by_form o) };
}

impl FormReadsBack for String {
    ghost form_reads_back = { λ o. string_back (by_form o) };
}

impl FormReadsBack for ByteBuf {
    ghost form_reads_back = { λ o. bytes-back (λ b. b.0.items) (by_form o) };
}

impl<T: FormReadsBack + NeverWrites<Null>> FormReadsBack for Option<T> {
    ghost form_reads_back = { λ o. option-back (T.form_reads_back o) T.never };
}

impl<T: FormReadsBack> FormReadsBack for Vec<T> {
    ghost form_reads_back = { λ o v valid. list-back (T.form_reads_back o) v.items valid };
}

impl<A: FormReadsBack> FormReadsBack for (A,) {
    ghost form_reads_back = { λ o t valid. tuple1-back (A.form_reads_back o t.0 valid) };
}

impl<A: FormReadsBack, B: FormReadsBack> FormReadsBack for (A, B) {
    ghost form_reads_back = { λ o t valid. tuple2-back
        (A.form_reads_back o t.0 valid.0) (B.form_reads_back o t.1 valid.1) };
}

impl<A: FormReadsBack, B: FormReadsBack, C: FormReadsBack> FormReadsBack for (A, B, C) {
    ghost form_reads_back = { λ o t valid. tuple3-back
        (A.form_reads_back o t.0 valid.0) (B.form_reads_back o t.1 valid.1)
        (C.form_reads_back o t.2 valid.2) };
}

impl<A: FormReadsBack, B: FormReadsBack, C: FormReadsBack, D: FormReadsBack> FormReadsBack
    for (A, B, C, D) {
    ghost form_reads_back = { λ o t valid. tuple4-back
        (A.form_reads_back o t.0 valid.0) (B.form_reads_back o t.1 valid.1)
        (C.form_reads_back o t.2 valid.2) (D.form_reads_back o t.3 valid.3) };
}

/// The form has the entries in the order of their encoded keys, and reading puts them in the order
/// of `K` again: no two of a map's keys are equal, so it makes no difference which comes first.
impl<K: Key + FormReadsBack, V: FormReadsBack> FormReadsBack for BTreeMap<K, V> {
    ghost form_reads_back = { λ o m valid. map-back (K.form_reads_back o) (V.form_reads_back o)
        false K.cmp K.reading.order K.total K.orders m valid };
}

impl FormReadsBack for u8 {
    ghost form_reads_back = { λ o. unsigned-back 8 (lit< tt) (by_form o) };
}

impl FormReadsBack for u16 {
    ghost form_reads_back = { λ o. unsigned-back 16 (lit< tt) (by_form o) };
}

impl FormReadsBack for u32 {
    ghost form_reads_back = { λ o. unsigned-back 32 (lit< tt) (by_form o) };
}

impl FormReadsBack for u64 {
    ghost form_reads_back = { λ o. unsigned-back 64 (lit< tt) (by_form o) };
}

impl FormReadsBack for u128 {
    ghost form_reads_back = { λ o. unsigned-back 128 (lit< tt) (by_form o) };
}

impl FormReadsBack for usize {
    ghost form_reads_back = { λ o. unsigned-back 64 (lit< tt) (by_form o) };
}

impl FormReadsBack for i8 {
    ghost form_reads_back = { λ o. signed-back 7 (lit< tt) (by_form o) };
}

impl FormReadsBack for i16 {
    ghost form_reads_back = { λ o. signed-back 15 (lit< tt) (by_form o) };
}

impl FormReadsBack for i32 {
    ghost form_reads_back = { λ o. signed-back 31 (lit< tt) (by_form o) };
}

impl FormReadsBack for i64 {
    ghost form_reads_back = { λ o. signed-back 63 (lit< tt) (by_form o) };
}

impl FormReadsBack for i128 {
    ghost form_reads_back = { λ o. signed-back 127 (lit< tt) (by_form o) };
}

impl FormReadsBack for isize {
    ghost form_reads_back = { λ o. signed-back 63 (lit< tt) (by_form o) };
}
