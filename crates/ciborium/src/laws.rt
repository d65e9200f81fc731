//! The laws of the library: its own, and those re-exported from the crates that prove them.

ghost use Rattle.std.specs.Prelude.{◌≡◌, length};
ghost use Rattle.ciborium_value.specs.Places.{a_map};
ghost use Rattle.ciborium_value.specs.View.{result_map, tree_of};
ghost use Rattle.ciborium_value.specs.Spelling.{any, deterministic};
ghost use Rattle.ciborium_value.specs.Sinks.{container_of, in_turn, named_value};
ghost use Rattle.ciborium_value.specs.declared.key_order.KeyOrder.{KeyOrder};
ghost use Rattle.ciborium_value.specs.declared.key_order.KeyOrder.TheVariants.{Bytewise};
ghost use Rattle.ciborium_value.specs.declared.key_order.KeyOrder.TheVariants.{LengthFirst};
ghost use Rattle.ciborium.specs.laws.AnswerLaws.{OneAnswer};
ghost use Rattle.ciborium.specs.laws.OrdersOfValues.{IsOrderOfTrees, IsTotal, KeysRise};
ghost use Rattle.ciborium.specs.laws.OrdersOfValues.{TiesEqualOnes};
ghost use Rattle.ciborium.specs.laws.EncodingLaws.{EncodingSpells, HeadsRise, OneTree};
ghost use Rattle.ciborium.specs.laws.EncodingLaws.{OthersAreLonger};
ghost use Rattle.ciborium.specs.DeterministicWrites.{named_form};
ghost use Rattle.ciborium.specs.laws.FormRoundTrips.{FormIsReadBack, IsFormContentGiven};
ghost use Rattle.ciborium.specs.laws.FormRoundTrips.{IsFormContentReadBack, IsFormReadAlike};
ghost use Rattle.ciborium.specs.laws.FormRoundTrips.{IsFormReadBack, IsOwnForm};
ghost use Rattle.ciborium.specs.ItemSequences.{OneSequence};
ghost use Rattle.ciborium.specs.laws.Loaded.{AreDeterministicParts, IsContentLoaded};
ghost use Rattle.ciborium.specs.laws.Loaded.{IsDeterministicStore, IsStoreValid};
ghost use Rattle.ciborium.specs.laws.Loaded.{IsSavedLoaded, LoadedAsSaved, LoadingGivesContent};
ghost use Rattle.ciborium.specs.laws.Loaded.{OneEncoding, SavedIsLoaded};
ghost use Rattle.ciborium.specs.laws.RoundTrips.{AreRefusedAlike, BytesReadBack, BytesWrittenAgain};
ghost use Rattle.ciborium.specs.laws.RoundTrips.{IsContentReadBack, LeaveSameBytes};
ghost use Rattle.ciborium.specs.laws.RoundTrips.{TreeGivesContent};
ghost use Rattle.ciborium.specs.laws.RoundTrips.{TreeReadBack, TreeWrittenAgain, WriteSameBytes};
ghost use Rattle.ciborium.specs.laws.SequenceRoundTrips.{AreContentsReadBack, SequenceReadsBack};
ghost use Rattle.ciborium.specs.TypedAnswers.{SourcesAgree};
ghost use Rattle.ciborium.specs.ValueAnswers.{AnswersGoodItem, TakesBytes};
ghost use Rattle.ciborium.specs.Writes.{IsNamedWritten};

use crate::de;
use crate::value::encoding_order::EncodingOrder;
use crate::value::{BytewiseValue, CanonicalValue, OrderedValue};
pub use ciborium_ll::spelling_laws::{
    header_bytes_spell, one_header, shortest_head, unique_spelling,
};
pub use ciborium_value::tree_laws::{
    bytes_of_bignums, deterministic_forms, good_or_refused, meaning_of_written_is_folded,
    order_of_integers, order_of_values, printed_is_denoted, worked_examples, written_reads_back,
};
pub use ciborium_value::{
    Avoidable, ByteString, FormReadsBack, NeverWrites, Null, ReadsBack, WritesContent,
};
use ciborium_value::{Deserialize, KeyOrder, Serialize, Value};
use std::alloc::Global;
use std::collections::BTreeMap;
use std::io::{self, Read};

/// What reading a `Value` promises, whatever the bytes and the limit. Some bytes are taken: at `Ok`
/// they are just one item, which means the answer, nests within the limit and ends within the
/// greatest offset; at an error they are refused with it, whatever follows them, or, at `Io`, if
/// nothing did; `Memory` is no refusal. And where such an item stands at the front, it is taken and
/// answered, unless the answer is `Memory`, or `Io` with bytes left.
pub fn value_is_read<R: Read>(
    alloc: Global,
    reader: &mut R,
    limit: usize,
) -> Result<Value, de::Error<io::Error>>
    ensures taken { TakesBytes any 0 (R.remaining reader.old) limit (R.remaining reader.new)
        (result_map tree_of result) }
    ensures exact { AnswersGoodItem any (R.remaining reader.old) limit (R.remaining reader.new)
        (result_map tree_of result) }
{
    de::from_reader_with_recursion_limit(alloc, reader, limit)
}

/// The same of the deterministic spelling by an order of keys: the item is then the one shortest
/// definite encoding of the answer, in whose maps the keys strictly rise.
pub fn value_is_read_deterministically<R: Read>(
    alloc: Global,
    reader: &mut R,
    limit: usize,
    order: KeyOrder,
) -> Result<Value, de::Error<io::Error>>
    ensures taken { TakesBytes (deterministic order) 0 (R.remaining reader.old) limit
        (R.remaining reader.new) (result_map tree_of result) }
    ensures exact { AnswersGoodItem (deterministic order) (R.remaining reader.old) limit
        (R.remaining reader.new) (result_map tree_of result) }
{
    de::from_reader_deterministic_with_order(alloc, reader, limit, order)
}

/// The clauses of the reading calls leave one answer for the same bytes and limit: the same tree
/// with the same bytes left, or the same refusal, unless the reader or an allocation failed. At
/// the reader's end `Io` is a refusal like the others, and no failure. So no answer depends on the
/// scratch, on the pieces in which the reader gives its bytes, or on which of the calls was made.
pub fn one_answer()
    ensures { OneAnswer }
{}

/// A tree that a program can hold has an encoding of its own, which is the one shortest spelling of
/// its item with definite strings, arrays and maps. The shortest heads of one major type rise
/// bytewise with their numbers (RFC 8949, sections 4.1 and 4.2.1).
pub fn encoding_is_shortest()
    ensures one_tree { OneTree }
    ensures spells { EncodingSpells }
    ensures others { OthersAreLonger }
    ensures heads { HeadsRise }
{}

/// A map that is keyed by `CanonicalValue` is written with keys that strictly rise in the canonical
/// order (RFC 8949, section 4.2.3), wherever it is written at all: that its item can be written is
/// what `into_writer` says at `Ok`. The call counts the entries, which takes no memory.
pub fn canonical_keys_rise<V: Serialize>(map: &BTreeMap<CanonicalValue, V>) -> usize
    ensures rise { IsNamedWritten (container_of a_map
        (in_turn named_value V.written map.now.entries)) → KeysRise LengthFirst map.now.entries }
    ensures count { result ≡ length map.now.entries }
{
    map.len()
}

/// A map that is keyed by `BytewiseValue` is written with keys that strictly rise in the bytewise
/// order (RFC 8949, section 4.2.1), wherever it is written at all, as by `CanonicalValue` in the
/// canonical one. The call counts the entries, which takes no memory.
pub fn bytewise_keys_rise<V: Serialize>(map: &BTreeMap<BytewiseValue, V>) -> usize
    ensures rise { IsNamedWritten (container_of a_map
        (in_turn named_value V.written map.now.entries)) → KeysRise Bytewise map.now.entries }
    ensures count { result ≡ length map.now.entries }
{
    map.len()
}

/// A map that is keyed by `CanonicalValue` or by `BytewiseValue` is written deterministically, in
/// that order of keys (RFC 8949, section 4.2), wherever it is written at all, if each of its keys
/// and values is: it names the item of its tree, whose encoding is the one accepted spelling. The
/// call counts the entries, which takes no memory.
pub fn store_is_deterministic<O: EncodingOrder>(store: &BTreeMap<OrderedValue<O>, Value>) -> usize
    ensures accepted { IsNamedWritten (container_of a_map
        (in_turn named_value named_value store.now.entries)) →
        AreDeterministicParts O.order store.now.entries →
        IsDeterministicStore O.order store.now.entries }
    ensures valid { AreDeterministicParts O.order store.now.entries →
        IsStoreValid O.order store.now }
    ensures count { result ≡ length store.now.entries }
{
    store.len()
}

/// What is saved is loaded: where a value names the item of a tree that has an accepted spelling by
/// an order of keys, the deterministic reader of that order takes just its bytes, whatever follows
/// them, and `deserialized` makes the value's content from the result, unless the reader or an
/// allocation failed (RFC 8949, section 4.2). It rests on the type's own law (`ReadsBack`).
pub fn loaded_as_saved<T: ReadsBack>()
    ensures loaded { LoadedAsSaved T.is_valid T.written T.reading }
    // The same of what was returned, as a caller has it after its calls.
    ensures loading_gives { LoadingGivesContent T.is_valid T.written T.reading }
{}

/// The same for one value that was saved and loaded. Where `bytes` are what `into_writer` wrote of
/// `value`, `tree` was read at their front by `from_reader_deterministic` within `limit` levels,
/// with `rest` after it, and `again` is what `deserialized` made of `tree`, the contents of `value`
/// and `again` are equal. That the bytes are deterministic (RFC 8949, section 4.2) is no premise,
/// since that reader took them. A caller that saves and loads calls this after its other calls, and
/// needs no proof file.
pub fn is_loaded<T: ReadsBack>(
    value: &T,
    tree: &Value,
    again: &T,
    limit: usize,
    bytes: &[u8],
    rest: &[u8],
)
    ensures loaded { IsContentLoaded LengthFirst T.is_valid T.written T.reading limit value.now
        tree.now again.now bytes.now rest.now }
    // The same of `from_reader_deterministic_with_order`, whatever the order that it was given.
    ensures either { (order : KeyOrder) → IsContentLoaded order T.is_valid T.written T.reading limit
        value.now tree.now again.now bytes.now rest.now }
{}

/// What `from_slice_deterministic` loads has one encoding: bytes that it loads with equal contents,
/// by the same order of keys, are equal. It rests on the type's own law (`WritesContent`).
pub fn one_encoding<T: WritesContent>()
    ensures { OneEncoding T.written T.reading }
{}

/// What was saved is loaded: of the bytes that `into_writer_deterministic` writes of a value, into
/// nothing, `from_slice_deterministic` by the same order of keys gives the value's content, unless
/// an allocation fails, or reading of these bytes takes more levels than the limit, which then are
/// fewer than the `levels` of the value (RFC 8949, section 4.2). It rests on the type's own laws
/// (`FormReadsBack` and `WritesContent`).
pub fn saved_is_loaded<T: FormReadsBack + WritesContent>()
    ensures { SavedIsLoaded T.is_valid T.written T.reading T.levels }
{}

/// The same for one value that was saved and loaded. Where `bytes` are what
/// `into_writer_deterministic` wrote of `value` in this order, into an empty list, and `again` is
/// what `from_slice_deterministic` loaded of them, the contents of `value` and `again` are equal. A
/// caller that saves and loads calls this after its other calls, and needs no proof file.
pub fn is_saved_loaded<T: FormReadsBack>(
    value: &T,
    again: &T,
    order: KeyOrder,
    limit: usize,
    bytes: &[u8],
)
    ensures { IsSavedLoaded T.is_valid T.written T.reading order limit
        value.now again.now bytes.now }
{}

/// Values with equal contents have the same deterministic form, and so are saved as the same bytes.
/// It rests on the type's own law (`WritesContent`).
pub fn have_one_form<T: WritesContent>(left: &T, right: &T, order: KeyOrder)
    ensures { T.reading.content left.now ≡ T.reading.content right.now →
        named_form order (T.written left.now) ≡ named_form order (T.written right.now) }
{}

/// What is written in its deterministic form is read back: where a program can hold a tree that has
/// a form by an order of keys, the deterministic reader of that order takes the encoding of the
/// form, whatever follows it, and returns just the form, where as many levels are left as it takes,
/// unless the reader or an allocation failed (RFC 8949, section 4.2).
pub fn form_is_read_back()
    ensures { FormIsReadBack }
{}

/// The same for one value that was written and read. Where `bytes` are what
/// `into_writer_deterministic` wrote of `value` in this order, into an empty list, and `tree` was
/// read at their front by `from_reader_deterministic_with_order` in the same order, with `rest`
/// after it, `tree` is the deterministic form of what the value names. A caller that writes and
/// reads calls this after its other calls, and needs no proof file.
pub fn is_form_read_back<T: Serialize>(
    value: &T,
    tree: &Value,
    order: KeyOrder,
    limit: usize,
    bytes: &[u8],
    rest: &[u8],
)
    ensures { IsFormReadBack order (T.written value.now) limit tree.now bytes.now rest.now }
{}

/// The same where the form is read as the type of the value. Where `bytes` are what
/// `into_writer_deterministic` wrote of `value` in this order, into an empty list, and `again` was
/// read at their front by `from_reader` within `limit` levels, with `rest` after it, the contents
/// of `value` and `again` are equal. That is promised where reading takes from the form what it
/// takes from the tree that the value names, whatever the order of the pairs, and so where that
/// tree is its own form. It rests on the type's own law (`ReadsBack`).
pub fn written_deterministically_is_read_back<T: ReadsBack>(
    value: &T,
    again: &T,
    limit: usize,
    order: KeyOrder,
    bytes: &[u8],
    rest: &[u8],
)
    ensures alike { IsFormContentReadBack (IsFormReadAlike T.reading.taken order) T.is_valid
        T.written T.reading order limit value.now again.now bytes.now rest.now }
    ensures own { IsFormContentReadBack (IsOwnForm order) T.is_valid T.written T.reading order limit
        value.now again.now bytes.now rest.now }
{}

/// The same for a type to which neither the order of pairs nor the folding of bignums makes a
/// difference. Where `bytes` are what `into_writer_deterministic` wrote of `value` in this order,
/// into an empty list, and `again` was read at their front by `from_reader` within `limit` levels,
/// with `rest` after it, the contents of `value` and `again` are equal. Nothing is asked of what
/// the value names: it rests on the type's own law (`FormReadsBack`). A caller that writes and
/// reads calls this after its other calls, and needs no proof file.
pub fn form_gives_content<T: FormReadsBack>(
    value: &T,
    again: &T,
    limit: usize,
    order: KeyOrder,
    bytes: &[u8],
    rest: &[u8],
)
    ensures { IsFormContentGiven T.is_valid T.written T.reading order limit
        value.now again.now bytes.now rest.now }
{}

/// The order of `CanonicalValue`, which `<`, `max` and the library's sorts take from its `Ord`, is
/// the canonical one for any two values that a program holds (RFC 8949, section 4.2.3). It is
/// total, and only equal ones of such values compare as equal.
pub fn order_of_canonical_values()
    ensures canonical { IsOrderOfTrees LengthFirst }
    ensures total { IsTotal LengthFirst }
    ensures ties { TiesEqualOnes LengthFirst }
{}

/// The order of `BytewiseValue` is the bytewise one for any two values that a program holds (RFC
/// 8949, section 4.2.1). It is total, and only equal ones of such values compare as equal.
pub fn order_of_bytewise_values()
    ensures bytewise { IsOrderOfTrees Bytewise }
    ensures total { IsTotal Bytewise }
    ensures ties { TiesEqualOnes Bytewise }
{}

/// Each type is read as one function of the item: `deserialized` from a value, and `from_reader`
/// from its encoding, give the same value or are refused with the same kind. Failures of
/// allocations and of the reader apart, reading bytes may also be refused for nesting, which
/// reading a tree never is, or as too long: a limit decides nothing but nesting, since a `reading`
/// has no other use of it.
pub fn sources_agree<T: Deserialize>()
    ensures { SourcesAgree T.reading.taken }
{}

/// What is written is read back: the bytes that `into_writer` writes of a value, whatever follows
/// them, give its content where as many levels are left as reading it takes, and what follows is
/// left. Reading fails only for reasons that are independent of the item: the reader or an
/// allocation fails, or its bytes pass the greatest offset. What `Value::serialized` makes of a
/// value gives its content by `deserialized`, which fails only where an allocation fails. It rests
/// on the type's own law (`ReadsBack`).
pub fn written_is_read_back<T: ReadsBack>()
    ensures bytes { BytesReadBack T.is_valid T.written T.reading T.levels }
    ensures tree { TreeReadBack T.is_valid T.written T.reading }
    // The same of what was returned, as a caller has it after its calls.
    ensures tree_gives { TreeGivesContent T.is_valid T.written T.reading }
{}

/// The same for one value that was written and read. Where `bytes` are what `into_writer` wrote of
/// `value`, and `again` was read at their front within `limit` levels, with `rest` after it, the
/// contents of `value` and `again` are equal. A caller that writes and reads calls this after its
/// other calls, and needs no proof file.
pub fn is_read_back<T: ReadsBack>(value: &T, again: &T, limit: usize, bytes: &[u8], rest: &[u8])
    ensures { IsContentReadBack T.is_valid T.written T.reading T.levels limit
        value.now again.now bytes.now rest.now }
{}

/// A sequence is read back: the bytes that `write_sequence` writes of values give their contents,
/// in order and no others, where each value takes no more levels than are left, and nothing stays
/// unread. Reading fails only for reasons that are independent of the items: the reader or an
/// allocation fails, or the bytes of one item pass the greatest offset. It rests on the type's own
/// law (`ReadsBack`).
pub fn sequence_is_read_back<T: ReadsBack>()
    ensures { SequenceReadsBack T.is_valid T.written T.reading T.levels }
{}

/// The same for one list that was written and read. Where `bytes` are what `write_sequence` wrote
/// of `values`, and `read_sequence` read `again` from them, with `rest` after it, the contents of
/// `values` and `again` are equal. A caller that writes and reads calls this after its other calls,
/// and needs no proof file.
pub fn are_read_back<T: ReadsBack>(values: &[T], again: &Vec<T>, bytes: &[u8], rest: &[u8])
    ensures { AreContentsReadBack T.is_valid T.written T.reading T.levels
        values.now again.now.items bytes.now rest.now }
{}

/// Equal contents are written as equal bytes: two values of equal content name the same item, or
/// are refused with the same kind, and `into_writer` writes the same bytes of both. So a copy is
/// written as its original. It rests on the type's own law (`WritesContent`).
pub fn equal_contents_equal_bytes<T: WritesContent>()
    ensures bytes { WriteSameBytes T.written T.reading.content }
    ensures refused { AreRefusedAlike T.written T.reading.content }
    // The same of what was written, as a caller has it after its calls.
    ensures left { LeaveSameBytes T.written T.reading.content }
{}

/// What was read back is written again as the item that it was read from. That is so for every
/// value with the content that reading the bytes or the tree of a value gives, where the limit
/// leaves as many levels as reading takes (`ReadsBack`).
pub fn read_back_is_written_again<T: ReadsBack + WritesContent>()
    ensures bytes { BytesWrittenAgain T.is_valid T.written T.reading T.levels }
    ensures tree { TreeWrittenAgain T.is_valid T.written T.reading }
{}

/// No bytes are two sequences (RFC 8742, section 2): the items need nothing between them that says
/// where one ends and the next begins.
pub fn one_sequence()
    ensures { OneSequence }
{}
