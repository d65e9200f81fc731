//! Callers that write a value and read it again: it is the value. And one that writes two values of
//! one content: the bytes are the same.
ghost use Rattle.std.specs.Prelude.{◌<◌, ◌^◌, ◌≡◌, ◌≤◌, IfErr, IfOk, IfSome, List};
ghost use Rattle.std.specs.Prelude.{string_bytes, ℕ};
ghost use Rattle.std.specs.Io.KnownBytes.{Appends, Consumes};
ghost use Rattle.ciborium.specs.Given.{gives};
ghost use Rattle.ciborium.specs.View.{tree_of};
ghost use Rattle.ciborium.specs.DeterministicWrites.{named_form};
ghost use Rattle.ciborium_value.specs.declared.key_order.KeyOrder.TheVariants.{LengthFirst};
ghost use Rattle.ciborium.specs.declared.de.error.Error.TheVariants.{Memory};
ghost use Rattle.ciborium.specs.laws.FormRoundTrips.{IsOwnForm};
ghost use Rattle.ciborium.specs.laws.Loaded.{AreDeterministicParts, entry_trees};

use crate::own_types::Message;
use ciborium::de::{self, from_reader_deterministic, from_reader_deterministic_with_order};
use ciborium::laws::{
    FormReadsBack, ReadsBack, WritesContent, equal_contents_equal_bytes, form_gives_content,
    is_form_read_back, is_loaded, is_read_back, store_is_deterministic,
    written_deterministically_is_read_back, written_is_read_back, written_reads_back,
};
use ciborium::ser::{self, Serialize};
use ciborium::value::{CanonicalValue, Error, KeyOrder, Value};
use ciborium::{from_reader, from_slice, into_writer, into_writer_deterministic, to_vec};
use std::alloc::Global;
use std::collections::BTreeMap;
use std::io::{self, Read, Write};

/// Through bytes.
pub fn through_bytes<T: ReadsBack>(alloc: Global, value: &T) -> Option<T>
    requires valid { T.is_valid value.now }
    requires levels { T.levels value.now ≤ 256 }
    ensures { IfSome result (λ again.
        T.reading.content again ≡ T.reading.content value.now) }
{
    let mut bytes = Vec::new(alloc);
    let Ok(()) = into_writer(value, &mut bytes) else {
        return None;
    };
    let whole: &[u8] = &bytes;
    let mut reader = whole;
    let Ok(again) = from_reader::<T, _>(alloc, &mut reader) else {
        return None;
    };
    is_read_back(value, &again, 256, whole, reader);
    Some(again)
}

/// Through a list of bytes, all of which are read again. A value that has an item is refused for
/// want of memory alone.
pub fn through_vec<T: ReadsBack>(alloc: Global, value: &T) -> Result<T, de::Error<io::Error>>
    requires valid { T.is_valid value.now }
    requires levels { T.levels value.now ≤ 256 }
    ensures ok { IfOk result (λ again. T.reading.content again ≡ T.reading.content value.now) }
    ensures refused { IfOk (T.written value.now) (λ i. IfErr result (λ e. e ≡ Memory)) }
{
    written_reads_back();
    match to_vec(alloc, value) {
        Ok(bytes) => from_slice(alloc, &bytes),
        Err(ser::Error::Value(kind)) => Err(de::Error::semantic(None, kind)),
        Err(_) => Err(de::Error::Memory),
    }
}

/// Through a `Value`.
pub fn through_tree<T: ReadsBack>(alloc: Global, value: &T) -> Result<T, Error>
    requires { T.is_valid value.now }
    ensures { IfOk result (λ again. T.reading.content again ≡ T.reading.content value.now) }
{
    written_is_read_back::<T>();
    let tree = Value::serialized(alloc, value)?;
    tree.deserialized(alloc)
}

/// A store by canonical values, saved, and loaded from its one deterministic encoding: it is the
/// store again. Each of its keys and values has such an encoding too.
pub fn through_store(
    alloc: Global,
    store: &BTreeMap<CanonicalValue, Value>,
) -> Option<BTreeMap<CanonicalValue, Value>>
    requires parts { AreDeterministicParts LengthFirst store.now.entries }
    ensures { IfSome result
        (λ again. entry_trees again.entries ≡ entry_trees store.now.entries) }
{
    store_is_deterministic(store);
    let mut bytes = Vec::new(alloc);
    let Ok(()) = into_writer(store, &mut bytes) else {
        return None;
    };
    let whole: &[u8] = &bytes;
    let mut reader = whole;
    let Ok(value) = from_reader_deterministic(alloc, &mut reader, 256) else {
        return None;
    };
    let Ok(again) = value.deserialized::<BTreeMap<CanonicalValue, Value>>(alloc) else {
        return None;
    };
    is_loaded(store, &value, &again, 256, whole, reader);
    Some(again)
}

/// Through the deterministic encoding in an order of keys. What is read is the deterministic form
/// of what the value names.
pub fn through_form<T: Serialize>(alloc: Global, value: &T, order: KeyOrder) -> Option<Value>
    ensures { IfSome result
        (λ tree. named_form order (T.written value.now) ≡ gives (tree_of tree)) }
{
    let mut bytes = Vec::new(alloc);
    let Ok(()) = into_writer_deterministic(alloc, value, order, &mut bytes) else {
        return None;
    };
    let whole: &[u8] = &bytes;
    let mut reader = whole;
    let Ok(tree) = from_reader_deterministic_with_order(alloc, &mut reader, 256, order) else {
        return None;
    };
    is_form_read_back(value, &tree, order, 256, whole, reader);
    Some(tree)
}

/// The same as the type of the value, to which the order of pairs makes no difference.
pub fn through_sorted_form<T: FormReadsBack>(alloc: Global, value: &T, order: KeyOrder) -> Option<T>
    requires { T.is_valid value.now }
    ensures { IfSome result (λ again.
        T.reading.content again ≡ T.reading.content value.now) }
{
    let mut bytes = Vec::new(alloc);
    let Ok(()) = into_writer_deterministic(alloc, value, order, &mut bytes) else {
        return None;
    };
    let whole: &[u8] = &bytes;
    let mut reader = whole;
    let Ok(again) = from_reader::<T, _>(alloc, &mut reader) else {
        return None;
    };
    form_gives_content(value, &again, 256, order, whole, reader);
    Some(again)
}

/// The same as the type of the value, where what it names is its own form.
pub fn through_own_form<T: ReadsBack>(alloc: Global, value: &T, order: KeyOrder) -> Option<T>
    requires valid { T.is_valid value.now }
    requires own { IsOwnForm order (T.written value.now) }
    ensures { IfSome result (λ again.
        T.reading.content again ≡ T.reading.content value.now) }
{
    let mut bytes = Vec::new(alloc);
    let Ok(()) = into_writer_deterministic(alloc, value, order, &mut bytes) else {
        return None;
    };
    let whole: &[u8] = &bytes;
    let mut reader = whole;
    let Ok(again) = from_reader::<T, _>(alloc, &mut reader) else {
        return None;
    };
    written_deterministically_is_read_back(value, &again, 256, order, whole, reader);
    Some(again)
}

/// The same of a message, whose fields are sorted as it is written, and read by their names.
pub fn message_through_form(alloc: Global, message: &Message, order: KeyOrder) -> Option<Message>
    requires { message.now.version < 2 ^ 8 }
    ensures version { IfSome result (λ again. again.version ≡ message.now.version) }
    ensures body { IfSome result
        (λ again. string_bytes again.body ≡ string_bytes message.now.body) }
{
    let mut bytes = Vec::new(alloc);
    let Ok(()) = into_writer_deterministic(alloc, message, order, &mut bytes) else {
        return None;
    };
    let whole: &[u8] = &bytes;
    let mut reader = whole;
    let Ok(again) = from_reader::<Message, _>(alloc, &mut reader) else {
        return None;
    };
    written_deterministically_is_read_back(message, &again, 256, order, whole, reader);
    Some(again)
}

/// Reads a deterministic encoding, and writes what was read: the same bytes.
pub fn copy_deterministic<R: Read, W: Write>(
    alloc: Global,
    reader: &mut R,
    writer: &mut W,
) -> Option<()>
    ensures { IfSome result (λ u. (b : List ℕ) ×
        Consumes (R.remaining reader.old) (R.remaining reader.new) b ×
        Appends (W.contents writer.old) (W.contents writer.new) b) }
{
    let Ok(value) = from_reader_deterministic(alloc, reader, 256) else {
        return None;
    };
    let Ok(()) = into_writer(&value, writer) else {
        return None;
    };
    Some(())
}

/// The bytes of two values with equal contents.
pub fn bytes_of_both<T: WritesContent>(
    alloc: Global,
    left: &T,
    right: &T,
) -> Option<(Vec<u8>, Vec<u8>)>
    requires { T.reading.content left.now ≡ T.reading.content right.now }
    ensures { IfSome result (λ both. both.0.items ≡ both.1.items) }
{
    equal_contents_equal_bytes::<T>();
    let mut first = Vec::new(alloc);
    into_writer(left, &mut first).ok()?;
    let mut second = Vec::new(alloc);
    into_writer(right, &mut second).ok()?;
    Some((first, second))
}
