//! Callers that write and read sequences (RFC 8742, section 2), each with a contract of its own.
ghost use Rattle.std.specs.Prelude.{◌≡◌, ◌+◌, ◌++◌, ◌≤◌, All, IfOk, IfSome, List, Ok, OnOk, Some};
ghost use Rattle.std.specs.Prelude.{length, map, ℕ};
ghost use Rattle.std.specs.Io.KnownBytes.{Appends};
ghost use Rattle.ciborium.specs.Item as item;
ghost use Rattle.ciborium.specs.Item.{Item};
ghost use Rattle.ciborium.specs.Encoding.{items_bytes};
ghost use Rattle.ciborium.specs.Meaning.{meaning};
ghost use Rattle.ciborium.specs.Places.{items_from};
ghost use Rattle.ciborium.specs.Sinks.{all_named};
ghost use Rattle.ciborium.specs.View.{result_map, tree_of};
ghost use Rattle.ciborium.specs.ItemSequences.{IsSequence};
ghost use Rattle.ciborium.specs.SequenceReads.{TakesSequence};
ghost use Rattle.ciborium.specs.SequenceWrites.{AreNamedWritten};

use ciborium::de::{self, Deserialize, RECURSION_LIMIT};
use ciborium::laws::{ReadsBack, are_read_back};
use ciborium::ser::{Error, Serialize};
use ciborium::{
    Value, from_reader_next, from_reader_next_at, into_writer, read_sequence, write_sequence,
};
use std::alloc::Global;
use std::io::{self, Read, Write};

/// Writes two values in a row. What goes out is a sequence of their two items: `into_writer` in a
/// row is all that writing a sequence takes.
pub fn write_both<T: Serialize, U: Serialize, W: Write>(
    first: &T,
    second: &U,
    writer: &mut W,
) -> Result<(), Error<io::Error>>
    ensures { OnOk result ((b : List ℕ) × (i : Item) × (j : Item) ×
        (T.written first.now ≡ Ok i) × (U.written second.now ≡ Ok j) ×
        IsSequence b (item.item i (item.item j item.no_items)) ×
        Appends (W.contents writer.old) (W.contents writer.new) b) }
{
    into_writer(first, writer)?;
    into_writer(second, writer)?;
    Ok(())
}

/// Reads two values, behind which the sequence ends: all of the bytes are a sequence of two items
/// that mean them.
pub fn read_both<R: Read>(alloc: Global, reader: &mut R) -> Option<(Value, Value)>
    ensures { (b : List ℕ) → R.remaining reader.old ≡ Some b → IfSome result (λ pair.
        (i : Item) × (j : Item) × IsSequence b (item.item i (item.item j item.no_items)) ×
        (meaning i ≡ Some (tree_of pair.0)) × (meaning j ≡ Some (tree_of pair.1))) }
{
    let Ok(Some(first)) = from_reader_next::<Value, R>(alloc, reader) else {
        return None;
    };
    let Ok(Some(second)) = from_reader_next::<Value, R>(alloc, reader) else {
        return None;
    };
    let Ok(None) = from_reader_next::<Value, R>(alloc, reader) else {
        return None;
    };
    Some((first, second))
}

/// Reads the next message of a stream in which so many bytes stand before it, and says how many
/// stand before what follows it: the message is just the bytes between. There is none at the end.
pub fn message_and_end<T: Deserialize, R: Read>(
    alloc: Global,
    reader: &mut R,
    begin: usize,
) -> Result<Option<(T, usize)>, de::Error<io::Error>>
    ensures { (b : List ℕ) → R.remaining reader.old ≡ Some b → IfOk result (λ next.
        IfSome next (λ message. (s : List ℕ) × (left : List ℕ) × (b ≡ s ++ left) ×
        (message.1 ≡ begin + length s) × (R.remaining reader.new ≡ Some left))) }
{
    let mut end = begin;
    let next = from_reader_next_at::<T, R>(alloc, reader, &mut end, RECURSION_LIMIT)?;
    let Some(message) = next else {
        return Ok(None);
    };
    Ok(Some((message, end)))
}

/// Writes messages of any type in a row, as a log that grows. At `Ok` just their items have gone
/// out, in order, and each can be written.
pub fn write_all_messages<T: Serialize, W: Write>(
    messages: &[T],
    writer: &mut W,
) -> Result<(), Error<io::Error>>
    ensures bytes { OnOk result (IfOk (all_named (map T.written messages.now)) (λ is.
        Appends (W.contents writer.old) (W.contents writer.new) (items_bytes (items_from is)))) }
    ensures written { OnOk result (AreNamedWritten (all_named (map T.written messages.now))) }
{
    write_sequence(messages, writer)
}

/// Reads such a log whole. At `Ok` all that was there are items that give the messages, in order,
/// and nothing is left.
pub fn read_all_messages<T: Deserialize, R: Read>(
    alloc: Global,
    reader: &mut R,
) -> Result<Vec<T>, de::Error<io::Error>>
    ensures { TakesSequence (Some 256) T.reading.taken (R.remaining reader.old)
        (R.remaining reader.new) (result_map (λ vs. map T.reading.content vs.items) result) }
{
    read_sequence(alloc, reader)
}

/// Writes messages into memory and reads them from there, as from a log that was kept. What comes
/// back is what counts of each message, in order: by the law of the library, of each type that is
/// read back as it is written.
pub fn keep_all_messages<T: ReadsBack>(alloc: Global, messages: &[T]) -> Option<Vec<T>>
    requires valid { All T.is_valid messages.now }
    requires levels { All (λ v. T.levels v ≤ 256) messages.now }
    ensures { IfSome result
        (λ vs. map T.reading.content vs.items ≡ map T.reading.content messages.now) }
{
    let mut log = Vec::new(alloc);
    let Ok(()) = write_sequence(messages, &mut log) else {
        return None;
    };
    let bytes: &[u8] = &log;
    let mut reader = bytes;
    let Ok(kept) = read_sequence::<T, _>(alloc, &mut reader) else {
        return None;
    };
    are_read_back(messages, &kept, bytes, reader);
    Some(kept)
}
