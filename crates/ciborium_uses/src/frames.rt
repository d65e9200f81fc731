//! Messages of a type of your own, one after another in a file: a sequence of CBOR items (RFC
//! 8742), which needs no framing of its own, since each item says where it ends.
ghost use Rattle.std.specs.Prelude.{All, IfOk, List, OnOk, Some, map, ℕ, ◌≡◌};
ghost use Rattle.std.specs.Io.KnownBytes.{Appends};
ghost use Rattle.ciborium.specs.Encoding.{items_bytes};
ghost use Rattle.ciborium.specs.NextItems.{Otherwise, TellsEnd};
ghost use Rattle.ciborium.specs.Places.{items_from};
ghost use Rattle.ciborium.specs.SequenceReads.{TakesSequence};
ghost use Rattle.ciborium.specs.SequenceWrites.{AreNamedWritten, WritesInTurn};
ghost use Rattle.ciborium.specs.Sinks.{all_named};
ghost use Rattle.ciborium.specs.View.{result_map};
ghost use Rattle.ciborium.specs.TypedAnswers.{TakesGiven};
ghost use Rattle.ciborium.specs.Writes.{WritesNamed};
ghost use Rattle.ciborium_uses.specs.Logs.{IsEndOfLog};

mod error;
mod lines;
pub mod reading;

use ciborium::de::{self, Deserialize, RECURSION_LIMIT};
use ciborium::laws::{ReadsBack, are_read_back};
use ciborium::ser::{self, Serialize};
use ciborium::{
    from_buf_reader_next, from_buf_reader_next_at, into_writer, read_buf_sequence, write_sequence,
};
pub use error::LogError;
pub use lines::answer;
use reading::Reading;
use std::alloc::Global;
use std::fs::{File, OpenOptions};
use std::io::{self, BufRead, BufReader, BufWriter, Write};

/// Writes one reading behind what was written before.
pub fn write_reading<W: Write>(
    reading: &Reading,
    writer: &mut W,
) -> Result<(), ser::Error<io::Error>>
    ensures { WritesNamed (W.contents writer.old) (W.contents writer.new) result
        (⟦<Reading as Serialize>⟧.written reading.now) }
{
    into_writer(reading, writer)
}

/// Reads the next reading, or `None` at the end. A reading that is cut short is an error.
pub fn read_reading<R: BufRead>(
    alloc: Global,
    reader: &mut R,
) -> Result<Option<Reading>, de::Error<io::Error>>
    ensures end { TellsEnd (R.remaining reader.old) (R.remaining reader.new) result }
    ensures ok { Otherwise result (λ r. TakesGiven (Some 256)
        ⟦<Reading as Deserialize>⟧.reading.taken (R.remaining reader.old)
        (R.remaining reader.new)
        (result_map ⟦<Reading as Deserialize>⟧.reading.content r)) }
{
    from_buf_reader_next(alloc, reader)
}

/// Writes readings one after another. At `Ok` just their items have gone out, in order.
pub fn write_log<W: Write>(
    readings: &[Reading],
    writer: &mut W,
) -> Result<(), ser::Error<io::Error>>
    ensures { OnOk result (IfOk (all_named (map ⟦<Reading as Serialize>⟧.written readings.now))
        (λ is. Appends (W.contents writer.old) (W.contents writer.new)
        (items_bytes (items_from is)))) }
{
    write_sequence(readings, writer)
}

/// Writes messages of any type one by one, as a log that grows: what `write_sequence` writes of
/// them.
pub fn append_log<T: Serialize, W: Write>(
    messages: &[T],
    writer: &mut W,
) -> Result<(), ser::Error<io::Error>>
    ensures bytes { WritesInTurn (W.contents writer.old) (W.contents writer.new) result
        (all_named (map T.written messages.now)) }
    ensures written { OnOk result (AreNamedWritten (all_named (map T.written messages.now))) }
{
    for message in messages {
        into_writer(message, writer)?;
    }
    Ok(())
}

/// Reads all readings to the end. At `Ok` what was there are just items that give them, in order.
pub fn read_log<R: BufRead>(
    alloc: Global,
    reader: &mut R,
) -> Result<Vec<Reading>, de::Error<io::Error>>
    ensures { TakesSequence (Some 256) ⟦<Reading as Deserialize>⟧.reading.taken
        (R.remaining reader.old) (R.remaining reader.new)
        (result_map (λ readings. map ⟦<Reading as Deserialize>⟧.reading.content readings.items)
        result) }
{
    read_buf_sequence(alloc, reader)
}

/// Writes readings into memory, and reads them from there: they are the readings that were
/// written, in order, and no others.
pub fn through_memory(alloc: Global, readings: &[Reading]) -> Result<Vec<Reading>, LogError>
    ensures { All ⟦<Reading as ReadsBack>⟧.is_valid readings.now → IfOk result
        (λ again. map ⟦<Reading as Deserialize>⟧.reading.content again.items
        ≡ map ⟦<Reading as Deserialize>⟧.reading.content readings.now) }
{
    let mut log = Vec::new(alloc);
    write_sequence(readings, &mut log)?;
    let bytes: &[u8] = &log;
    let mut rest = bytes;
    let again = read_buf_sequence::<Reading, _>(alloc, &mut rest)?;
    are_read_back(readings, &again, bytes, rest);
    Ok(again)
}

/// Writes readings into memory one by one, and reads them from there: they are those readings too.
pub fn through_appends(alloc: Global, readings: &[Reading]) -> Result<Vec<Reading>, LogError>
    ensures { All ⟦<Reading as ReadsBack>⟧.is_valid readings.now → IfOk result
        (λ again. map ⟦<Reading as Deserialize>⟧.reading.content again.items
        ≡ map ⟦<Reading as Deserialize>⟧.reading.content readings.now) }
{
    let mut log = Vec::new(alloc);
    append_log(readings, &mut log)?;
    let bytes: &[u8] = &log;
    let mut rest = bytes;
    let gathered = read_buf_sequence::<Reading, _>(alloc, &mut rest)?;
    are_read_back(readings, &gathered, bytes, rest);
    Ok(gathered)
}

/// Where the last whole message ends, of a log that may be cut within the next one. A log that is
/// refused for another reason is an error.
pub fn end_of_log<T: Deserialize, R: BufRead>(
    alloc: Global,
    reader: &mut R,
) -> Result<usize, LogError>
    ensures { (b : List ℕ) → R.remaining reader.old ≡ Some b →
        IfOk result (IsEndOfLog T.reading.taken b) }
{
    let mut end = 0;
    for _ in 0..u64::MAX {
        match from_buf_reader_next_at::<T, _>(alloc, reader, &mut end, RECURSION_LIMIT) {
            Ok(Some(_)) => {}
            Ok(None) => return Ok(end),
            Err(error) => {
                if error.is_cut_short(reader)? {
                    return Ok(end);
                }
                return Err(LogError::Read(error));
            }
        }
    }
    // No device gives so many messages.
    Err(LogError::Read(de::Error::TooLong))
}

/// Writes readings into a new file.
pub fn save_log(rt: &HostRuntime, path: &str, readings: &[Reading]) -> Result<(), LogError> {
    let mut writer = BufWriter::new(rt.alloc(), File::create(rt, path)?)?;
    write_log(readings, &mut writer)?;
    writer.flush()?;
    Ok(())
}

/// Appends one reading to a file, which is made where there is none.
pub fn append_reading(rt: &HostRuntime, path: &str, reading: &Reading) -> Result<(), LogError> {
    let file = OpenOptions::new().append(true).create(true).open(rt, path)?;
    let mut writer = BufWriter::new(rt.alloc(), file)?;
    write_reading(reading, &mut writer)?;
    writer.flush()?;
    Ok(())
}

/// Cuts a file behind its last whole reading, where it ends within the next one, and answers how
/// many bytes are left. A file that holds anything else than readings is left as it is.
pub fn mend_log(rt: &HostRuntime, path: &str) -> Result<usize, LogError> {
    let file = OpenOptions::new().read(true).write(true).open(rt, path)?;
    let mut reader = BufReader::new(rt.alloc(), file)?;
    let end = end_of_log::<Reading, _>(rt.alloc(), &mut reader)?;
    reader.into_inner().set_len(end as u64)?;
    Ok(end)
}

/// Reads the readings of a file.
pub fn load_log(rt: &HostRuntime, path: &str) -> Result<Vec<Reading>, LogError> {
    let mut reader = BufReader::new(rt.alloc(), File::open(rt, path)?)?;
    let readings = read_log(rt.alloc(), &mut reader)?;
    Ok(readings)
}

/// The readings of one sensor in a file, which is read reading by reading.
pub fn load_sensor(rt: &HostRuntime, path: &str, sensor: &str) -> Result<Vec<Reading>, LogError> {
    let mut reader = BufReader::new(rt.alloc(), File::open(rt, path)?)?;
    let mut readings = Vec::new(rt.alloc());
    for _ in 0..u64::MAX {
        let Some(reading) = read_reading(rt.alloc(), &mut reader)? else {
            return Ok(readings);
        };
        if reading.sensor.as_str() == sensor {
            readings.push(reading)?;
        }
    }
    Err(LogError::Read(de::Error::TooLong))
}
