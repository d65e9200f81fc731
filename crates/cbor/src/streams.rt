//! Streams of items: sequences as bytes, not in hex (RFC 8742).

ghost use Rattle.std.specs.Prelude.{◌≡◌, ◌<◌, ◌⊎◌, ◌++◌, ℕ, IfOk, IfSome, List};
ghost use Rattle.std.specs.Prelude.{MatchOption, None, OnOk, Some, [], drop, false};
ghost use Rattle.std.specs.Prelude.{if◌then◌else◌, length};
ghost use Rattle.std.specs.Bool.{MatchBool};
ghost use Rattle.std.specs.Io.Buffered.{reader_buffer, reader_remaining};
ghost use Rattle.std.specs.Io.KnownBytes.{Keeps, append_known, prepend_known};
ghost use Rattle.ciborium_ll.specs.ItemLengths.{IsNoItem};
ghost use Rattle.ciborium_ll.specs.Levels.{AreItem};
ghost use Rattle.ciborium_ll.specs.declared.item_heads.NoItem.{NoItem};
ghost use Rattle.ciborium.specs.ValueAnswers.{IsRefusedBy};
ghost use Rattle.cbor.specs.Answer.{IsFrontRefused, refusal_behind, refused_text, wants_memory};
ghost use Rattle.cbor.specs.Lines.{text_line};
ghost use Rattle.cbor.specs.Sequence.{refused_item_text};
ghost use Rattle.cbor.specs.Shown.{shown_spelling};
ghost use Rattle.cbor.specs.Spellings.{RefusesItem};
ghost use Rattle.cbor.specs.Streams.{HoldsItem, IsFront, IsItemLine, IsJudged, IsReadNext};
ghost use Rattle.cbor.specs.Streams.{IsStreamShown, IsTaken, refused_line};
ghost use Rattle.cbor.specs.declared.reading.Spelling.{Spelling};
ghost use Rattle.cbor.specs.declared.reading.Spelling.TheVariants.{Any, Deterministic};

use crate::answer::LineRefusal;
use crate::fault::Fault;
use crate::items::{name_refusal, read_front};
use crate::lines::{put_text, send_waiting};
use crate::reading::{Showing, Spelling};
use crate::retrying::Retrying;
use crate::sequences::{write_formless_item, write_refused_item};
use crate::showing::{make_shown, push_shown, shown_spelling};
use ciborium::de::{Error, from_reader_deterministic_with_order, from_reader_next_at};
use ciborium_ll::{NotCopied, copy_item, item_len};
use ciborium_value::canonical::encoded_size;
use ciborium_value::{KeyOrder, Value};
use std::alloc::Global;
use std::io::{self, BufRead, BufReader, Read, Write};

// What comes next in a stream.
enum Next {
    // An item of so many bytes: its value, or why it is refused.
    Item(Result<Value, LineRefusal>, usize),
    // No well-formed item of at most 256 levels, and why what stands there is refused.
    NoItem(LineRefusal),
}

/// Shows each item of the input, which is a sequence as bytes, by a line on the output, and says
/// whether all of the input is a sequence of items, each in a spelling that may be shown so and
/// within this many levels.
/// For an item that is refused the line gives the place, a text that stands before all else, the
/// number of the item, counted from 1, and the reason, with the offset counted from the first byte
/// of the input. So it does where the deterministic form of items is shown, for one that has none.
/// Behind a well-formed item that is refused the next one is shown. Where no well-formed item
/// stands, or one nests deeper than 256 levels and is refused, nothing is read after it: its line
/// is the last one, and the reason is `io` where the end of the input cuts it short.
/// Lines wait until the input's device is asked for more, or until there are many, and are then
/// written together and flushed. No item is held longer than until its line is made.
///
/// # Errors
///
/// The first fault: the input, the output or an allocation for an item fails.
pub fn show_items<R: Read, W: Write>(
    alloc: Global,
    input: &mut R,
    place: &[u8],
    showing: Showing,
    limit: usize,
    output: &mut W,
) -> Result<bool, Fault>
    ensures { (b w : List ℕ) → R.remaining input.old ≡ Some b → W.contents output.old ≡ Some w →
        IfOk result (λ all. IsStreamShown place.now showing b limit w all (W.contents output.new)) }
{
    let Ok(reader) = BufReader::new(alloc, Retrying::new(input)) else {
        return Err(Fault::Memory);
    };
    let mut waiting = Vec::new(alloc);
    let shown = show_stream(alloc, reader, place, showing, limit, &mut waiting, output);
    send_lines(&mut waiting, output)?;
    shown
}

// Shows the items that a reader has left, by lines behind the texts that wait.
fn show_stream<R: Read + Drop, W: Write>(
    alloc: Global,
    mut reader: BufReader<R>,
    place: &[u8],
    showing: Showing,
    limit: usize,
    waiting: &mut Vec<u8>,
    output: &mut W,
) -> Result<bool, Fault>
    ensures { (b w : List ℕ) → reader_remaining R.remaining reader ≡ Some b →
        append_known (W.contents output.old) waiting.old.items ≡ Some w →
        IfOk result (λ all. IsStreamShown place.now showing b limit w all
        (append_known (W.contents output.new) waiting.new.items)) }
{
    let mut buffer = Vec::new(alloc);
    let mut line = Vec::new(alloc);
    let spelling = shown_spelling(showing);
    let mut offset: usize = 0;
    let mut all = true;
    'items: for number in 1..u64::MAX {
        let (next, behind) = next_item(alloc, reader, spelling, limit, waiting, output)?;
        reader = behind;
        match next {
            None => return Ok(all),
            Some(Next::Item(item, size)) => {
                let is_shown = show_judged(
                    item,
                    place,
                    showing,
                    number,
                    offset,
                    &mut buffer,
                    &mut line,
                    waiting,
                    output,
                )?;
                all &= is_shown;
                // It fits in practice, as it does for a refusal: no device gives so many bytes.
                offset = offset.checked_add(size).ok_or(Fault::Input)?;
            }
            Some(Next::NoItem(refusal)) => {
                show_refused(place, number, offset, refusal, &mut line, waiting, output)?;
                return Ok(false);
            }
        }
    }
    // Unreachable in practice: no device gives so many items.
    Err(Fault::Input)
}

// Takes the item at the front, and judges it, or says why there is none, or that nothing is left.
// Where the buffer does not hold it whole, so that the device is asked for more, the waiting lines
// are sent first. The reader is handed back.
fn next_item<R: Read + Drop, W: Write>(
    alloc: Global,
    mut reader: BufReader<R>,
    spelling: Spelling,
    limit: usize,
    waiting: &mut Vec<u8>,
    output: &mut W,
) -> Result<(Option<Next>, BufReader<R>), Fault>
    ensures next { (b : List ℕ) → reader_remaining R.remaining reader ≡ Some b →
        IfOk result (λ t. MatchOption t.0 (b ≡ []) (λ next. (0 < length b)
        × IsTaken spelling b limit (reader_remaining R.remaining t.1) next)) }
    ensures sent { HoldsItem (reader_buffer reader) ⊎ (waiting.new.items ≡ []) }
    ensures held { (w : List ℕ) →
        append_known (W.contents output.old) waiting.old.items ≡ Some w →
        OnOk result (append_known (W.contents output.new) waiting.new.items ≡ Some w) }
{
    if let Some((item, size)) = take_held(alloc, &mut reader, spelling, limit) {
        return Ok((Some(Next::Item(item, size)), reader));
    }
    send_lines(waiting, output)?;
    if is_at_end(&mut reader)? {
        return Ok((None, reader));
    }
    let (next, reader) = take_copied(alloc, reader, spelling, limit)?;
    Ok((Some(next), reader))
}

// Takes the item at the front, and judges it, where the buffer holds it whole, and otherwise takes
// nothing.
fn take_held<R: Read>(
    alloc: Global,
    reader: &mut BufReader<R>,
    spelling: Spelling,
    limit: usize,
) -> Option<(Result<Value, LineRefusal>, usize)>
    ensures item { (b : List ℕ) → reader_remaining R.remaining reader.old ≡ Some b →
        MatchOption result (reader_remaining R.remaining reader.new ≡ Some b)
        (λ item. IsFront spelling b limit item.0 item.1
        × (reader_remaining R.remaining reader.new ≡ Some (drop item.1 b))) }
    ensures held { IfSome result (λ _. HoldsItem (reader_buffer reader.old)) }
{
    let (item, size) = find_item(alloc, reader.buffer(), spelling, limit)?;
    reader.consume(size);
    Some((item, size))
}

// Judges the item at the front of bytes that hold it whole, and counts its bytes.
fn find_item(
    alloc: Global,
    held: &[u8],
    spelling: Spelling,
    limit: usize,
) -> Option<(Result<Value, LineRefusal>, usize)>
    ensures { IfSome result (λ item. IsFront spelling held.now limit item.0 item.1) }
{
    let mut rest = held;
    if let Ok(value) = read_front(alloc, &mut rest, spelling, limit) {
        return Some((Ok(value), held.len() - rest.len()));
    }
    let Ok(size) = item_len(held) else {
        return None;
    };
    let item = judge_item(alloc, &held[..size], spelling, limit);
    Some((item, size))
}

// The value of an item, of which these are the bytes, or why it is refused.
fn judge_item(
    alloc: Global,
    item: &[u8],
    spelling: Spelling,
    limit: usize,
) -> Result<Value, LineRefusal>
    ensures { AreItem item.now → IsJudged spelling item.now limit result }
{
    let mut rest = item;
    read_front(alloc, &mut rest, spelling, limit)
}

// Takes the item at the front, and judges it, or says why there is none. Its bytes are copied, so
// that they are taken also where they are no value.
fn take_copied<R: Read + Drop>(
    alloc: Global,
    mut reader: BufReader<R>,
    spelling: Spelling,
    limit: usize,
) -> Result<(Next, BufReader<R>), Fault>
    ensures { (b : List ℕ) → reader_remaining R.remaining reader ≡ Some b →
        IfOk result (λ t. IsTaken spelling b limit (reader_remaining R.remaining t.1) t.0) }
{
    let mut item = Vec::new(alloc);
    match copy_item(&mut reader, &mut item) {
        Ok(()) => {
            let judged = judge_item(alloc, &item, spelling, limit);
            Ok((Next::Item(judged, item.len()), reader))
        }
        Err(NotCopied::NoItem(_)) => read_behind(alloc, &item, reader, spelling, limit),
        Err(NotCopied::Io(_)) => Err(Fault::Input),
        Err(NotCopied::Memory) => Err(Fault::Memory),
    }
}

// Reads the item whose first bytes were taken, and are none, or says why it is refused.
fn read_behind<R: Read + Drop>(
    alloc: Global,
    taken: &[u8],
    reader: BufReader<R>,
    spelling: Spelling,
    limit: usize,
) -> Result<(Next, BufReader<R>), Fault>
    ensures { (left : List ℕ) (why : NoItem) → reader_remaining R.remaining reader ≡ Some left →
        IsNoItem (taken.now ++ left) why → IfOk result (λ t. IsTaken spelling (taken.now ++ left)
        limit (reader_remaining R.remaining t.1) t.0) }
{
    let mut whole = Behind { taken, reader };
    match read_next(alloc, &mut whole, spelling, limit)? {
        Ok((value, size)) => {
            // It nests deeper than 256 levels, and what was taken is only its beginning.
            if !whole.taken.is_empty() {
                drop(value);
                return Err(Fault::Input);
            }
            Ok((Next::Item(Ok(value), size), whole.reader))
        }
        Err(refusal) => Ok((Next::NoItem(refusal), whole.reader)),
    }
}

// A reader before which other bytes stand.
#[derive(Drop)]
struct Behind<'b, R> {
    taken: &'b [u8],
    reader: R,
}

impl<R: Read> Read for Behind<'_, R> {
    ghost remaining = { λ whole. prepend_known whole.taken.now (R.remaining whole.reader) };

    fn read(&mut self, buffer: &mut [u8]) -> io::Result<usize> {
        if self.taken.is_empty() {
            return self.reader.read(buffer);
        }
        self.taken.read(buffer)
    }
}

/// Whether a reader has nothing left.
///
/// # Errors
///
/// `Input` where the input fails.
pub fn is_at_end<R: Read>(reader: &mut BufReader<R>) -> Result<bool, Fault>
    ensures end { (b : List ℕ) → reader_remaining R.remaining reader.old ≡ Some b →
        IfOk result (λ is_end. MatchBool is_end (b ≡ []) (0 < length b)) }
    ensures kept { (b : List ℕ) → reader_remaining R.remaining reader.old ≡ Some b →
        OnOk result (reader_remaining R.remaining reader.new ≡ Some b) }
{
    match reader.fill_buf() {
        Ok(bytes) => Ok(bytes.is_empty()),
        Err(_) => Err(Fault::Input),
    }
}

// Reads the item at the front, and counts its bytes, or says why it is refused.
fn read_next<R: Read>(
    alloc: Global,
    reader: &mut R,
    spelling: Spelling,
    limit: usize,
) -> Result<Result<(Value, usize), LineRefusal>, Fault>
    ensures { (b : List ℕ) → R.remaining reader.old ≡ Some b →
        IfOk result (λ next.
        IsReadNext spelling b limit (R.remaining reader.new) next) }
{
    match spelling {
        Spelling::Any => read_any(alloc, reader, limit),
        Spelling::Deterministic(order) => read_deterministic(alloc, reader, limit, order),
    }
}

// The same in any spelling.
fn read_any<R: Read>(
    alloc: Global,
    reader: &mut R,
    limit: usize,
) -> Result<Result<(Value, usize), LineRefusal>, Fault>
    ensures { (b : List ℕ) → R.remaining reader.old ≡ Some b →
        IfOk result (λ next.
        IsReadNext Any b limit (R.remaining reader.new) next) }
{
    let mut size = 0;
    match from_reader_next_at(alloc, reader, &mut size, limit) {
        Ok(Some(value)) => Ok(Ok((value, size))),
        // Unreachable where the input keeps what it showed: it was not at its end.
        Ok(None) => Err(Fault::Input),
        Err(error) => {
            let refusal = judge_error(error, reader)?;
            Ok(Err(refusal))
        }
    }
}

// The same in the deterministic spelling.
fn read_deterministic<R: Read>(
    alloc: Global,
    reader: &mut R,
    limit: usize,
    order: KeyOrder,
) -> Result<Result<(Value, usize), LineRefusal>, Fault>
    ensures { (b : List ℕ) → R.remaining reader.old ≡ Some b →
        IfOk result (λ next. IsReadNext (Deterministic order) b limit
        (R.remaining reader.new) next) }
{
    match from_reader_deterministic_with_order(alloc, reader, limit, order) {
        Ok(value) => {
            let size = encoded_size(&value) as usize;
            Ok(Ok((value, size)))
        }
        Err(error) => {
            let refusal = judge_error(error, reader)?;
            Ok(Err(refusal))
        }
    }
}

// The refusal that an error of reading an item stands for, where the device did not fail.
fn judge_error<R: Read>(error: Error<io::Error>, reader: &mut R) -> Result<LineRefusal, Fault>
    requires { IsRefusedBy None error (λ _. Unit {0}) }
    ensures { (spelling : Spelling) (b left : List ℕ) (limit : ℕ) →
        R.remaining reader.old ≡ Some left →
        IsRefusedBy (R.remaining reader.old) error
        (RefusesItem spelling b limit) →
        IfOk result (λ refusal. IsFrontRefused spelling b limit refusal) }
{
    let Ok(is_cut) = error.is_cut_short(reader) else {
        return Err(Fault::Input);
    };
    name_refusal(error, is_cut).ok_or(Fault::Input)
}

// Puts the line of an item that was judged behind the texts that wait, and says whether the item is
// shown. `buffer` and `line` are buffers for its encoding and for the line, to be used again.
fn show_judged<W: Write>(
    item: Result<Value, LineRefusal>,
    place: &[u8],
    showing: Showing,
    number: u64,
    offset: usize,
    buffer: &mut Vec<u8>,
    line: &mut Vec<u8>,
    waiting: &mut Vec<u8>,
    output: &mut W,
) -> Result<bool, Fault>
    ensures { (s w : List ℕ) (limit : ℕ) → IsJudged (shown_spelling showing) s limit item →
        append_known (W.contents output.old) waiting.old.items ≡ Some w →
        IfOk result (λ shown. (line : List ℕ)
        × IsItemLine place.now showing limit number offset s shown line
        × (append_known (W.contents output.new) waiting.new.items ≡ Some (w ++ line))) }
{
    let is_shown = write_judged(item, showing, number, offset, buffer, line)?;
    if !is_shown {
        put_text(place, waiting, output)?;
    }
    put_line(line, waiting, output)?;
    Ok(is_shown)
}

// Makes `line` show an item that was judged, or say why it is not shown, and says whether it is.
// `buffer` is for its encoding, to be used again.
fn write_judged(
    item: Result<Value, LineRefusal>,
    showing: Showing,
    number: u64,
    offset: usize,
    buffer: &mut Vec<u8>,
    line: &mut Vec<u8>,
) -> Result<bool, Fault>
    ensures { (place s : List ℕ) (limit : ℕ) → IsJudged (shown_spelling showing) s limit item →
        IfOk result (λ shown. IsItemLine place showing limit number offset s shown
        ((if shown then [] else place) ++ text_line line.new.items)) }
{
    match item {
        Ok(mut value) => {
            if let Err(kind) = make_shown(&mut value, showing) {
                drop(value);
                write_formless_item(number, kind, line)?;
                return Ok(false);
            }
            line.clear();
            let pushed = push_shown(&value, showing, buffer, line);
            drop(value);
            pushed?;
            Ok(true)
        }
        Err(refusal) => {
            write_refused(number, offset, refusal, line)?;
            Ok(false)
        }
    }
}

// Makes `line` say why an item is refused; its offset is counted from so many bytes before it.
fn write_refused(
    number: u64,
    offset: usize,
    refusal: LineRefusal,
    line: &mut Vec<u8>,
) -> Result<(), Fault>
    ensures { OnOk result ((wants_memory refusal ≡ false) × (line.new.items
        ≡ refused_item_text number (refused_text (refusal_behind offset refusal)))) }
{
    let refusal = refusal.behind(offset).ok_or(Fault::Input)?;
    write_refused_item(number, refusal, line)?;
    Ok(())
}

// Puts the line of an item that is refused, in this place, behind the texts that wait; its offset
// is counted from so many bytes before the item. `line` is a buffer for it, to be used again.
fn show_refused<W: Write>(
    place: &[u8],
    number: u64,
    offset: usize,
    refusal: LineRefusal,
    line: &mut Vec<u8>,
    waiting: &mut Vec<u8>,
    output: &mut W,
) -> Result<(), Fault>
    ensures { (w : List ℕ) → append_known (W.contents output.old) waiting.old.items ≡ Some w →
        OnOk result ((wants_memory refusal ≡ false)
        × (append_known (W.contents output.new) waiting.new.items
        ≡ Some (w ++ refused_line place.now number
        (refused_text (refusal_behind offset refusal))))) }
{
    write_refused(number, offset, refusal, line)?;
    put_text(place, waiting, output)?;
    put_line(line, waiting, output)
}

/// Puts a text and a line feed behind the texts that wait. What there is no room for is written,
/// and flushed.
///
/// # Errors
///
/// `Output` where the output fails, `Memory` where the allocation for the line feed does.
pub fn put_line<W: Write>(
    text: &mut Vec<u8>,
    waiting: &mut Vec<u8>,
    output: &mut W,
) -> Result<(), Fault>
    ensures { (w : List ℕ) → append_known (W.contents output.old) waiting.old.items ≡ Some w →
        OnOk result (append_known (W.contents output.new) waiting.new.items
        ≡ Some (w ++ text_line text.old.items)) }
{
    if text.push(b'\n').is_err() {
        return Err(Fault::Memory);
    }
    put_text(text, waiting, output)?;
    if waiting.is_empty() {
        return flush(output);
    }
    Ok(())
}

/// Writes the waiting lines, if any, and flushes them, since somebody may be looking.
///
/// # Errors
///
/// `Output` where the output fails.
pub fn send_lines<W: Write>(waiting: &mut Vec<u8>, output: &mut W) -> Result<(), Fault>
    ensures empty { waiting.new.items ≡ [] }
    ensures written { (w : List ℕ) →
        append_known (W.contents output.old) waiting.old.items ≡ Some w →
        OnOk result (W.contents output.new ≡ Some w) }
{
    if waiting.is_empty() {
        return Ok(());
    }
    send_waiting(waiting, output)?;
    flush(output)
}

// Flushes the output.
fn flush<W: Write>(output: &mut W) -> Result<(), Fault>
    ensures { Keeps (W.contents output.old) (W.contents output.new) }
{
    if output.flush().is_err() {
        return Err(Fault::Output);
    }
    Ok(())
}

#[cfg(test)]
mod tests;
