//! The command line: what is done for which words, and the status.

ghost use Rattle.std.specs.Prelude.{◌≡◌, ◌++◌, ◌↔◌, ℕ, IfOk, IsTrue, List, OnOk, Ok, Some};
ghost use Rattle.std.specs.Prelude.{map, string_bytes, true};
ghost use Rattle.std.specs.Io.KnownBytes.{Appends, Keeps};
ghost use Rattle.cbor.specs.Done.{IsDone};
ghost use Rattle.cbor.specs.Ends.{IsStatusOf, end_status, fault_status};
ghost use Rattle.cbor.specs.Files.{AreFilesShown, AreInputs, Input};
ghost use Rattle.cbor.specs.Topics.{topic_text};
ghost use Rattle.cbor.specs.Words.{AreWrong, AskFor, AskForFiles, takes_files};
ghost use Rattle.cbor.specs.declared.command.Command.{Command};

use crate::answering::answer_lines;
use crate::command::{Command, Topic};
use crate::dumping_streams::dump_input;
use crate::encoding::encode_lines;
use crate::exact_streams::show_exactly;
use crate::fault::Fault;
use crate::files::{Opener, show_files};
use crate::sorting::sort_lines;
use crate::streams::show_items;
use crate::topics::topic_text;
use crate::words::{judge_files, judge_words};
use ciborium::de::RECURSION_LIMIT;
use std::alloc::Global;
use std::io::{self, Read, Write};

// What is told of words that ask for nothing.
const USAGE: &str = "\
usage: cbor read [--det] [limit] | cbor sort | cbor seq
cbor --help tells of the other commands
";

/// Does what the words say, which are the program's arguments without its name, and returns the
/// exit status.
///
/// `read` answers each line of hex of the input by a line on the output, within 256 levels, and
/// `read LIMIT` within that many; a line is answered `memory` where an allocation for its answer
/// fails. `read --det`, and a limit after it, accepts deterministic encodings alone, with the keys
/// of each map in the canonical order (RFC 8949, section 4.2.3: length-first). `seq` answers each
/// line as a sequence of items (RFC 8742), each within 256 levels. `canon`, and a limit after it,
/// answers each line as `read` does, but with the deterministic encoding of its item, however the
/// line spells it, with the keys of each map in the canonical order; an item that has none is
/// answered `duplicate` or `toolarge`. `diag`, and a limit after it, answers each item with its
/// diagnostic notation (RFC 8949, section 8), and `--indent` right after `diag` lays that out over
/// lines. `encode`, and a limit after it, answers each line of diagnostic notation with the
/// encoding of the value that it denotes, or with what is wrong in it and at which byte, as
/// `expected an item at byte 4`. `dump` answers each item with its dump: a line for each of its
/// heads, with the offset, the bytes in hex and what the head says, and then an empty line; behind
/// the lines of the heads of what is no item stands why. `sort` reads all lines within 256 levels,
/// and then writes the encodings of their items in lower-case hex, a line each, in the canonical
/// order. At the first line that is no item it only writes `line`, the number of that line, counted
/// from 1, a colon and the answer to it. `--core`, right after `--det`, `canon`, `canon --binary`
/// or `sort`, takes the order of the core deterministic encoding in place of the canonical one
/// (section 4.2.1: bytewise).
///
/// `diag --binary`, `read --binary` and `canon --binary`, and a limit after them, take the input as
/// the items of a sequence in bytes. They show each as soon as it is read, by its notation, its
/// encoding in hex or its deterministic encoding in hex. For an item that is refused, or that has
/// no deterministic encoding where that is shown, they write `item`, its number, counted from 1, a
/// colon and the reason, with the offset counted from the first byte of the input, and go on behind
/// it. They end where no well-formed item stands, or one of more than 256 levels that is refused.
/// `diag --binary --exact` shows each well-formed item within 256 levels, also one without a value,
/// by the notation of its very heads, and ends where none stands, with the reason as `dump` has it.
/// `dump --binary` takes all of the input as the bytes of one item, reads it whole, and then writes
/// its dump, with a line feed behind the reason where it is none. Behind the words of these five,
/// and their limit, files may be named, which are shown one after the other; `-` is the input.
/// Before `item` stand then the name and a colon, and so they do before a fault.
/// `encode --binary`, and a limit after it, writes the encodings of the values that the lines of
/// notation denote as bytes, one behind the other (RFC 8742). At the first line that denotes none
/// it ends, and writes `line`, the number of that line, counted from 1, a colon and the reason to
/// `errors`.
/// `--help` or `-h`, as the only word, lists the commands, and `--version` prints the version.
/// No limit is more than 10,000: as LLVM builds it, any value that nests no deeper fits the stack.
///
/// The status is 0 where every line or item is as it is asked for, and 1 where one is not. It is 2
/// for any other words, and for none: the usage is then written to `errors`, and input and output
/// are left alone. Where the input or the output fails, or an allocation for a line, an item of
/// bytes, the list to sort or the dump of bytes, the run ends, and `errors` names the first such
/// fault. The status is then 3 where the input or the output failed, and 1 for an allocation, and
/// for any fault of `read`, `sort` and `seq` over lines, and of `--help` and `--version`.
pub fn run<R: Read, O: Opener, W: Write, E: Write>(
    alloc: Global,
    words: &[String],
    input: &mut R,
    opener: &O,
    output: &mut W,
    errors: &mut E,
) -> u8
    ensures wrong { AreWrong (map string_bytes words.now) →
        (result ≡ 2) × (R.remaining input.new ≡ R.remaining input.old)
        × (W.contents output.new ≡ W.contents output.old) }
    ensures right { (command : Command) →
        AskFor (map string_bytes words.now) command → IsStatusOf command result }
    ensures done { (command : Command) (w : List ℕ) →
        AskFor (map string_bytes words.now) command → W.contents output.old ≡ Some w →
        result ≡ 0 → IsDone command (R.remaining input.old) w true (W.contents output.new) }
    ensures right_files { (command : Command) (names : List (List ℕ)) →
        AskForFiles (map string_bytes words.now) command names → IsStatusOf command result }
    ensures files { (command : Command) (inputs : List Input) (w : List ℕ) →
        AskForFiles (map string_bytes words.now) command (map (λ i. i.0) inputs) →
        AreInputs (O.contents opener.now) (R.remaining input.old) inputs →
        W.contents output.old ≡ Some w → result ≡ 0 →
        AreFilesShown command inputs w true (W.contents output.new) }
{
    match judge_words(words) {
        Some(command) => {
            let done = perform(alloc, command, input, output, errors);
            conclude(command, done, errors)
        }
        None => run_on_files(alloc, words, input, opener, output, errors),
    }
}

// Does what the words say that name files, as `run` does.
fn run_on_files<R: Read, O: Opener, W: Write, E: Write>(
    alloc: Global,
    words: &[String],
    input: &mut R,
    opener: &O,
    output: &mut W,
    errors: &mut E,
) -> u8
    ensures wrong { AreWrong (map string_bytes words.now) →
        (result ≡ 2) × (R.remaining input.new ≡ R.remaining input.old)
        × (W.contents output.new ≡ W.contents output.old) }
    ensures right { (command : Command) (names : List (List ℕ)) →
        AskForFiles (map string_bytes words.now) command names → IsStatusOf command result }
    ensures files { (command : Command) (inputs : List Input) (w : List ℕ) →
        AskForFiles (map string_bytes words.now) command (map (λ i. i.0) inputs) →
        AreInputs (O.contents opener.now) (R.remaining input.old) inputs →
        W.contents output.old ≡ Some w → result ≡ 0 →
        AreFilesShown command inputs w true (W.contents output.new) }
{
    let Some((command, names)) = judge_files(words) else {
        return refuse_words(errors);
    };
    let done = perform_on_files(alloc, command, names, input, opener, output, errors);
    conclude(command, done, errors)
}

/// Tells how the program is used, and returns the exit status for words that are wrong, or that
/// cannot be read.
pub fn refuse_words<E: Write>(errors: &mut E) -> u8
    ensures { result ≡ 2 }
{
    // A message that is refused has nowhere else to go.
    let _ = report(errors, USAGE.as_bytes());
    2
}

// Writes a message, and flushes it.
fn report<E: Write>(errors: &mut E, message: &[u8]) -> io::Result<()>
    ensures { OnOk result (Appends (E.contents errors.old) (E.contents errors.new) message.now) }
{
    errors.write_all(message)?;
    errors.flush()
}

// Does what is asked for, flushes the output, and says whether every line or item is as it is asked
// for. Where nothing fails, each line is answered, be it refused or not; where lines are encoded,
// `errors` is told of the first that is refused.
//
// # Errors
//
// The first fault.
fn perform<R: Read, W: Write, E: Write>(
    alloc: Global,
    command: Command,
    input: &mut R,
    output: &mut W,
    errors: &mut E,
) -> Result<bool, Fault>
    ensures { (w : List ℕ) → W.contents output.old ≡ Some w →
        IfOk result (λ all. IsDone command (R.remaining input.old) w all
        (W.contents output.new)) }
{
    let mut message = Vec::new(alloc);
    let performed = match command {
        Command::Answer(reading) => answer_lines(alloc, input, reading, output),
        Command::Sort(order) => sort_lines(alloc, input, order, RECURSION_LIMIT, output),
        Command::Show(showing, limit) => show_items(alloc, input, b"", showing, limit, output),
        Command::ShowExactly => show_exactly(alloc, input, b"", output),
        Command::Dump => dump_input(alloc, input, output),
        Command::Encode(limit) => encode_lines(alloc, input, limit, &mut message, output),
        Command::Tell(topic) => tell(topic, output),
    };
    let done = finish(performed, output);
    tell_refused(&message, errors);
    done
}

// Shows the files of these names, and flushes the output, as `perform` does for its input.
//
// # Errors
//
// The first fault, of which `errors` has the name of the file.
fn perform_on_files<R: Read, O: Opener, W: Write, E: Write>(
    alloc: Global,
    command: Command,
    names: &[String],
    input: &mut R,
    opener: &O,
    output: &mut W,
    errors: &mut E,
) -> Result<bool, Fault>
    requires { IsTrue (takes_files command) }
    ensures { (inputs : List Input) (w : List ℕ) →
        map string_bytes names.now ≡ map (λ i. i.0) inputs →
        AreInputs (O.contents opener.now) (R.remaining input.old) inputs →
        W.contents output.old ≡ Some w →
        IfOk result (λ all. AreFilesShown command inputs w all (W.contents output.new)) }
{
    let shown = show_files(alloc, command, names, input, opener, output, errors);
    finish(shown, output)
}

// Writes what is told of a topic.
fn tell<W: Write>(topic: Topic, output: &mut W) -> Result<bool, Fault>
    ensures { (w : List ℕ) → W.contents output.old ≡ Some w → IfOk result
        (λ all. IsTrue all × (W.contents output.new ≡ Some (w ++ topic_text topic))) }
{
    if output.write_all(topic_text(topic).as_bytes()).is_err() {
        return Err(Fault::Output);
    }
    Ok(true)
}

// Writes the message of a line that is refused, if there is one.
fn tell_refused<E: Write>(message: &[u8], errors: &mut E) {
    if !message.is_empty() {
        // A message that is refused has nowhere else to go.
        let _ = report(errors, message);
    }
}

// Flushes the output of a run that found each line to be as it is asked for, or one that is not, or
// that a fault ended; this fault comes first.
fn finish<W: Write>(done: Result<bool, Fault>, output: &mut W) -> Result<bool, Fault>
    ensures same { IfOk result (λ all. done ≡ Ok all) }
    ensures kept { Keeps (W.contents output.old) (W.contents output.new) }
{
    let flushed = output.flush();
    let all = done?;
    if flushed.is_err() {
        return Err(Fault::Output);
    }
    Ok(all)
}

// The status of a run that found each line to be as it is asked for, or one that is not, or that a
// fault ended, which it names.
fn conclude<E: Write>(command: Command, done: Result<bool, Fault>, errors: &mut E) -> u8
    ensures status { result ≡ end_status command done }
    ensures all { (result ≡ 0) ↔ (done ≡ Ok true) }
{
    match done {
        Err(fault) => {
            let _ = report(errors, fault.message().as_bytes());
            fault_status(command, fault)
        }
        Ok(true) => 0,
        Ok(false) => 1,
    }
}

// The status of a run that a fault ended.
fn fault_status(command: Command, fault: Fault) -> u8
    ensures { result ≡ fault_status command fault }
{
    match fault {
        Fault::Input | Fault::Unopened | Fault::Output if command.tells_devices() => 3,
        _ => 1,
    }
}

#[cfg(test)]
mod tests;
