//! Files by name.

ghost use Rattle.std.specs.Prelude.{◌≡◌, ℕ, IfOk, IfSome, IsTrue, List, None, Some, codes, false};
ghost use Rattle.std.specs.Prelude.{Option, map, string_bytes, ◌++◌};
ghost use Rattle.cbor.specs.Files.{AreFilesShown, AreInputs, Input, IsInputShown, given_by};
ghost use Rattle.cbor.specs.Files.{is_input};
ghost use Rattle.cbor.specs.Words.{takes_files};

use crate::command::Command;
use crate::dumping_streams::dump_input;
use crate::exact_streams::show_exactly;
use crate::fault::Fault;
use crate::streams::show_items;
use std::alloc::{AllocError, Global};
use std::io::{self, Read, Write};

/// What opens files by their names.
pub trait Opener {
    /// A file that was opened.
    type File: Read + Drop;

    // The bytes of the file of a name, where they are known.
    ghost contents: { Self → List ℕ → Option (List ℕ) } = { λ opener name. None };

    /// Opens the file of this name, to be read from its beginning.
    ///
    /// # Errors
    ///
    /// That of the device.
    fn open(&self, name: &str) -> io::Result<Self::File>
        ensures { IfOk result (λ file. IfSome (contents self.now name.now)
            (λ b. Self.File.remaining file ≡ Some b)) };
}

/// Shows the files of these names one after the other, as a command shows its input, and says
/// whether each is as it is asked for. The name `-` is that of the input. Before the number of an
/// item that is refused stand the name of its file and a colon.
///
/// # Errors
///
/// The first fault. Where it is not of the output, the name of the file and a colon are written to
/// `errors`.
pub fn show_files<R: Read, O: Opener, W: Write, E: Write>(
    alloc: Global,
    command: Command,
    names: &[String],
    input: &mut R,
    opener: &O,
    output: &mut W,
    errors: &mut E,
) -> Result<bool, Fault>
    requires { IsTrue (takes_files command) }
    ensures { (inputs : List Input) (w : List ℕ) →
        map string_bytes names.now ≡ map (λ i. i.0) inputs →
        AreInputs (O.contents opener.now) (R.remaining input.old) inputs →
        W.contents output.old ≡ Some w →
        IfOk result (λ all. AreFilesShown command inputs w all (W.contents output.new)) }
{
    let mut all = true;
    'files: for name in names {
        match show_file(alloc, command, name.as_str(), input, opener, output) {
            Ok(one) => all &= one,
            Err(fault) => {
                name_file(name.as_str(), fault, errors);
                return Err(fault);
            }
        }
    }
    Ok(all)
}

// Shows the file of this name.
fn show_file<R: Read, O: Opener, W: Write>(
    alloc: Global,
    command: Command,
    name: &str,
    input: &mut R,
    opener: &O,
    output: &mut W,
) -> Result<bool, Fault>
    requires { IsTrue (takes_files command) }
    ensures shown { (b w : List ℕ) →
        given_by (O.contents opener.now) (R.remaining input.old) name.now ≡ Some b →
        W.contents output.old ≡ Some w →
        IfOk result (λ all. IsInputShown command (name.now, b) w all (W.contents output.new)) }
    ensures kept { is_input name.now ≡ false → R.remaining input.new ≡ R.remaining input.old }
{
    if is_input(name) {
        return show_input(alloc, command, name, input, output);
    }
    let Ok(mut file) = opener.open(name) else {
        return Err(Fault::Unopened);
    };
    show_input(alloc, command, name, &mut file, output)
}

// Whether a name is that of the input.
fn is_input(name: &str) -> bool
    ensures { result ≡ is_input name.now }
{
    name.len() == 1 && name.as_bytes()[0] == b'-'
}

// Shows an input of this name.
fn show_input<R: Read, W: Write>(
    alloc: Global,
    command: Command,
    name: &str,
    input: &mut R,
    output: &mut W,
) -> Result<bool, Fault>
    requires { IsTrue (takes_files command) }
    ensures { (b w : List ℕ) → R.remaining input.old ≡ Some b → W.contents output.old ≡ Some w →
        IfOk result (λ all. IsInputShown command (name.now, b) w all (W.contents output.new)) }
{
    let place = name_place(alloc, name)?;
    match command {
        Command::Show(showing, limit) => show_items(alloc, input, &place, showing, limit, output),
        Command::ShowExactly => show_exactly(alloc, input, &place, output),
        Command::Dump => dump_input(alloc, input, output),
        _ => unreachable!(),
    }
}

// What stands before the number of an item in the file of this name.
fn name_place(alloc: Global, name: &str) -> Result<Vec<u8>, AllocError>
    ensures { IfOk result (λ place. place.items ≡ name.now ++ codes ": ") }
{
    let mut place = Vec::new(alloc);
    place.extend_from_slice(name.as_bytes())?;
    place.extend_from_slice(b": ")?;
    Ok(place)
}

// Names the file in which a fault came, if it did not come from the output.
fn name_file<E: Write>(name: &str, fault: Fault, errors: &mut E) {
    if matches!(fault, Fault::Output) {
        return;
    }
    // A message that is refused has nowhere else to go.
    let _ = errors.write_all(name.as_bytes());
    let _ = errors.write_all(b": ");
}
