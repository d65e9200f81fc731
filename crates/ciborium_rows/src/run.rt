//! The command line: which words are right, what they ask for, and the status.

use crate::answers::answer_lines;
use crate::growth::{find_call, make_call, name_outcome, status_of_outcome};
use std::alloc::Global;
use std::io::{self, Read, Write};

/// Does what the words say, which are the program's arguments without its name, and returns the
/// exit status. `typed` answers each line of the input by a line on the output; the status is 0.
/// `growth CALL` makes a call, and names what came of it: `value`, `memory`, `preparing` or
/// `wrong`, with status 0, 3, 4 or 1. It is 2 for any other words: the usage is then written to
/// `errors`. Where the input or the output fails, or an allocation fails for a line, the run ends
/// with status 1, and `errors` names the error.
pub fn run<R: Read, W: Write, E: Write>(
    alloc: Global,
    words: &[String],
    input: &mut R,
    output: &mut W,
    errors: &mut E,
) -> u8 {
    match words {
        [job] if job.as_str() == "typed" => {
            let answered = answer_lines(alloc, input, output);
            finish(answered, 0, errors)
        }
        [job, name] if job.as_str() == "growth" => {
            let Some(call) = find_call(name.as_str()) else {
                return refuse_words(errors);
            };
            let outcome = make_call(alloc, call);
            let written = output.write_all(name_outcome(outcome).as_bytes());
            finish(written, status_of_outcome(outcome), errors)
        }
        _ => refuse_words(errors),
    }
}

/// Writes that the arguments could not be read, for want of memory, and returns the status.
pub fn refuse_arguments<W: Write, E: Write>(output: &mut W, errors: &mut E) -> u8 {
    finish(output.write_all(b"preparing\n"), 4, errors)
}

// Writes which words are right, and returns the status.
fn refuse_words<E: Write>(errors: &mut E) -> u8 {
    let usage = "usage: ciborium_rows typed | ciborium_rows growth CALL\n";
    let _ = errors.write_all(usage.as_bytes());
    let _ = errors.flush();
    2
}

// The status of a run, or 1 where it ended in an error, which is then named.
fn finish<E: Write>(ended: io::Result<()>, status: u8, errors: &mut E) -> u8 {
    match ended {
        Ok(()) => status,
        Err(error) => {
            // A message that is refused has nowhere else to go.
            let _ = writeln!(errors, "{error}");
            let _ = errors.flush();
            1
        }
    }
}
