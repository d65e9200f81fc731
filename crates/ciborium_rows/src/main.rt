//! Stored lines and their answers: `ciborium_rows typed` answers lines, such as bytes that are read
//! as a type. `ciborium_rows growth CALL` makes one call, for runs with one growth of memory
//! refused.
#![tactic(auto)]

mod alike;
mod answers;
mod counts;
mod devices;
mod faults;
mod few;
mod forms;
mod fronts;
mod growing_calls;
mod growth;
mod head_lines;
mod header_texts;
mod heads;
mod integers;
mod lines;
mod literals;
mod loads;
mod notations;
mod offsets;
mod orders;
mod outcome;
mod outlines;
mod payloads;
mod pieces;
mod plain_calls;
mod plain_heads;
mod plain_numbers;
mod plain_reads;
mod plain_values;
mod refusals;
mod run;
mod sequences;
mod types;
mod writes;
mod written_types;

use std::io::Lock;
use std::process::ExitCode;
use std::{env, io};

fn main(rt: HostRuntime) -> ExitCode {
    let mut output = rt.stdout().lock();
    let mut errors = rt.stderr().lock();
    let status = match read_arguments(&rt) {
        Ok(words) => run::run(
            rt.alloc(),
            &words,
            &mut rt.stdin().lock(),
            &mut output,
            &mut errors,
        ),
        Err(_) => run::refuse_arguments(&mut output, &mut errors),
    };
    ExitCode::from(status)
}

// Reads the arguments without the program's name.
fn read_arguments(rt: &HostRuntime) -> io::Result<Vec<String>> {
    Ok(env::args(rt)?.skip(1).collect(rt.alloc())?)
}
