//! Measures the calls of ciborium over a file: `bench/run` makes the files, runs this program in
//! turn with others, and prints the tables of docs/BENCHMARKS.md.
//!
//! `ciborium_bench KIND ROUNDS FILE` prints a line `CALL NANOSECONDS` for each call, the best of so
//! many rounds; with a fourth word `CALL`, but for `sort`, only that one. `ciborium_bench deep CALL
//! DEPTH` makes one call on a value that nests so deep.
#![tactic(auto)]

mod deep;
mod fault;
mod measure;
mod messages;
mod run;
mod structs;
mod values;
mod ways;

use fault::Fault;
use measure::measure;
use run::Run;
use std::collections::BTreeMap;
use std::env;
use std::process::ExitCode;
use structs::Message;

const USAGE: &str = "usage: ciborium_bench KIND ROUNDS FILE [CALL]
       ciborium_bench deep CALL DEPTH
KIND: value ints options records map texts structs
CALL: read slice buffered plain_file write drop
      and of value: form strict strict_slice notation
KIND: messages
CALL: typed value typed_next value_next typed_slice value_slice
KIND: sort
CALL of deep: read write form clone compare show drop
";

fn main(rt: HostRuntime) -> ExitCode {
    match run_words(&rt) {
        Ok(()) => ExitCode::from(0),
        Err(_) => ExitCode::from(1),
    }
}

fn run_words(rt: &HostRuntime) -> Result<(), Fault> {
    let words: Vec<String> = env::args(rt)?.skip(1).collect(rt.alloc())?;
    if words.len() < 3 {
        rt.print(USAGE)?;
        return Ok(());
    }
    let kind = words[0].as_str();
    if kind == "deep" {
        return deep::call(rt, words[1].as_str(), number(words[2].as_str()));
    }
    let rounds = number(words[1].as_str());
    let call = match words.get(3) {
        Some(call) => Some(call.clone()?),
        None => None,
    };
    measure_kind(rt, kind, &Run::open(rt, words[2].clone()?, rounds, call)?)
}

fn measure_kind(rt: &HostRuntime, kind: &str, run: &Run) -> Result<(), Fault> {
    match kind {
        "value" => values::measure_values(rt, run),
        "sort" => values::measure_sorts(rt, run),
        "messages" => messages::measure_messages(rt, run),
        "ints" => measure::<Vec<i64>>(rt, run),
        "options" => measure::<Vec<Option<u32>>>(rt, run),
        "records" => measure::<Vec<(u32, String, bool)>>(rt, run),
        "map" => measure::<BTreeMap<String, u64>>(rt, run),
        "texts" => measure::<Vec<String>>(rt, run),
        "structs" => measure::<Vec<Message>>(rt, run),
        _ => Err(Fault),
    }
}

// The number, or 1 where the word is none.
fn number(word: &str) -> u32 {
    word.parse().unwrap_or(1)
}
