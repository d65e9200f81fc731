//! What programs do with CBOR, in pages to copy: each module is one. The program answers lines of
//! the standard input, each a question and what it is asked of; remarks stay as they are.
#![tactic(auto)]

mod envelopes;
mod frames;
mod schema;
mod settings;

use std::io::{self, Lock};

fn main(rt: HostRuntime) -> io::Result<()> {
    let alloc = rt.alloc();
    for line in rt.lines(alloc) {
        let line = line?;
        if line.is_empty() || line.as_str().starts_with('#') {
            println!(rt; "{line}")?;
            continue;
        }
        let (module, rest) = line.as_str().split_once(' ').unwrap_or((line.as_str(), ""));
        if matches!(
            module,
            "envelope" | "wrapped" | "again" | "kept" | "to-be-signed"
        ) {
            println!(rt; "{line}")?;
            envelopes::answer(alloc, module, rest, &mut rt.stdout().lock())?;
            continue;
        }
        let answer = match module {
            "frames" => frames::answer(&rt, rest)?,
            "schema" => schema::answer(alloc, rest)?,
            "settings" => settings::answer(alloc, rest)?,
            _ => String::from_str(alloc, "no such module")?,
        };
        println!(rt; "{line} = {answer}")?;
    }
    Ok(())
}
