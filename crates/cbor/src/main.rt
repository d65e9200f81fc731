//! `cbor` looks at CBOR (RFC 8949): lines of hex on the standard input, an item or a sequence each,
//! or bytes there or in files, a sequence of items (RFC 8742) or one item; and it encodes lines of
//! diagnostic notation. `cbor --help` lists the commands, and `run` says what they do.
#![tactic(auto)]

mod answer;
mod answering;
mod buffers;
mod command;
mod digits;
mod dumping;
mod dumping_streams;
mod encoding;
mod exact;
mod exact_streams;
mod fault;
mod files;
mod items;
mod line_laws;
mod lines;
mod notation;
mod progress;
mod reading;
mod retrying;
mod run;
mod sequences;
mod showing;
mod sorting;
mod streams;
#[cfg(test)]
mod test_devices;
mod topics;
mod words;

use files::Opener;
use progress::Progress;
use std::fs::File;
use std::io::Lock;
use std::process::ExitCode;
use std::{env, io};

fn main(rt: HostRuntime) -> ExitCode {
    let status = match read_arguments(&rt) {
        Ok(words) => run::run(
            rt.alloc(),
            &words,
            &mut Progress::new(&rt, rt.stdin().lock()),
            &Host { rt: &rt },
            &mut rt.stdout().lock(),
            &mut rt.stderr().lock(),
        ),
        Err(_) => run::refuse_words(&mut rt.stderr().lock()),
    };
    ExitCode::from(status)
}

// The files of the system.
#[derive(Drop)]
struct Host<'a> {
    rt: &'a HostRuntime,
}

impl<'a> Opener for Host<'a> {
    type File = Progress<'a, File>;

    fn open(&self, name: &str) -> io::Result<Progress<'a, File>> {
        Ok(Progress::new(self.rt, File::open(self.rt, name)?))
    }
}

// Reads the arguments without the program's name.
fn read_arguments(rt: &HostRuntime) -> io::Result<Vec<String>> {
    Ok(env::args(rt)?.skip(1).collect(rt.alloc())?)
}
