//! What a run of the program measures.

use crate::fault::Fault;
use std::fs;
use std::time::Duration;

/// A document, how often each call is made on it, and which call: every one where none is named.
#[derive(Drop)]
pub struct Run {
    pub path: String,
    pub bytes: Vec<u8>,
    pub rounds: u32,
    pub call: Option<String>,
}

impl Run {
    /// A run over the file at this path.
    pub fn open(
        rt: &HostRuntime,
        path: String,
        rounds: u32,
        call: Option<String>,
    ) -> Result<Run, Fault> {
        let bytes = fs::read(rt, path.as_str())?;
        Ok(Run {
            path,
            bytes,
            rounds,
            call,
        })
    }

    /// Whether this call is measured.
    pub fn wants(&self, call: &str) -> bool {
        match &self.call {
            Some(wanted) => wanted.as_str() == call,
            None => true,
        }
    }

    /// Prints what the best round of a call took.
    pub fn tell(&self, rt: &HostRuntime, call: &str, best: Duration) -> Result<(), Fault> {
        println!(rt; "{call} {}", best.as_nanos())?;
        Ok(())
    }
}
