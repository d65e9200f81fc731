//! Small messages, read one by one: from a sequence, or each from a slice of its own.

use crate::fault::Fault;
use crate::run::Run;
use ciborium::de::Deserialize;
use ciborium::{Value, from_buf_reader_next, from_reader_next, from_slice};
use std::time::{Duration, Instant};

type Record = (u32, String, bool);

/// Reads all records of a sequence one by one, as their type and as values, in each way.
pub fn measure_messages(rt: &HostRuntime, run: &Run) -> Result<(), Fault> {
    measure_way::<Record, Plain>(rt, run, "typed")?;
    measure_way::<Value, Plain>(rt, run, "value")?;
    measure_way::<Record, Held>(rt, run, "typed_next")?;
    measure_way::<Value, Held>(rt, run, "value_next")?;
    measure_slices::<Record>(rt, run, "typed_slice")?;
    measure_slices::<Value>(rt, run, "value_slice")
}

// A way to take the next message from the bytes.
trait Next {
    fn next<T: Deserialize>(rt: &HostRuntime, reader: &mut &[u8]) -> Result<Option<T>, Fault>;
}

// By `from_reader_next`.
struct Plain;

impl Next for Plain {
    fn next<T: Deserialize>(rt: &HostRuntime, reader: &mut &[u8]) -> Result<Option<T>, Fault> {
        Ok(from_reader_next(rt.alloc(), reader)?)
    }
}

// By `from_buf_reader_next`.
struct Held;

impl Next for Held {
    fn next<T: Deserialize>(rt: &HostRuntime, reader: &mut &[u8]) -> Result<Option<T>, Fault> {
        Ok(from_buf_reader_next(rt.alloc(), reader)?)
    }
}

fn measure_way<T: Deserialize, N: Next>(
    rt: &HostRuntime,
    run: &Run,
    call: &str,
) -> Result<(), Fault> {
    if !run.wants(call) {
        return Ok(());
    }
    let mut best = Duration::MAX;
    for _ in 0..run.rounds {
        let mut reader = run.bytes.as_slice();
        let start = Instant::now(rt)?;
        read_all::<T, N>(rt, &mut reader)?;
        best = best.min(start.elapsed(rt)?);
    }
    run.tell(rt, call, best)
}

// Reads and drops message after message.
fn read_all<T: Deserialize, N: Next>(rt: &HostRuntime, reader: &mut &[u8]) -> Result<(), Fault> {
    for _ in 0..u32::MAX {
        if N::next::<T>(rt, reader)?.is_none() {
            return Ok(());
        }
    }
    Err(Fault)
}

fn measure_slices<T: Deserialize>(rt: &HostRuntime, run: &Run, call: &str) -> Result<(), Fault> {
    if !run.wants(call) {
        return Ok(());
    }
    let messages = cut(rt, run.bytes.as_slice())?;
    let mut best = Duration::MAX;
    for _ in 0..run.rounds {
        let start = Instant::now(rt)?;
        for message in &messages {
            drop(from_slice::<T>(rt.alloc(), message)?);
        }
        best = best.min(start.elapsed(rt)?);
    }
    run.tell(rt, call, best)
}

// The bytes of each message.
fn cut<'b>(rt: &HostRuntime, bytes: &'b [u8]) -> Result<Vec<&'b [u8]>, Fault> {
    let mut messages = Vec::new(rt.alloc());
    let mut rest = bytes;
    for _ in 0..u32::MAX {
        let held = rest;
        if from_buf_reader_next::<Value, _>(rt.alloc(), &mut rest)?.is_none() {
            return Ok(messages);
        }
        let size = held.len().saturating_sub(rest.len());
        messages.push(held.get(..size).ok_or(Fault)?)?;
    }
    Err(Fault)
}
