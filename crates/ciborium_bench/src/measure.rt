//! One type: how long reading in each way, writing and dropping take.

use crate::fault::Fault;
use crate::run::Run;
use crate::ways::{Buffered, Plain, PlainFile, Slice, Way};
use ciborium::de::Deserialize;
use ciborium::ser::Serialize;
use ciborium::{from_slice, into_writer};
use std::mem::forget;
use std::time::{Duration, Instant};

/// Reads the document as a value of the type in each way, writes it into a `Vec` that grows, and
/// drops it.
pub fn measure<T: Deserialize + Serialize>(rt: &HostRuntime, run: &Run) -> Result<(), Fault> {
    measure_reads::<T, Plain>(rt, run, "read")?;
    measure_reads::<T, Slice>(rt, run, "slice")?;
    measure_reads::<T, Buffered>(rt, run, "buffered")?;
    measure_reads::<T, PlainFile>(rt, run, "plain_file")?;
    measure_writes::<T>(rt, run)?;
    measure_drops::<T>(rt, run)
}

// The last value is not dropped: a run of one round more than none reads once more and does nothing
// else.
fn measure_reads<T: Deserialize, W: Way>(
    rt: &HostRuntime,
    run: &Run,
    call: &str,
) -> Result<(), Fault> {
    if !run.wants(call) {
        return Ok(());
    }
    let mut best = Duration::MAX;
    let mut last: Option<T> = None;
    for _ in 0..run.rounds {
        drop(last.take());
        let (value, took) = W::read::<T>(rt, run)?;
        best = best.min(took);
        last = Some(value);
    }
    forget(last);
    run.tell(rt, call, best)
}

fn measure_writes<T: Deserialize + Serialize>(rt: &HostRuntime, run: &Run) -> Result<(), Fault> {
    if !run.wants("write") {
        return Ok(());
    }
    let value: T = from_slice(rt.alloc(), run.bytes.as_slice())?;
    let mut best = Duration::MAX;
    for _ in 0..run.rounds {
        let mut out = Vec::new(rt.alloc());
        let start = Instant::now(rt)?;
        into_writer(&value, &mut out)?;
        best = best.min(start.elapsed(rt)?);
    }
    run.tell(rt, "write", best)
}

fn measure_drops<T: Deserialize>(rt: &HostRuntime, run: &Run) -> Result<(), Fault> {
    if !run.wants("drop") {
        return Ok(());
    }
    let mut best = Duration::MAX;
    for _ in 0..run.rounds {
        let value: T = from_slice(rt.alloc(), run.bytes.as_slice())?;
        let start = Instant::now(rt)?;
        drop(value);
        best = best.min(start.elapsed(rt)?);
    }
    run.tell(rt, "drop", best)
}
