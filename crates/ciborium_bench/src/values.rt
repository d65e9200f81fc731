//! Values: reading, also deterministically, writing, also in their form, and sorting.

use crate::fault::Fault;
use crate::measure::measure;
use crate::run::Run;
use ciborium::value::KeyOrder;
use ciborium::value::canonical::{cmp_bytewise, cmp_value};
use ciborium::{
    Value, from_buf_reader_deterministic, from_reader_deterministic, from_slice,
    write_deterministic_value,
};
use std::mem::forget;
use std::time::{Duration, Instant};

/// Reads, writes and drops a `Value`, and writes its deterministic form. Where the bytes are
/// deterministic, reads them as such.
pub fn measure_values(rt: &HostRuntime, run: &Run) -> Result<(), Fault> {
    measure::<Value>(rt, run)?;
    measure_forms(rt, run)?;
    measure_strict(rt, run)?;
    measure_strict_slice(rt, run)?;
    measure_notation(rt, run)
}

// Prints the value on one line, and reads it from that text. As where a type is read, the last
// value is not dropped.
fn measure_notation(rt: &HostRuntime, run: &Run) -> Result<(), Fault> {
    if !run.wants("notation") {
        return Ok(());
    }
    let value: Value = from_slice(rt.alloc(), run.bytes.as_slice())?;
    let text = value.to_string(rt.alloc())?;
    let mut best = Duration::MAX;
    let mut last = None;
    for _ in 0..run.rounds {
        drop(last.take());
        let start = Instant::now(rt)?;
        let Ok(value) = Value::from_notation(rt.alloc(), text.as_str()) else {
            return Ok(());
        };
        best = best.min(start.elapsed(rt)?);
        last = Some(value);
    }
    forget(last);
    run.tell(rt, "notation", best)
}

fn measure_forms(rt: &HostRuntime, run: &Run) -> Result<(), Fault> {
    if !run.wants("form") {
        return Ok(());
    }
    let value: Value = from_slice(rt.alloc(), run.bytes.as_slice())?;
    let mut best = Duration::MAX;
    for _ in 0..run.rounds {
        let mut out = Vec::new(rt.alloc());
        let start = Instant::now(rt)?;
        write_deterministic_value(rt.alloc(), &value, KeyOrder::LengthFirst, &mut out)?;
        best = best.min(start.elapsed(rt)?);
    }
    run.tell(rt, "form", best)
}

// As where a type is read, the last value is not dropped.
fn measure_strict(rt: &HostRuntime, run: &Run) -> Result<(), Fault> {
    if !run.wants("strict") {
        return Ok(());
    }
    let mut best = Duration::MAX;
    let mut last = None;
    for _ in 0..run.rounds {
        drop(last.take());
        let mut reader = run.bytes.as_slice();
        let start = Instant::now(rt)?;
        let Ok(value) = from_reader_deterministic(rt.alloc(), &mut reader, 256) else {
            return Ok(());
        };
        best = best.min(start.elapsed(rt)?);
        last = Some(value);
    }
    forget(last);
    run.tell(rt, "strict", best)
}

fn measure_strict_slice(rt: &HostRuntime, run: &Run) -> Result<(), Fault> {
    if !run.wants("strict_slice") {
        return Ok(());
    }
    let mut best = Duration::MAX;
    let mut last = None;
    for _ in 0..run.rounds {
        drop(last.take());
        let mut reader = run.bytes.as_slice();
        let start = Instant::now(rt)?;
        let Ok(value) = from_buf_reader_deterministic(rt.alloc(), &mut reader, 256) else {
            return Ok(());
        };
        best = best.min(start.elapsed(rt)?);
        last = Some(value);
    }
    forget(last);
    run.tell(rt, "strict_slice", best)
}

/// Sorts the items of an array in each order.
pub fn measure_sorts(rt: &HostRuntime, run: &Run) -> Result<(), Fault> {
    let mut canonical = Duration::MAX;
    let mut bytewise = Duration::MAX;
    for _ in 0..run.rounds {
        let mut values = items(rt, run)?;
        let start = Instant::now(rt)?;
        values.sort_by(cmp_value)?;
        canonical = canonical.min(start.elapsed(rt)?);
        let mut values = items(rt, run)?;
        let start = Instant::now(rt)?;
        values.sort_by(cmp_bytewise)?;
        bytewise = bytewise.min(start.elapsed(rt)?);
    }
    run.tell(rt, "length-first", canonical)?;
    run.tell(rt, "bytewise", bytewise)
}

// The items of the array that the bytes are.
fn items(rt: &HostRuntime, run: &Run) -> Result<Vec<Value>, Fault> {
    let value: Value = from_slice(rt.alloc(), run.bytes.as_slice())?;
    value.into_array().map_err(|_| Fault)
}
