//! One call on a value that nests deep, to see how much stack it takes.

use crate::fault::Fault;
use ciborium::value::KeyOrder;
use ciborium::value::canonical::cmp_bytewise;
use ciborium::{Value, from_reader_with_recursion_limit, into_writer, into_writer_deterministic};
use std::mem::forget;

/// Reads arrays within arrays, makes the call, and ends without dropping what it has, unless the
/// call is `drop`.
pub fn call(rt: &HostRuntime, call: &str, depth: u32) -> Result<(), Fault> {
    let alloc = rt.alloc();
    let mut bytes = Vec::new(alloc);
    bytes.resize(depth as usize, 0x81)?;
    bytes.push(0x80)?;
    let value = read(rt, &bytes)?;
    match call {
        "read" => {}
        "write" => {
            let mut out = Vec::new(alloc);
            into_writer(&value, &mut out)?;
        }
        "form" => {
            let mut out = Vec::new(alloc);
            into_writer_deterministic(alloc, &value, KeyOrder::LengthFirst, &mut out)?;
        }
        "clone" => forget(value.clone()?),
        "compare" => {
            let other = read(rt, &bytes)?;
            let _ = cmp_bytewise(&value, &other);
            forget(other);
        }
        "show" => {
            let _ = format!(in alloc; "{value}")?;
        }
        "drop" => {
            drop(value);
            return Ok(());
        }
        _ => {
            forget(value);
            return Err(Fault);
        }
    }
    forget(value);
    Ok(())
}

fn read(rt: &HostRuntime, bytes: &[u8]) -> Result<Value, Fault> {
    let mut reader = bytes;
    Ok(from_reader_with_recursion_limit(rt.alloc(), &mut reader, usize::MAX)?)
}
