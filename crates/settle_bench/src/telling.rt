//! What is told.

use qml_value::Value;
use std::time::CpuClock;
use std::{io, mem};
use tree_model::Cell;

/// The processor's time so far, in microseconds.
pub fn micros(rt: &HostRuntime) -> io::Result<u64> {
    let time = rt.thread_cpu_time()?;
    Ok(u64::try_from(time.as_micros()).unwrap_or(u64::MAX))
}

/// Tells what came of a step, and how long it took where that is asked for.
pub fn tell(
    rt: &HostRuntime,
    what: &str,
    answer: usize,
    begun: u64,
    timed: bool,
) -> io::Result<()> {
    let took = micros(rt)?.saturating_sub(begun);
    if timed {
        println!(rt; "{what} {answer} in {took} microseconds")
    } else {
        println!(rt; "{what} {answer}")
    }
}

/// The bytes of a cell beside the three values that it has room for.
const BESIDE_VALUES: usize = mem::size_of::<Cell>() - 3 * mem::size_of::<Value>();

/// Tells how large a cell is, where that is asked for.
pub fn tell_sizes(rt: &HostRuntime, timed: bool) -> io::Result<()> {
    if !timed {
        return Ok(());
    }
    let (cell, value) = (mem::size_of::<Cell>(), mem::size_of::<Value>());
    println!(rt; "a cell has {cell} bytes, {BESIDE_VALUES} beside 3 values of {value}")
}
