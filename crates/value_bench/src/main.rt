//! Builds a list of numbers, copies, compares, weighs and prints it, then builds fields, and says what came of that. With
//! the word `speed` they have a million numbers, and the processor's time of each is told. It is no part of the product.
#![tactic(auto)]

use qml_text::Text;
use qml_value::{FieldsBuilder, List, Num, Value};
use std::alloc::{AllocError, Global};
use std::time::CpuClock;
use std::{env, io};

/// A list of so many digits; none where there is no memory.
fn digits(alloc: Global, count: u32) -> Result<Option<Value>, AllocError> {
    let mut values = Vec::with_capacity(alloc, count as usize)?;
    for i in 0..count {
        values.push(Value::Num(Num::small(i % 10)))?;
    }
    Ok(List::from_vec(values).ok().map(Value::List))
}

/// Fields with so many numbers as names; none where there is no memory.
fn fields(alloc: Global, count: u32) -> Option<Value> {
    let mut builder = FieldsBuilder::new(alloc);
    for i in 0..count {
        let Ok(name) = Text::of_number(alloc, i64::from(i)) else {
            return None;
        };
        if builder.put(alloc, &name, Value::Null).is_err() {
            return None;
        }
    }
    builder.finish(alloc).ok().map(Value::Fields)
}

/// The processor's time so far, in microseconds.
fn micros(rt: &HostRuntime) -> io::Result<u64> {
    let time = rt.thread_cpu_time()?;
    Ok(u64::try_from(time.as_micros()).unwrap_or(u64::MAX))
}

/// Tells what came of a call, and how long it took where that is asked for.
fn tell(rt: &HostRuntime, what: &str, answer: usize, begun: u64, timed: bool) -> io::Result<()> {
    let took = micros(rt)?.saturating_sub(begun);
    if timed {
        println!(rt; "{what} {answer} in {took} microseconds")
    } else {
        println!(rt; "{what} {answer}")
    }
}

fn weigh(rt: &HostRuntime, value: &Value, timed: bool) -> io::Result<()> {
    let begun = micros(rt)?;
    let weight = value.weight();
    tell(rt, "weight", weight, begun, timed)
}

fn compare(rt: &HostRuntime, value: &Value, timed: bool) -> io::Result<()> {
    let begun = micros(rt)?;
    let Ok(copy) = value.copy(rt.alloc()) else {
        return println!(rt; "no memory");
    };
    tell(rt, "copies", 1, begun, timed)?;
    let begun = micros(rt)?;
    let same = usize::from(value.same(&copy));
    tell(rt, "same", same, begun, timed)
}

fn name(rt: &HostRuntime, count: u32, timed: bool) -> io::Result<()> {
    let begun = micros(rt)?;
    match fields(rt.alloc(), count) {
        Some(value) => tell(rt, "fields weigh", value.weight(), begun, timed),
        None => println!(rt; "no memory"),
    }
}

/// The units of the text, or 0 where it is too heavy to be built.
fn print(rt: &HostRuntime, value: &Value, timed: bool) -> io::Result<()> {
    let begun = micros(rt)?;
    let units = match value.text_of(rt.alloc()) {
        Ok(text) => text.len(),
        Err(_) => 0,
    };
    tell(rt, "text units", units, begun, timed)
}

fn measure(rt: &HostRuntime, count: u32, timed: bool) -> io::Result<()> {
    match digits(rt.alloc(), count) {
        Ok(Some(value)) => {
            weigh(rt, &value, timed)?;
            compare(rt, &value, timed)?;
            print(rt, &value, timed)?;
            name(rt, count, timed)
        }
        _ => println!(rt; "no memory"),
    }
}

fn main(rt: HostRuntime) -> io::Result<()> {
    let timed = env::args(&rt)?.skip(1).next().is_some();
    if timed {
        measure(&rt, 1_000_000, true)?;
        measure(&rt, 524_287, true)
    } else {
        measure(&rt, 1_000, false)
    }
}
