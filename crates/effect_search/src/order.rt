//! An order of calls in which marks spread in one sweep. It is tried, and nothing stands on it.

use crate::search::Call;
use qml_base::NoMemory;
use std::alloc::Global;

/// The calls by their callees: of each function the last call of it, and of each call the one before it of the same
/// function.
#[derive(Drop)]
struct CallLists {
    last: Vec<usize>,
    before: Vec<usize>,
}

/// No call.
const NONE: usize = usize::MAX;

fn call_lists(alloc: Global, count: usize, calls: &[Call]) -> Result<CallLists, NoMemory> {
    let mut last = Vec::new(alloc);
    let mut before = Vec::new(alloc);
    'functions: for _ in 0..count {
        last.push(NONE)?;
    }
    'calls: for (number, call) in calls.iter().enumerate() {
        if call.callee < last.len() {
            before.push(last[call.callee])?;
            last[call.callee] = number;
        } else {
            before.push(NONE)?;
        }
    }
    Ok(CallLists { last, before })
}

/// Adds a function that wasn't reached before.
fn reach(seen: &mut Vec<bool>, queue: &mut Vec<usize>, function: usize) -> Result<(), NoMemory> {
    if function < seen.len() && !seen[function] {
        seen[function] = true;
        queue.push(function)?;
    }
    Ok(())
}

fn call_before(lists: &[usize], number: usize) -> usize {
    match lists.get(number) {
        Some(before) => *before,
        None => NONE,
    }
}

/// The numbers of the calls that are met when one goes from the functions with an effect to their callers, and on
/// from these.
pub fn calls_in_order(
    alloc: Global,
    acts: &[bool],
    calls: &[Call],
) -> Result<Vec<usize>, NoMemory> {
    let lists = call_lists(alloc, acts.len(), calls)?;
    let mut seen = Vec::from_slice(alloc, acts)?;
    let mut queue = Vec::new(alloc);
    'functions: for (function, own) in acts.iter().enumerate() {
        if *own {
            queue.push(function)?;
        }
    }
    let mut order = Vec::new(alloc);
    let mut done = 0;
    'queue: for _ in 0..acts.len() {
        if done < queue.len() {
            let mut number = call_before(&lists.last, queue[done]);
            'calls: for _ in 0..calls.len() {
                if number < calls.len() {
                    order.push(number)?;
                    reach(&mut seen, &mut queue, calls[number].caller)?;
                    number = call_before(&lists.before, number);
                } else {
                    break 'calls;
                }
            }
            done = done.saturating_add(1);
        } else {
            return Ok(order);
        }
    }
    Ok(order)
}
