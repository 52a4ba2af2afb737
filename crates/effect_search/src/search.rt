//! Functions by numbers, and those that come to an effect.

ghost use Rattle.std.specs.Prelude.{◌≡◌, slice_get, IfOk};
ghost use Rattle.effect_search.specs.Marks as s;

use crate::order::calls_in_order;
use qml_base::NoMemory;
use std::alloc::Global;

/// A call of a function by another, by their numbers.
#[derive(Clone, Copy, Debug)]
pub struct Call {
    pub caller: usize,
    pub callee: usize,
}

fn is_marked(marks: &[bool], at: usize) -> bool
    ensures { result ≡ s.is_marked marks.now at }
{
    match marks.get(at) {
        Some(mark) => *mark,
        None => false,
    }
}

fn is_unmarked(marks: &[bool], at: usize) -> bool
    ensures { result ≡ s.is_unmarked marks.now at }
{
    match marks.get(at) {
        Some(mark) => !*mark,
        None => false,
    }
}

fn spreads(call: Call, marks: &[bool]) -> bool
    ensures { result ≡ s.spreads call marks.now }
{
    is_marked(marks, call.callee) && is_unmarked(marks, call.caller)
}

/// Marks the caller where the callee is marked, and tells whether it wasn't.
fn spread(call: Call, marks: &mut Vec<bool>) -> bool
    ensures marked { marks.new.items ≡ s.spread call marks.old.items }
    ensures told { result ≡ s.spreads call marks.old.items }
{
    if !spreads(call, marks) {
        return false;
    }
    if call.caller < marks.len() {
        marks[call.caller] = true;
    }
    true
}

/// Marks along all calls, and tells whether a mark was new.
fn sweep(calls: &[Call], marks: &mut Vec<bool>) -> bool
    ensures marked { marks.new.items ≡ s.swept calls.now marks.old.items }
    ensures told { result ≡ s.changes calls.now marks.old.items }
{
    let mut changed = false;
    'calls: for call in calls {
        let new = spread(*call, marks);
        changed = changed || new;
    }
    changed
}

fn call_at(calls: &[Call], at: usize) -> Option<Call>
    ensures { result ≡ slice_get calls.now at }
{
    match calls.get(at) {
        Some(call) => Some(*call),
        None => None,
    }
}

/// Marks along the call of a number, if it is there.
#[tactic(auto, using(crate::proofs::MarkLemmas::stays_first, crate::proofs::MarkLemmas::stays_by))]
fn spread_by(at: usize, calls: &[Call], marks: &mut Vec<bool>)
    ensures { s.StaysSound calls.now marks.old.items marks.new.items }
{
    match call_at(calls, at) {
        Some(call) => {
            let _new = spread(call, marks);
        }
        None => {}
    }
}

/// Marks along the calls of these numbers.
#[tactic(auto, using(crate::proofs::MarkLemmas::stays_first, crate::proofs::MarkLemmas::stays_on))]
fn sweep_by(order: &[usize], calls: &[Call], marks: &mut Vec<bool>)
    ensures { s.StaysSound calls.now marks.old.items marks.new.items }
{
    'order: for at in order {
        spread_by(*at, calls, marks);
    }
}

/// Of each function by its number, whether it comes to an effect: whether it has one of its own, as `acts` says, or
/// calls one that
/// comes to an effect. A call of a number that no function has counts for nothing. It takes time by the numbers of
/// functions and calls.
#[tactic(auto, using(crate::proofs::MarkLemmas::sound_first, crate::proofs::MarkLemmas::sound_next, crate::proofs::MarkLemmas::sound_on, crate::proofs::MarkLemmas::fewer, crate::proofs::MarkLemmas::all_marked))]
pub fn functions_with_effect(
    alloc: Global,
    acts: &[bool],
    calls: &[Call],
) -> Result<Vec<bool>, NoMemory>
    ensures { IfOk result (λ marks. s.AreMarked acts.now calls.now marks.items) }
{
    let mut marks = Vec::from_slice(alloc, acts)?;
    let order = calls_in_order(alloc, acts, calls)?;
    sweep_by(&order, calls, &mut marks);
    'sweeps: while sweep(calls, &mut marks) {}
    Ok(marks)
}
