//! Writes with their settling.

ghost use Rattle.std.specs.Prelude.{◌≡◌, OnOk, nat_le};
ghost use Rattle.std.specs.List.{filter};
ghost use Rattle.qml_base.specs.declared.numbers.CellNo.{CellNo as ACell};
ghost use Rattle.qml_base.specs.declared.numbers.ExprNo.{ExprNo};
ghost use Rattle.qml_base.specs.declared.names.Home.{Home};
ghost use Rattle.evaluation.specs.Ask.{Ask};
ghost use Rattle.machine_model.specs.Acts.{goes, each};
ghost use Rattle.machine_model.specs.Emission.{Below, put as put_it, write as written, settle_and_emit};
ghost use Rattle.machine_state.specs.Keeping.{machine_of, Ready};
ghost use Rattle.machine_state.specs.Leading.{Leads};
ghost use Rattle.machine_writes.specs.Writes.{emitted, settle_older};

use evaluation::Rules;
use live_tree::Changed;
use machine_state::State;
use machine_steps::{Fault, put, settle, tell_settled};
use qml_base::{CellNo, Steps};
use std::alloc::Global;
use std::sync::ledger::Ledger;
use tree_model::Content;

/// Puts a content, if there is such a cell.
#[tactic(auto, using(crate::proofs::PutLemmas::not_there))]
fn put_one<'a>(state: &mut State<'a>, c: CellNo, content: Content)
    ensures puts { put_it (c, content) (machine_of state.old) ≡ goes tt (machine_of state.new) }
    ensures ready { (asks : ExprNo → Home → Ask) → Ready asks state.old → Ready asks state.new }
{
    if state.tree.has_cell(c) {
        put(&mut state.tree, c, content);
    }
}

/// Puts contents one after another.
fn put_all<'a>(state: &mut State<'a>, contents: Vec<(CellNo, Content)>)
    ensures puts { each put_it contents.items (machine_of state.old) ≡ goes tt (machine_of state.new) }
    ensures ready { (asks : ExprNo → Home → Ask) → Ready asks state.old → Ready asks state.new }
{
    let mut left = contents;
    left.reverse();
    'contents: while let Some((c, content)) = left.pop() {
        put_one(state, c, content);
    }
}

/// All cells settle at once, and that is told: the changes and then the reports. It answers the cells that hold another value, of
/// which the signals are to be emitted in this order, or stops at the lowest cell past the limit of numbers, and then nothing is
/// told. Without memory the machine may have changed in part.
pub fn settle_and_tell<'a, L: Ledger, R: Rules<L>>(
    alloc: Global,
    state: &mut State<'a>,
    rules: &mut R,
    steps: &mut Steps<L>,
) -> Result<Changed, Fault>
    requires { Ready (R.asks rules.old) state.old }
    ensures settles { (below : Below) → Leads (settle_and_emit below (machine_of state.old)) result (emitted below) (machine_of state.new) }
    ensures ready { OnOk result (Ready (R.asks rules.old) state.new) }
    ensures same { R.asks rules.new ≡ R.asks rules.old }
{
    let changed = match settle(alloc, &mut state.tree, rules, steps) {
        Ok(changed) => changed,
        Err(fault) => return Err(fault),
    };
    match tell_settled(alloc, &state.tree, &changed, &mut state.trace) {
        Ok(()) => Ok(changed),
        Err(_) => Err(Fault::NoMemory),
    }
}

/// The changes of the objects with numbers up to one.
fn older(changed: Changed, given: u32) -> Changed
    ensures cells { result.cells.items ≡ filter (λ (c : ACell). nat_le c.object.0 given) changed.cells.items }
    ensures reports { result.reports ≡ changed.reports }
{
    let Changed { cells, reports } = changed;
    let mut cells = cells;
    cells.retain(|c| c.object.0 <= given);
    Changed { cells, reports }
}

/// All cells settle at once, and that is told, but for the changes of objects with numbers above one: what new objects hold is no
/// change. It answers the changes that were told, and stops as `settle_and_tell` does.
pub fn settle_and_tell_older<'a, L: Ledger, R: Rules<L>>(
    alloc: Global,
    state: &mut State<'a>,
    given: u32,
    rules: &mut R,
    steps: &mut Steps<L>,
) -> Result<Changed, Fault>
    requires { Ready (R.asks rules.old) state.old }
    ensures settles { (below : Below) → Leads (settle_older below given (machine_of state.old)) result (emitted below) (machine_of state.new) }
    ensures ready { OnOk result (Ready (R.asks rules.old) state.new) }
    ensures same { R.asks rules.new ≡ R.asks rules.old }
{
    let all = match settle(alloc, &mut state.tree, rules, steps) {
        Ok(all) => all,
        Err(fault) => return Err(fault),
    };
    let changed = older(all, given);
    match tell_settled(alloc, &state.tree, &changed, &mut state.trace) {
        Ok(()) => Ok(changed),
        Err(_) => Err(Fault::NoMemory),
    }
}

/// Replaces the contents of cells, in this order; then all cells settle, and that is told: a write, of which only the signals of
/// the changes are left to emit, in the order of the answer. It stops at the lowest cell past the limit of numbers, and then nothing
/// of the settling is told. Where there is no such cell, nothing is put. Without memory the machine may have changed in part.
pub fn write<'a, L: Ledger, R: Rules<L>>(
    alloc: Global,
    state: &mut State<'a>,
    contents: Vec<(CellNo, Content)>,
    rules: &mut R,
    steps: &mut Steps<L>,
) -> Result<Changed, Fault>
    requires { Ready (R.asks rules.old) state.old }
    ensures writes { (below : Below) → Leads (written below contents.items (machine_of state.old)) result (emitted below) (machine_of state.new) }
    ensures ready { OnOk result (Ready (R.asks rules.old) state.new) }
    ensures same { R.asks rules.new ≡ R.asks rules.old }
{
    put_all(state, contents);
    settle_and_tell(alloc, state, rules, steps)
}
