//! Lines that run statements or let time go on.

ghost use Rattle.std.specs.Prelude.{◌≡◌, ◌^◌, ◌+◌, ℕ, [], List, IfOk, OnOk};
ghost use Rattle.qml_base.specs.declared.numbers.ExprNo.{ExprNo as AText};
ghost use Rattle.qml_base.specs.declared.names.Home.{Home as AHome};
ghost use Rattle.qml_value.specs.declared.value.Value.{Value as AValue};
ghost use Rattle.evaluation.specs.Ask.{Ask};
ghost use Rattle.machine_model.specs.Bodies.{exec_next};
ghost use Rattle.machine_model.specs.Lines as lines;
ghost use Rattle.machine_model.specs.Lines.{statements};
ghost use Rattle.machine_state.specs.Keeping.{machine_of};
ghost use Rattle.machine_bodies.specs.Doing.{action_meant};
ghost use Rattle.machine_deliveries.specs.Fitting.{Fits};
ghost use Rattle.machine_deliveries.specs.Doing.{Does};

use crate::event::NESTING;
use evaluation::Rules;
use machine_bodies::{Action, Bodies};
use machine_deliveries::{Engine, exec};
use machine_state::State;
use machine_steps::Fault;
use qml_base::{ExprNo, Home, NoMemory, ObjNo, UnitNo};
use std::alloc::Global;
use std::sync::ledger::Ledger;
use trace_print::Site;

/// The last millisecond of engine time.
const END_OF_TIME: u64 = 1 << 60;

/// The largest reading of the clock that counts as it is.
const LARGEST_READING: u64 = 1 << 53;

/// Lines stand in the scope of the first object, with it as author.
pub fn line_home(root: u32) -> Home
    ensures { result ≡ lines.line_home root }
{
    Home {
        unit: UnitNo(root),
        scope: ObjNo(1),
        author: ObjNo(1),
    }
}

/// Begins the statements of a line, up to their first effect.
#[tactic(auto, using(machine_deliveries::proofs::FitLemmas::other_bodies))]
fn begin_statements<'a, L: Ledger, R: Rules<L> + Drop, B: Bodies<L> + Drop>(
    alloc: Global,
    engine: &mut Engine<L, R, B>,
    state: &State<'a>,
    root: u32,
    body: ExprNo,
) -> Result<Action<B::Waiting>, NoMemory>
    requires { Fits (R.asks engine.old.rules) (B.asks engine.old.bodies) state.now }
    ensures begins { IfOk result (λ action. lines.do_event root (statements body) (machine_of state.now) ≡ exec_next lines.top lines.line_site (action_meant B.goes_on B.left action) (machine_of state.now)) }
    ensures fits { Fits (R.asks engine.new.rules) (B.asks engine.new.bodies) state.now }
{
    let action = engine.bodies.begin(
        alloc,
        &state.tree,
        body,
        line_home(root),
        &[],
        Vec::new(alloc),
        &mut engine.steps,
    )?;
    Ok(action)
}

/// Runs the statements of a line, with all that they deliver.
pub fn run_statements<'a, L: Ledger, R: Rules<L> + Drop, B: Bodies<L> + Drop>(
    alloc: Global,
    engine: &mut Engine<L, R, B>,
    state: &mut State<'a>,
    root: u32,
    body: ExprNo,
) -> Result<(), Fault>
    requires { Fits (R.asks engine.old.rules) (B.asks engine.old.bodies) state.old }
    ensures does { Does result (machine_of state.new) (lines.do_event root (statements body) (machine_of state.old)) }
    ensures fits { OnOk result (Fits (R.asks engine.new.rules) (B.asks engine.new.bodies) state.new) }
{
    let action = begin_statements(alloc, engine, state, root, body)?;
    exec(alloc, engine, state, NESTING, Site::Do, action)
}

/// The lesser of two numbers.
#[tactic(auto, using(crate::proofs::EventLemmas::is_lesser, crate::proofs::EventLemmas::isnt_lesser))]
fn lesser(a: u64, b: u64) -> u64
    ensures { result ≡ lines.lesser a b }
{
    if a < b { a } else { b }
}

/// The greater of two numbers.
#[tactic(auto, using(crate::proofs::EventLemmas::is_greater, crate::proofs::EventLemmas::isnt_greater))]
fn greater(a: u64, b: u64) -> u64
    ensures { result ≡ lines.greater a b }
{
    if a < b { b } else { a }
}

/// The time that comes so many milliseconds after another; time ends at 2^60.
#[tactic(auto, using(crate::proofs::EventLemmas::isnt_lesser))]
fn later(time: u64, by: u64) -> u64
    ensures { result ≡ lines.lesser (time + by) (2 ^ 60) }
{
    match time.checked_add(by) {
        Some(sum) => lesser(sum, END_OF_TIME),
        None => END_OF_TIME,
    }
}

/// Time goes on by so many milliseconds.
#[tactic(auto, using(machine_deliveries::proofs::FitLemmas::still_fits))]
pub fn advance<'a>(state: &mut State<'a>, by: u64) -> Result<(), Fault>
    ensures does { Does result (machine_of state.new) (lines.set_time (λ t. lines.lesser (t + by) (2 ^ 60)) (machine_of state.old)) }
    ensures fits { (asks : AText → AHome → Ask) (bodies : AText → AHome → List (List ℕ) → List AValue → Ask) → Fits asks bodies state.old → Fits asks bodies state.new }
{
    state.time = later(state.time, by);
    Ok(())
}

/// Time goes on up to a reading of the clock, unless it is there already.
#[tactic(auto, using(machine_deliveries::proofs::FitLemmas::still_fits))]
pub fn read_clock<'a>(state: &mut State<'a>, reading: u64) -> Result<(), Fault>
    ensures does { Does result (machine_of state.new) (lines.set_time (λ t. lines.greater t (lines.lesser reading (2 ^ 53))) (machine_of state.old)) }
    ensures fits { (asks : AText → AHome → Ask) (bodies : AText → AHome → List (List ℕ) → List AValue → Ask) → Fits asks bodies state.old → Fits asks bodies state.new }
{
    state.time = greater(state.time, lesser(reading, LARGEST_READING));
    Ok(())
}
