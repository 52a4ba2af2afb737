//! What is made is delivered to.

ghost use Rattle.std.specs.Prelude.{◌≡◌, ◌-◌, suc, OnOk};
ghost use Rattle.machine_model.specs.Acts.{each};
ghost use Rattle.machine_model.specs.Emission.{write as written};
ghost use Rattle.machine_model.specs.Making.{make_alone as makes, opened, start_of as start_for};
ghost use Rattle.machine_model.specs.Levels as levels;
ghost use Rattle.machine_state.specs.Keeping.{machine_of};
ghost use Rattle.machine_objects.specs.Making.{start_one, complete_one, counted, left_of};
ghost use Rattle.own_handlers.specs.Seen.{delivery_seen};
ghost use Rattle.machine_deliveries.specs.Fitting.{Fits};
ghost use Rattle.machine_deliveries.specs.Doing.{Does};

use evaluation::Rules;
use machine_bodies::Bodies;
use machine_deliveries::{Engine, deliver_unless, emit, emit_changes};
use machine_objects::{Made, make_alone};
use machine_state::State;
use machine_steps::Fault;
use machine_writes::write as begin_write;
use own_handlers::{Deed, Delivery, Signal};
use qml_base::{CellNo, ObjNo};
use std::alloc::Global;
use std::sync::ledger::Ledger;
use tree_model::Content;

/// The start of an object.
fn start_of(o: ObjNo) -> Delivery
    ensures { delivery_seen result ≡ start_for o }
{
    Delivery {
        object: o,
        deed: Deed::Starts,
        is_aimed: false,
    }
}

/// Objects start, in order.
fn start_each<'a, L: Ledger, R: Rules<L> + Drop, B: Bodies<L> + Drop>(
    alloc: Global,
    engine: &mut Engine<L, R, B>,
    state: &mut State<'a>,
    left: u32,
    objects: &[ObjNo],
) -> Result<(), Fault>
    requires { Fits (R.asks engine.old.rules) (B.asks engine.old.bodies) state.old }
    ensures does { Does result (machine_of state.new) (each (start_one (levels.deliver left)) objects.now (machine_of state.old)) }
    ensures fits { OnOk result (Fits (R.asks engine.new.rules) (B.asks engine.new.bodies) state.new) }
{
    'objects: for o in objects {
        deliver_unless(alloc, engine, state, left, *o, start_of(*o))?;
    }
    Ok(())
}

/// The objects with numbers above one, up to another, complete, by number.
#[tactic(auto, using(crate::proofs::OpeningLemmas::all_completed))]
fn complete_each<'a, L: Ledger, R: Rules<L> + Drop, B: Bodies<L> + Drop>(
    alloc: Global,
    engine: &mut Engine<L, R, B>,
    state: &mut State<'a>,
    left: u32,
    before: u32,
    now: u32,
) -> Result<(), Fault>
    requires { Fits (R.asks engine.old.rules) (B.asks engine.old.bodies) state.old }
    ensures does { Does result (machine_of state.new) (each (complete_one (levels.deliver left)) (counted (suc before) (now - before)) (machine_of state.old)) }
    ensures fits { OnOk result (Fits (R.asks engine.new.rules) (B.asks engine.new.bodies) state.new) }
{
    let mut completed = before;
    'objects: while completed < now {
        completed += 1;
        match emit(
            alloc,
            engine,
            state,
            left,
            ObjNo(completed),
            Signal::Completed,
            &[],
        ) {
            Ok(()) => {}
            Err(fault) => return Err(fault),
        }
    }
    Ok(())
}

/// Delivers what a making left: the signals of changes, the starts, and the completions.
fn deliver_made<'a, L: Ledger, R: Rules<L> + Drop, B: Bodies<L> + Drop>(
    alloc: Global,
    engine: &mut Engine<L, R, B>,
    state: &mut State<'a>,
    left: u32,
    made: Made,
) -> Result<(), Fault>
    requires { Fits (R.asks engine.old.rules) (B.asks engine.old.bodies) state.old }
    ensures does { Does result (machine_of state.new) (left_of (levels.deliver left) made (machine_of state.old)) }
    ensures fits { OnOk result (Fits (R.asks engine.new.rules) (B.asks engine.new.bodies) state.new) }
{
    emit_changes(alloc, engine, state, left, made.changed.as_slice())?;
    start_each(alloc, engine, state, left, made.starting.as_slice())?;
    complete_each(alloc, engine, state, left, made.before, made.now)
}

/// Makes an object of a document, with no instance around it and no owner, and delivers all that this brings.
pub fn make<'a, L: Ledger, R: Rules<L> + Drop, B: Bodies<L> + Drop>(
    alloc: Global,
    engine: &mut Engine<L, R, B>,
    state: &mut State<'a>,
    left: u32,
    unit: u32,
    object: u32,
) -> Result<(), Fault>
    requires { Fits (R.asks engine.old.rules) (B.asks engine.old.bodies) state.old }
    ensures does { Does result (machine_of state.new) (makes (levels.deliver left) unit object (machine_of state.old) (machine_of state.old)) }
    ensures fits { OnOk result (Fits (R.asks engine.new.rules) (B.asks engine.new.bodies) state.new) }
{
    match make_alone(
        alloc,
        state,
        unit,
        object,
        &mut engine.rules,
        &mut engine.steps,
    ) {
        Ok(made) => deliver_made(alloc, engine, state, left, made),
        Err(fault) => Err(fault),
    }
}

/// Opens the root of a document: it is made with all its objects, they start and complete (Qt 5.15, Component.completed). The run
/// stops where there is no room for the objects, where a cell comes past the limit of numbers, or where a delivery does.
pub fn open<'a, L: Ledger, R: Rules<L> + Drop, B: Bodies<L> + Drop>(
    alloc: Global,
    engine: &mut Engine<L, R, B>,
    state: &mut State<'a>,
    left: u32,
    unit: u32,
) -> Result<(), Fault>
    requires { Fits (R.asks engine.old.rules) (B.asks engine.old.bodies) state.old }
    ensures does { Does result (machine_of state.new) (opened (levels.deliver left) unit (machine_of state.old)) }
    ensures fits { OnOk result (Fits (R.asks engine.new.rules) (B.asks engine.new.bodies) state.new) }
{
    make(alloc, engine, state, left, unit, 0)
}

/// Replaces the contents of cells, in this order; all cells settle, that is told, and the signals of the changes are emitted.
pub fn write<'a, L: Ledger, R: Rules<L> + Drop, B: Bodies<L> + Drop>(
    alloc: Global,
    engine: &mut Engine<L, R, B>,
    state: &mut State<'a>,
    left: u32,
    contents: Vec<(CellNo, Content)>,
) -> Result<(), Fault>
    requires { Fits (R.asks engine.old.rules) (B.asks engine.old.bodies) state.old }
    ensures does { Does result (machine_of state.new) (written (levels.deliver left) contents.items (machine_of state.old)) }
    ensures fits { OnOk result (Fits (R.asks engine.new.rules) (B.asks engine.new.bodies) state.new) }
{
    match begin_write(alloc, state, contents, &mut engine.rules, &mut engine.steps) {
        Ok(changed) => emit_changes(alloc, engine, state, left, changed.cells.as_slice()),
        Err(fault) => Err(fault),
    }
}
