//! The cycle: deliveries, bodies, their effects, and the deliveries that these bring. `left` is how many deliveries may be nested
//! in what is done, so the calls are nested at most seven times as deep.

ghost use Rattle.std.specs.Prelude.{◌≡◌, ◌*◌, map, IfOk, OnOk};
ghost use Rattle.machine_model.specs.State.{numbered};
ghost use Rattle.machine_model.specs.Acts.{each};
ghost use Rattle.machine_model.specs.Emission as emission;
ghost use Rattle.machine_model.specs.Bodies as bodies;
ghost use Rattle.machine_model.specs.Levels as levels;
ghost use Rattle.machine_state.specs.Keeping.{machine_of};
ghost use Rattle.machine_steps.specs.Giving.{Gives};
ghost use Rattle.machine_bodies.specs.Doing.{action_meant};
ghost use Rattle.machine_effects.specs.Acting.{answer_seen};
ghost use Rattle.own_handlers.specs.Seen.{signal_seen, delivery_seen};
ghost use Rattle.machine_deliveries.specs.Fitting.{Fits};
ghost use Rattle.machine_deliveries.specs.Doing.{Does};

use crate::beginning::{Begun, begin, end, refusal, report};
use crate::engine::Engine;
use evaluation::{Effect, Rules};
use machine_bodies::{Action, Bodies};
use machine_effects::{Answer, Effected, begin_effect};
use machine_model::Stop;
use machine_state::State;
use machine_steps::Fault;
use own_handlers::{Delivery, Signal};
use qml_base::{CellNo, NoMemory, ObjNo};
use qml_value::Value;
use signal_dispatch::{deliveries, is_left_out};
use std::alloc::Global;
use std::sync::ledger::Ledger;
use trace_print::Site;

/// Runs a delivery, in which so many may be nested. The run stops where the line has had its deliveries, and else where none may be
/// nested any more.
#[cycle(deliveries)]
pub fn deliver<'a, L: Ledger, R: Rules<L> + Drop, B: Bodies<L> + Drop>(
    alloc: Global,
    engine: &mut Engine<L, R, B>,
    state: &mut State<'a>,
    left: u32,
    delivery: Delivery,
) -> Result<(), Fault>
    requires { Fits (R.asks engine.old.rules) (B.asks engine.old.bodies) state.old }
    ensures does { Does result (machine_of state.new) (levels.deliver left (delivery_seen delivery) (machine_of state.old)) }
    ensures fits { OnOk result (Fits (R.asks engine.new.rules) (B.asks engine.new.bodies) state.new) }
{
    if state.turns == 0 {
        return Err(Fault::Stopped(Stop::Turns));
    }
    if left == 0 {
        return Err(refusal(delivery));
    }
    let begun = begin(alloc, engine, state, delivery)?;
    match begun {
        Begun::Done => Ok(()),
        Begun::Body(at, action) => exec(alloc, engine, state, left - 1, at, action),
    }
}

/// Goes through a body from an action on: effect after effect, each answered before the body goes on. A throw ends it with a
/// report; past the limit of numbers the run stops.
#[cycle(deliveries)]
pub fn exec<'a, L: Ledger, R: Rules<L> + Drop, B: Bodies<L> + Drop>(
    alloc: Global,
    engine: &mut Engine<L, R, B>,
    state: &mut State<'a>,
    left: u32,
    at: Site,
    first: Action<B::Waiting>,
) -> Result<(), Fault>
    requires { Fits (R.asks engine.old.rules) (B.asks engine.old.bodies) state.old }
    ensures does { Does result (machine_of state.new) (bodies.exec_next (levels.deliver left) at (action_meant B.goes_on B.left first) (machine_of state.old)) }
    ensures fits { OnOk result (Fits (R.asks engine.new.rules) (B.asks engine.new.bodies) state.new) }
{
    let mut action = first;
    'actions: loop {
        let (effect, waiting) = match action {
            Action::Effect(effect, waiting) => (effect, waiting),
            Action::End(ended) => return end(state, at, ended),
        };
        let answer = match act(alloc, engine, state, left, effect) {
            Ok(answer) => answer,
            Err(fault) => return Err(fault),
        };
        let value = match answer {
            Answer::Gives(value) => value,
            Answer::Throws(why) => return report(state, at, why),
        };
        action = engine
            .bodies
            .resume(alloc, &state.tree, waiting, value, &mut engine.steps)?;
    }
}

/// Does an effect of a body whole, with all that it delivers.
#[cycle(deliveries)]
pub fn act<'a, L: Ledger, R: Rules<L> + Drop, B: Bodies<L> + Drop>(
    alloc: Global,
    engine: &mut Engine<L, R, B>,
    state: &mut State<'a>,
    left: u32,
    effect: Effect,
) -> Result<Answer, Fault>
    requires { Fits (R.asks engine.old.rules) (B.asks engine.old.bodies) state.old }
    ensures gives { Gives answer_seen result (machine_of state.new) (bodies.act (levels.deliver left) effect (machine_of state.old)) }
    ensures fits { OnOk result (Fits (R.asks engine.new.rules) (B.asks engine.new.bodies) state.new) }
{
    let begun = begin_effect(alloc, state, effect, &mut engine.rules, &mut engine.steps)?;
    match begun {
        Effected::Answers(answer) => Ok(answer),
        Effected::Changes(changed) => {
            emit_changes(alloc, engine, state, left, changed.cells.as_slice())?;
            Ok(Answer::Gives(Value::Undefined))
        }
        Effected::Emits(o, number, args) => {
            let signal = Signal::Numbered(number);
            emit(alloc, engine, state, left, o, signal, args.as_slice())?;
            Ok(Answer::Gives(Value::Undefined))
        }
    }
}

/// The signal of a cell's change has twice the number of its place.
fn change_signal(c: CellNo) -> Result<Signal, NoMemory>
    ensures { IfOk result (λ signal. signal_seen signal ≡ numbered (2 * c.place)) }
{
    match c.place.checked_mul(2) {
        Some(number) => Ok(Signal::Numbered(number)),
        None => Err(NoMemory),
    }
}

/// Emits the signals of changes, in order.
#[cycle(deliveries)]
pub fn emit_changes<'a, L: Ledger, R: Rules<L> + Drop, B: Bodies<L> + Drop>(
    alloc: Global,
    engine: &mut Engine<L, R, B>,
    state: &mut State<'a>,
    left: u32,
    cells: &[CellNo],
) -> Result<(), Fault>
    requires { Fits (R.asks engine.old.rules) (B.asks engine.old.bodies) state.old }
    ensures does { Does result (machine_of state.new) (each (emission.emit_change (levels.deliver left)) cells.now (machine_of state.old)) }
    ensures fits { OnOk result (Fits (R.asks engine.new.rules) (B.asks engine.new.bodies) state.new) }
{
    'cells: for cell in cells {
        let signal = change_signal(*cell)?;
        emit(alloc, engine, state, left, cell.object, signal, &[])?;
    }
    Ok(())
}

/// Emits a signal of an object: the list of its deliveries is taken at once, and each is tested at its own turn (Qt 5.15, Signal and
/// Handler Event System).
#[cycle(deliveries)]
pub fn emit<'a, L: Ledger, R: Rules<L> + Drop, B: Bodies<L> + Drop>(
    alloc: Global,
    engine: &mut Engine<L, R, B>,
    state: &mut State<'a>,
    left: u32,
    o: ObjNo,
    signal: Signal,
    args: &[Value],
) -> Result<(), Fault>
    requires { Fits (R.asks engine.old.rules) (B.asks engine.old.bodies) state.old }
    ensures does { Does result (machine_of state.new) (emission.emit (levels.deliver left) o (signal_seen signal) args.now (machine_of state.old)) }
    ensures fits { OnOk result (Fits (R.asks engine.new.rules) (B.asks engine.new.bodies) state.new) }
{
    let list = deliveries(alloc, &engine.types, state, o, signal, args)?;
    deliver_all(alloc, engine, state, left, o, list)
}

/// Runs deliveries of an emitter in order, but those that are left out at their own turn.
#[cycle(deliveries)]
fn deliver_all<'a, L: Ledger, R: Rules<L> + Drop, B: Bodies<L> + Drop>(
    alloc: Global,
    engine: &mut Engine<L, R, B>,
    state: &mut State<'a>,
    left: u32,
    emitter: ObjNo,
    list: Vec<Delivery>,
) -> Result<(), Fault>
    requires { Fits (R.asks engine.old.rules) (B.asks engine.old.bodies) state.old }
    ensures does { Does result (machine_of state.new) (each (emission.deliver_unless (levels.deliver left) emitter) (map delivery_seen list.items) (machine_of state.old)) }
    ensures fits { OnOk result (Fits (R.asks engine.new.rules) (B.asks engine.new.bodies) state.new) }
{
    let mut behind = list;
    behind.reverse();
    'deliveries: while let Some(delivery) = behind.pop() {
        deliver_unless(alloc, engine, state, left, emitter, delivery)?;
    }
    Ok(())
}

/// Runs a delivery of an emitter, unless it is left out.
#[cycle(deliveries)]
pub fn deliver_unless<'a, L: Ledger, R: Rules<L> + Drop, B: Bodies<L> + Drop>(
    alloc: Global,
    engine: &mut Engine<L, R, B>,
    state: &mut State<'a>,
    left: u32,
    emitter: ObjNo,
    delivery: Delivery,
) -> Result<(), Fault>
    requires { Fits (R.asks engine.old.rules) (B.asks engine.old.bodies) state.old }
    ensures does { Does result (machine_of state.new) (emission.deliver_unless (levels.deliver left) emitter (delivery_seen delivery) (machine_of state.old)) }
    ensures fits { OnOk result (Fits (R.asks engine.new.rules) (B.asks engine.new.bodies) state.new) }
{
    if is_left_out(state, emitter, &delivery) {
        return Ok(());
    }
    deliver(alloc, engine, state, left, delivery)
}
