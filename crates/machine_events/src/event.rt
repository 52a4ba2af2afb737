//! Events.

ghost use Rattle.std.specs.Prelude.{◌≡◌, OnOk};
ghost use Rattle.machine_model.specs.Lines as lines;
ghost use Rattle.machine_state.specs.Keeping.{machine_of};
ghost use Rattle.machine_deliveries.specs.Fitting.{Fits};
ghost use Rattle.machine_deliveries.specs.Doing.{Does};
ghost use Rattle.machine_events.specs.Events.{event_seen};

use crate::beginning::begin_event;
use crate::lines::{advance, read_clock, run_statements};
use crate::printing::{show_all, show_path};
use evaluation::Rules;
use machine_bodies::Bodies;
use machine_deliveries::Engine;
use machine_opening::open;
use machine_state::State;
use machine_steps::Fault;
use qml_base::ExprNo;
use qml_text::Text;
use std::alloc::Global;
use std::sync::ledger::Ledger;

/// What an event does.
#[derive(Drop)]
pub enum Event {
    /// The root of a unit is opened.
    Opening(u32),
    /// The statements of a line are run.
    Statements(ExprNo),
    /// Time goes on by so many milliseconds.
    Advance(u64),
    /// Time goes on up to a reading of the clock.
    Reading(u64),
    /// All cells are shown.
    PrintAll,
    /// What a path comes to is shown, under the path as it is written.
    PrintPath(Text, ExprNo),
}

/// How many deliveries may be under way in one another.
pub const NESTING: u32 = 24;

/// Does what an event does, in the scope of the root of a unit.
fn do_event<'a, L: Ledger, R: Rules<L> + Drop, B: Bodies<L> + Drop>(
    alloc: Global,
    engine: &mut Engine<L, R, B>,
    state: &mut State<'a>,
    root: u32,
    what: Event,
) -> Result<(), Fault>
    requires { Fits (R.asks engine.old.rules) (B.asks engine.old.bodies) state.old }
    ensures does { Does result (machine_of state.new) (lines.do_event root (event_seen what) (machine_of state.old)) }
    ensures fits { OnOk result (Fits (R.asks engine.new.rules) (B.asks engine.new.bodies) state.new) }
{
    match what {
        Event::Opening(unit) => open(alloc, engine, state, NESTING, unit),
        Event::Statements(body) => run_statements(alloc, engine, state, root, body),
        Event::Advance(by) => advance(state, by),
        Event::Reading(reading) => read_clock(state, reading),
        Event::PrintAll => show_all(alloc, state),
        Event::PrintPath(path, text) => show_path(alloc, engine, state, root, path, text),
    }
}

/// An event: it is told under what is shown of it, has so many deliveries, and is done. The run stops as the definitions say.
pub fn run_event<'a, L: Ledger, R: Rules<L> + Drop, B: Bodies<L> + Drop>(
    alloc: Global,
    engine: &mut Engine<L, R, B>,
    state: &mut State<'a>,
    root: u32,
    most: u32,
    shown: Text,
    what: Event,
) -> Result<(), Fault>
    requires { Fits (R.asks engine.old.rules) (B.asks engine.old.bodies) state.old }
    ensures does { Does result (machine_of state.new) (lines.event root most shown (event_seen what) (machine_of state.old)) }
    ensures fits { OnOk result (Fits (R.asks engine.new.rules) (B.asks engine.new.bodies) state.new) }
{
    begin_event(state, most, shown)?;
    do_event(alloc, engine, state, root, what)
}
