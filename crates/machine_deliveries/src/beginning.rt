//! A delivery up to its body, and the end of a body.

ghost use Rattle.std.specs.Prelude.{◌≡◌, ◌<◌, ℕ, codes, List, IfOk, OnOk};
ghost use Rattle.qml_base.specs.declared.numbers.ExprNo.{ExprNo as AText};
ghost use Rattle.qml_base.specs.declared.names.Home.{Home as AHome};
ghost use Rattle.qml_value.specs.declared.value.Value.{Value as AValue};
ghost use Rattle.evaluation.specs.Ask.{Ask};
ghost use Rattle.js_meaning.specs.Resuming.{an_end};
ghost use Rattle.trace_print.specs.declared.entry.Entry.TheVariants as entry;
ghost use Rattle.machine_model.specs.State.{runs};
ghost use Rattle.machine_model.specs.declared.stop.Stop.TheVariants as stop;
ghost use Rattle.machine_steps.specs.declared.fault.Fault.TheVariants as fault;
ghost use Rattle.machine_model.specs.Acts.{goes, tell};
ghost use Rattle.machine_model.specs.Emission.{Below};
ghost use Rattle.machine_model.specs.Bodies.{exec_next, threw_entry};
ghost use Rattle.machine_model.specs.Levels.{handler_in, home_of as home_for, run as run_it};
ghost use Rattle.machine_state.specs.Keeping.{machine_of};
ghost use Rattle.machine_bodies.specs.Doing.{action_meant};
ghost use Rattle.own_handlers.specs.Seen.{deed_seen, delivery_seen};
ghost use Rattle.machine_deliveries.specs.Fitting.{Fits};
ghost use Rattle.machine_deliveries.specs.Doing as doing;
ghost use Rattle.machine_deliveries.specs.Doing.{Does, left_of_begun};

use crate::engine::Engine;
use evaluation::{Ended, Rules};
use machine_bodies::{Action, Bodies};
use machine_model::Stop;
use machine_reactions::react;
use machine_state::State;
use machine_steps::Fault;
use own_handlers::{Deed, Delivery};
use qml_base::{Cause, ExprNo, Home, NoMemory, ObjNo};
use qml_text::Text;
use qml_value::Value;
use std::alloc::Global;
use std::sync::ledger::Ledger;
use trace_print::{Entry, Site};

/// What is left of a delivery once it is told and counted.
#[derive(Drop)]
pub enum Begun<W> {
    /// Nothing.
    Done,
    /// A body, with where it throws.
    Body(Site, Action<W>),
}

/// Reports that a body threw.
#[tactic(auto, using(crate::proofs::FitLemmas::still_fits))]
pub fn report<'a>(state: &mut State<'a>, at: Site, why: Cause) -> Result<(), Fault>
    ensures told { Does result (machine_of state.new) (tell (threw_entry at why) (machine_of state.old)) }
    ensures fits { (asks : AText → AHome → Ask) (bodies : AText → AHome → List (List ℕ) → List AValue → Ask) → Fits asks bodies state.old → Fits asks bodies state.new }
{
    state.tell(Entry::ThrewReport {
        site: at,
        cause: why,
    })?;
    Ok(())
}

/// Ends a body: a throw is reported, and past the limit of numbers the run stops.
pub fn end<'a>(state: &mut State<'a>, at: Site, ended: Ended) -> Result<(), Fault>
    ensures ends { (below : Below) → Does result (machine_of state.new) (exec_next below at (an_end ended) (machine_of state.old)) }
    ensures fits { (asks : AText → AHome → Ask) (bodies : AText → AHome → List (List ℕ) → List AValue → Ask) → Fits asks bodies state.old → Fits asks bodies state.new }
{
    match ended {
        Ended::Value(_) => Ok(()),
        Ended::Threw(why) => report(state, at, why),
        Ended::Past => Err(Fault::Stopped(Stop::Past(at))),
    }
}

/// The handler that a deed runs.
fn handler_of(deed: Deed) -> Option<Text>
    ensures { result ≡ handler_in (deed_seen deed) }
{
    match deed {
        Deed::Starts => None,
        Deed::Reacts(_) => None,
        Deed::Runs { handler, .. } => Some(handler),
    }
}

/// That a delivery would be nested too deep.
pub fn refusal(delivery: Delivery) -> Fault
    ensures { result ≡ fault.Stopped (stop.Nesting delivery.object (handler_in (deed_seen delivery.deed))) }
{
    let Delivery { object, deed, .. } = delivery;
    Fault::Stopped(Stop::Nesting(object, handler_of(deed)))
}

/// Tells a delivery, and counts it.
#[tactic(auto, using(crate::proofs::FitLemmas::still_fits))]
fn tell_and_spend<'a>(state: &mut State<'a>, told: Entry) -> Result<(), NoMemory>
    requires { 0 < state.old.turns }
    ensures told { OnOk result (doing.tell_and_spend told (machine_of state.old) ≡ goes tt (machine_of state.new)) }
    ensures fits { (asks : AText → AHome → Ask) (bodies : AText → AHome → List (List ℕ) → List AValue → Ask) → Fits asks bodies state.old → Fits asks bodies state.new }
{
    state.tell(told)?;
    state.turns -= 1;
    Ok(())
}

/// What stands in the trace where an object starts.
fn start_text(alloc: Global) -> Result<Text, NoMemory>
    ensures { IfOk result (λ text. text ≡ codes "start") }
{
    match Text::from_latin1(alloc, b"start") {
        Ok(text) => Ok(text),
        Err(_) => Err(NoMemory),
    }
}

/// A reaction is told, counted and done.
#[tactic(auto, using(crate::proofs::BeginLemmas::then_reacts, crate::proofs::FitLemmas::same_fits))]
fn begin_reaction<'a, L: Ledger, R: Rules<L> + Drop, B: Bodies<L> + Drop>(
    alloc: Global,
    engine: &mut Engine<L, R, B>,
    state: &mut State<'a>,
    o: ObjNo,
    what: Text,
) -> Result<Begun<B::Waiting>, NoMemory>
    requires fits { Fits (R.asks engine.old.rules) (B.asks engine.old.bodies) state.old }
    requires turns { 0 < state.old.turns }
    ensures begins { (below : Below) → IfOk result (λ begun. doing.told_reaction (entry.React o what) o (machine_of state.old) ≡ left_of_begun B.goes_on B.left below begun (machine_of state.new)) }
    ensures fits { OnOk result (Fits (R.asks engine.new.rules) (B.asks engine.new.bodies) state.new) }
{
    tell_and_spend(state, Entry::React { object: o, what })?;
    react(alloc, &engine.types, state, o)?;
    Ok(Begun::Done)
}

/// A handler's names are looked for from its object.
fn home_of(body: ExprNo, o: ObjNo) -> Home
    ensures { result ≡ home_for body o }
{
    Home {
        unit: body.unit,
        scope: o,
        author: o,
    }
}

/// A copy of a text.
fn copied(alloc: Global, text: &Text) -> Result<Text, NoMemory>
    ensures { IfOk result (λ copy. copy ≡ text.now) }
{
    match text.copy(alloc) {
        Ok(copy) => Ok(copy),
        Err(_) => Err(NoMemory),
    }
}

/// A handler is told, counted and begun.
#[tactic(auto, using(crate::proofs::BeginLemmas::begun_handler, crate::proofs::FitLemmas::other_bodies))]
fn begin_handler<'a, L: Ledger, R: Rules<L> + Drop, B: Bodies<L> + Drop>(
    alloc: Global,
    engine: &mut Engine<L, R, B>,
    state: &mut State<'a>,
    o: ObjNo,
    handler: Text,
    body: ExprNo,
    names: Vec<Text>,
    args: Vec<Value>,
) -> Result<Begun<B::Waiting>, NoMemory>
    requires fits { Fits (R.asks engine.old.rules) (B.asks engine.old.bodies) state.old }
    requires turns { 0 < state.old.turns }
    ensures begins { (below : Below) → IfOk result (λ begun. doing.told_deed below (entry.Call o handler) o (runs handler body names.items args.items) (machine_of state.old) ≡ left_of_begun B.goes_on B.left below begun (machine_of state.new)) }
    ensures fits { OnOk result (Fits (R.asks engine.new.rules) (B.asks engine.new.bodies) state.new) }
{
    let told = copied(alloc, &handler)?;
    tell_and_spend(
        state,
        Entry::Call {
            object: o,
            handler: told,
        },
    )?;
    let home = home_of(body, o);
    let action = engine.bodies.begin(
        alloc,
        &state.tree,
        body,
        home,
        names.as_slice(),
        args,
        &mut engine.steps,
    )?;
    Ok(Begun::Body(Site::Handler(o, handler), action))
}

/// Begins a delivery: it is told and counts one turn; an object starts or reacts, or its handler goes on up to its first effect.
pub fn begin<'a, L: Ledger, R: Rules<L> + Drop, B: Bodies<L> + Drop>(
    alloc: Global,
    engine: &mut Engine<L, R, B>,
    state: &mut State<'a>,
    delivery: Delivery,
) -> Result<Begun<B::Waiting>, NoMemory>
    requires fits { Fits (R.asks engine.old.rules) (B.asks engine.old.bodies) state.old }
    requires turns { 0 < state.old.turns }
    ensures begins { (below : Below) → IfOk result (λ begun. run_it below (delivery_seen delivery) (machine_of state.old) ≡ left_of_begun B.goes_on B.left below begun (machine_of state.new)) }
    ensures fits { OnOk result (Fits (R.asks engine.new.rules) (B.asks engine.new.bodies) state.new) }
{
    let Delivery { object, deed, .. } = delivery;
    match deed {
        Deed::Starts => {
            let what = start_text(alloc)?;
            begin_reaction(alloc, engine, state, object, what)
        }
        Deed::Reacts(what) => begin_reaction(alloc, engine, state, object, what),
        Deed::Runs {
            handler,
            body,
            names,
            args,
        } => begin_handler(alloc, engine, state, object, handler, body, names, args),
    }
}
