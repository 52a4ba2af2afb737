//! The effects of a body, one by one.

ghost use Rattle.std.specs.Prelude.{◌≡◌, OnOk};
ghost use Rattle.qml_base.specs.declared.numbers.ExprNo.{ExprNo as AText};
ghost use Rattle.qml_base.specs.declared.names.Home.{Home as AHome};
ghost use Rattle.evaluation.specs.Ask.{Ask};
ghost use Rattle.qml_syntax.specs.Tree.{Units};
ghost use Rattle.evaluation.specs.declared.effect.Effect.TheVariants as effect;
ghost use Rattle.machine_model.specs.Bodies as bodies;
ghost use Rattle.machine_model.specs.Emission.{Below};
ghost use Rattle.machine_state.specs.Keeping.{machine_of, Ready};
ghost use Rattle.machine_state.specs.Leading.{Leads};
ghost use Rattle.machine_effects.specs.Acting.{left_of, is_undefined as is_nothing};
ghost use Rattle.machine_effects.specs.declared.acting.Effected.TheVariants as effected;
ghost use Rattle.machine_effects.specs.declared.acting.Answer.TheVariants as answer;

use crate::logging::texts;
use crate::writing::{assign, rebind};
use evaluation::{Args, Effect, Rules};
use live_tree::Changed;
use machine_state::State;
use machine_steps::Fault;
use qml_base::{Cause, NoMemory, ObjNo, Steps};
use qml_value::Value;
use signal_dispatch::is_condemned;
use std::alloc::Global;
use std::sync::ledger::Ledger;
use trace_print::{Entry, Texts};

/// What an effect comes to.
#[derive(Drop)]
pub enum Answer {
    Gives(Value),
    Throws(Cause),
}

/// What is left of an effect.
#[derive(Drop)]
pub enum Effected {
    /// Nothing: it came to this.
    Answers(Answer),
    /// The signals of these changes are to be emitted, and then it gives undefined.
    Changes(Changed),
    /// The signal of an object is to be emitted, by its number there, with its arguments, and then it gives undefined.
    Emits(ObjNo, u32, Vec<Value>),
}

/// An effect that throws.
pub fn throws(why: Cause) -> Effected
    ensures { result ≡ effected.Answers (answer.Throws why) }
{
    Effected::Answers(Answer::Throws(why))
}

/// Logs values (Qt 5.15, `console.log`).
#[tactic(auto, using(crate::proofs::ActingLemmas::logged, crate::proofs::ActingLemmas::too_heavy))]
fn log<'a>(alloc: Global, state: &mut State<'a>, values: &[Value]) -> Result<Effected, Fault>
    ensures logs { (below : Below) → Leads (bodies.log (bodies.texts_of values.now) (machine_of state.old)) result (left_of below) (machine_of state.new) }
    ensures ready { (asks : AText → AHome → Ask) → Ready asks state.old → Ready asks state.new }
    ensures units { state.new.units ≡ state.old.units }
{
    let Some(texts) = texts(alloc, values)? else {
        return Ok(throws(Cause::Size));
    };
    state.tell(Entry::Log {
        texts: Texts::of_vec(texts),
    })?;
    Ok(Effected::Answers(Answer::Gives(Value::Undefined)))
}

/// Whether it is undefined.
fn is_undefined(value: &Value) -> bool
    ensures { result ≡ is_nothing value.now }
{
    match value {
        Value::Undefined => true,
        _ => false,
    }
}

/// Calls a method, by its arguments. Those that make, move or ask something aren't there yet: no program that calls one is loaded.
#[tactic(auto, using(crate::proofs::ActingLemmas::called, crate::proofs::ActingLemmas::of_another))]
fn call<'a>(
    alloc: Global,
    state: &mut State<'a>,
    v: &Value,
    args: &[Value],
) -> Result<Effected, Fault>
    ensures calls { (below : Below) (name : Units) → Leads (bodies.call_method below v.now name args.now (machine_of state.old)) result (left_of below) (machine_of state.new) }
    ensures ready { (asks : AText → AHome → Ask) → Ready asks state.old → Ready asks state.new }
    ensures units { state.new.units ≡ state.old.units }
{
    if is_undefined(v) {
        log(alloc, state, args)
    } else {
        Ok(throws(Cause::Call))
    }
}

/// The emission of a signal of an object, which throws where the object is condemned.
#[tactic(auto, using(crate::proofs::ActingLemmas::emitter_gone, crate::proofs::ActingLemmas::emitter_there))]
fn emission<'a>(state: &State<'a>, o: ObjNo, number: u32, args: Args) -> Effected
    ensures { (below : Below) → bodies.act below (effect.Emit o number args) (machine_of state.now) ≡ left_of below result (machine_of state.now) }
{
    if is_condemned(state, o) {
        throws(Cause::Gone)
    } else {
        Effected::Emits(o, number, args.into_values())
    }
}

/// Begins an effect of a body: an assignment, the assignment of a `Qt.binding`, the emission of a signal, or a call. All of it is
/// done but what is to be delivered. The run stops at the lowest cell past the limit of numbers. Without memory the machine may
/// have changed in part.
pub fn begin_effect<'a, L: Ledger, R: Rules<L>>(
    alloc: Global,
    state: &mut State<'a>,
    effect: Effect,
    rules: &mut R,
    steps: &mut Steps<L>,
) -> Result<Effected, Fault>
    requires { Ready (R.asks rules.old) state.old }
    ensures acts { (below : Below) → Leads (bodies.act below effect (machine_of state.old)) result (left_of below) (machine_of state.new) }
    ensures ready { OnOk result (Ready (R.asks rules.old) state.new) }
    ensures units { OnOk result ((machine_of state.new).units ≡ (machine_of state.old).units) }
    ensures same { R.asks rules.new ≡ R.asks rules.old }
{
    match effect {
        Effect::Write(c, v) => assign(alloc, state, c, v, rules, steps),
        Effect::Rebind(c, text, home) => rebind(alloc, state, c, text, home, rules, steps),
        Effect::Emit(o, number, args) => Ok(emission(state, o, number, args)),
        Effect::Call(v, _, args) => call(alloc, state, &v, args.values()),
    }
}
