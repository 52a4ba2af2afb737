//! What is handed out at the end, and at an effect.

ghost use Rattle.std.specs.Prelude.{◌≡◌, ◌⊎◌, ◌∷◌, true, false, codes, IfOk};
ghost use Rattle.js_acting.specs.Acting.{is_gone};
ghost use Rattle.js_locals.specs.Laid.{laid};
ghost use Rattle.js_frames.specs.Standing.{standing, with_frame};
ghost use Rattle.js_acting.specs.Handing.{Ends, EndsBy, EffectDone, WritesTo, RebindsTo, Puts, PutsFunction, Hands, Finishes};

use crate::code::ActingCode;
use crate::sight::{Watch, is_gone};
use crate::spots::spot_target;
use evaluation::{Args, Effect, Ended, Evaluated};
use js_acting::{Acted, Behind, Stopped, Target};
use js_frames::{Deed, Frame, Here, Machine, Next, Spot};
use js_locals::name_of;
use qml_base::{Cause, ExprNo, ObjNo, Place};
use qml_syntax::Tree;
use qml_text::{NoMemory, Text};
use qml_value::Value;
use std::alloc::Global;

/// A throw.
fn thrown(cause: Cause) -> Acted
    ensures { result ≡ Acted.End (Ended.Threw cause) }
{
    Acted::End(Ended::Threw(cause))
}

/// An effect, which counts one.
fn effect_done(machine: Machine, author: ObjNo, here: Here, effect: Effect, behind: Behind) -> Acted
    ensures { EffectDone author here effect behind (standing machine) result }
{
    if machine.left == 0 {
        return thrown(Cause::Nodes);
    }
    let stopped = Stopped {
        author,
        here,
        left: machine.left - 1,
        frames: machine.frames,
        locals: machine.locals,
        behind,
    };
    Acted::Effect(effect, stopped)
}

/// A write, or a throw.
fn written_to(
    machine: Machine,
    author: ObjNo,
    here: Here,
    value: Value,
    back: Value,
    target: Target,
) -> Acted
    ensures { WritesTo author here value back target (standing machine) result }
{
    match target {
        Target::Cell(cell) => {
            let effect = Effect::Write(cell, value);
            effect_done(machine, author, here, effect, Behind::Back(back))
        }
        Target::Throws(cause) => thrown(cause),
    }
}

/// Puts a value in a spot outside.
fn put<V: Watch>(
    machine: Machine,
    tree: &Tree,
    view: &V,
    author: ObjNo,
    here: Here,
    value: Value,
) -> Result<Acted, NoMemory>
    ensures { IfOk result (λ r. Puts (V.sight view.now) (V.names view.now) (laid tree.now) author here value machine.frames (standing machine) r) }
{
    let mut machine = machine;
    match machine.frames.pop() {
        Some(Frame::Assigned(_, back, spot)) => {
            let target = spot_target(view, tree, here.home, &spot)?;
            Ok(written_to(machine, author, here, value, back, target))
        }
        _ => Err(NoMemory),
    }
}

/// The assignment of a function, or a throw.
fn rebound_to(
    machine: Machine,
    author: ObjNo,
    here: Here,
    function: ExprNo,
    target: Target,
) -> Acted
    ensures { RebindsTo author here function target (standing machine) result }
{
    match target {
        Target::Cell(cell) => {
            let effect = Effect::Rebind(cell, function, here.home);
            effect_done(
                machine,
                author,
                here,
                effect,
                Behind::Back(Value::Undefined),
            )
        }
        Target::Throws(cause) => thrown(cause),
    }
}

/// Puts the function of a `Qt.binding` in a spot outside.
fn function_put<V: Watch>(
    machine: Machine,
    tree: &Tree,
    view: &V,
    author: ObjNo,
    here: Here,
    function: ExprNo,
) -> Result<Acted, NoMemory>
    ensures { IfOk result (λ r. PutsFunction (V.sight view.now) (V.names view.now) (laid tree.now) author here function machine.frames (standing machine) r) }
{
    let mut machine = machine;
    match machine.frames.pop() {
        Some(Frame::Assigned(_, _, spot)) => {
            if machine.left < 3 {
                return Ok(thrown(Cause::Nodes));
            }
            let target = spot_target(view, tree, here.home, &spot)?;
            machine.left -= 3;
            Ok(rebound_to(machine, author, here, function, target))
        }
        _ => Err(NoMemory),
    }
}

/// Emits a signal, unless its object is condemned.
fn emitted<V: Watch>(
    machine: Machine,
    view: &V,
    author: ObjNo,
    here: Here,
    object: ObjNo,
    effect: Effect,
    at: usize,
) -> Acted
    ensures { (((V.sight view.now).is_condemned object ≡ true) × Ends Cause.Gone result) ⊎ (((V.sight view.now).is_condemned object ≡ false) × EffectDone author here effect (Behind.Step at) (standing machine) result) }
{
    if view.is_condemned(object) {
        thrown(Cause::Gone)
    } else {
        effect_done(machine, author, here, effect, Behind::Step(at))
    }
}

/// Calls a method of an object, unless that is condemned.
fn method_called<V: Watch>(
    machine: Machine,
    view: &V,
    author: ObjNo,
    here: Here,
    object: ObjNo,
    effect: Effect,
    at: usize,
) -> Acted
    ensures { ((is_gone (V.sight view.now) author object ≡ true) × Ends Cause.Gone result) ⊎ ((is_gone (V.sight view.now) author object ≡ false) × EffectDone author here effect (Behind.Step at) (standing machine) result) }
{
    if is_gone(view, author, object) {
        thrown(Cause::Gone)
    } else {
        effect_done(machine, author, here, effect, Behind::Step(at))
    }
}

/// What is logged.
fn logged(alloc: Global, arguments: Args) -> Result<Effect, NoMemory>
    ensures { IfOk result (λ e. e ≡ Effect.Call Value.Undefined (codes "log") arguments) }
{
    let log = Text::from_latin1(alloc, b"log")?;
    Ok(Effect::Call(Value::Undefined, log, arguments))
}

/// Hands out what goes by effects.
fn handed<V: Watch, C: ActingCode>(
    machine: Machine,
    alloc: Global,
    tree: &Tree,
    view: &V,
    code: &C,
    author: ObjNo,
    here: Here,
    deed: Deed,
) -> Result<Acted, NoMemory>
    ensures { IfOk result (λ r. Hands (V.sight view.now) (V.names view.now) (C.meaning code.now) (laid tree.now) author here deed (standing machine) r) }
{
    match deed {
        Deed::Emit(object, signal, arguments, at) => {
            let effect = Effect::Emit(object, signal, arguments);
            Ok(emitted(machine, view, author, here, object, effect, at))
        }
        Deed::Do(object, name, arguments, at) => {
            let name = name_of(tree, name)?.copy(alloc)?;
            let effect = Effect::Call(Value::Object(object), name, arguments);
            Ok(method_called(machine, view, author, here, object, effect, at))
        }
        Deed::Log(arguments, at) => {
            let effect = logged(alloc, arguments)?;
            Ok(effect_done(machine, author, here, effect, Behind::Step(at)))
        }
        Deed::Write(value) => {
            let action = put(machine, tree, view, author, here, value)?;
            Ok(action)
        }
        Deed::Rebind(place) => {
            let function = code.bound(here.text, place);
            let action = function_put(machine, tree, view, author, here, function)?;
            Ok(action)
        }
        Deed::Reach(_, _, _, _) | Deed::Read(_, _, _, _, _) => Err(NoMemory),
    }
}

/// The end.
fn ended(outcome: Evaluated) -> Result<Acted, NoMemory>
    ensures { IfOk result (λ r. EndsBy outcome r) }
{
    match outcome {
        Evaluated::Value(value) => Ok(Acted::End(Ended::Value(value))),
        Evaluated::Threw(cause) => Ok(thrown(cause)),
        Evaluated::Loop => Ok(Acted::End(Ended::Past)),
        Evaluated::Past => Ok(Acted::End(Ended::Past)),
        Evaluated::Need(_) => Ok(Acted::End(Ended::Past)),
        Evaluated::NoMemory => Err(NoMemory),
    }
}

/// Hands out the end, or what goes by effects.
pub(crate) fn finished<V: Watch, C: ActingCode>(
    machine: Machine,
    alloc: Global,
    tree: &Tree,
    view: &V,
    code: &C,
    author: ObjNo,
    here: Here,
    next: Next,
) -> Result<Acted, NoMemory>
    ensures { IfOk result (λ r. Finishes (V.sight view.now) (V.names view.now) (C.meaning code.now) (laid tree.now) author here next (standing machine) r) }
{
    match next {
        Next::Ended(outcome) => {
            let action = ended(outcome)?;
            Ok(action)
        }
        Next::Deed(deed) => {
            let action = handed(machine, alloc, tree, view, code, author, here, deed)?;
            Ok(action)
        }
        _ => Err(NoMemory),
    }
}
