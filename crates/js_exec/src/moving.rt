//! The machine of a body up to its next effect.

ghost use Rattle.std.specs.Prelude.{◌≡◌, IfOk};
ghost use Rattle.js_frames.specs.Standing.{standing};
ghost use Rattle.js_acting.specs.Acting.{is_final, is_effect, Acts, ActsOn, ActsTo};
ghost use Rattle.js_acting.specs.Leading.{Calls};

use crate::deeds::led;
use crate::sight::{Watch, is_gone};
use evaluation::Args;
use js_frames::{Code, Deed, Here, Machine, Next};
use js_looking::threw;
use js_subset::{done, entered, given, moved_within, repeated, stopped};
use qml_base::{Cause, ExprNo, ObjNo};
use qml_text::NoMemory;
use std::alloc::Global;

/// Calls a body, unless its object is condemned.
fn called<V: Watch, C: Code>(
    machine: &mut Machine,
    alloc: Global,
    view: &V,
    code: &C,
    here: &mut Here,
    author: ObjNo,
    body: ExprNo,
    object: ObjNo,
    values: Args,
    at: usize,
) -> Result<Next, NoMemory>
    ensures { IfOk result (λ y. Calls (V.sight view.now) (C.meaning code.now) (C.tables code.now) author body object values at here.old here.new (standing machine.old) (standing machine.new) y) }
{
    if is_gone(view, author, object) {
        return Ok(threw(Cause::Gone));
    }
    let next = entered(machine, alloc, code, here, body, object, values, at)?;
    Ok(next)
}

/// One move.
#[tactic(auto, using(js_acting::proofs::ActingLemmas::calls_when, js_acting::proofs::ActingLemmas::leads_when, js_acting::proofs::ActingLemmas::done_when, js_acting::proofs::ActingLemmas::given_when, js_acting::proofs::ActingLemmas::stopped_when, js_acting::proofs::ActingLemmas::repeated_when, js_acting::proofs::ActingLemmas::within_when))]
fn moved<V: Watch, C: Code>(
    machine: &mut Machine,
    alloc: Global,
    view: &V,
    code: &C,
    here: &mut Here,
    author: ObjNo,
    next: Next,
) -> Result<Next, NoMemory>
    ensures { IfOk result (λ y. ActsOn (record { names = V.names view.now; view = V.seen view.now }) (V.sight view.now) (C.meaning code.now) (C.tables code.now) author here.old here.new (standing machine.old) next (standing machine.new) y) }
{
    let Some(tree) = code.tree(here.text) else {
        return Err(NoMemory);
    };
    match next {
        Next::Enter(body, object, values, at) => {
            let next = called(
                machine, alloc, view, code, here, author, body, object, values, at,
            )?;
            Ok(next)
        }
        Next::Deed(deed) => {
            let next = led(machine, alloc, tree, view, author, deed)?;
            Ok(next)
        }
        Next::Done => {
            let next = done(machine, here, tree)?;
            Ok(next)
        }
        Next::Give(value) => {
            let next = given(machine, here, tree, value)?;
            Ok(next)
        }
        Next::Stop => {
            let next = stopped(machine, here, tree)?;
            Ok(next)
        }
        Next::Again => {
            let next = repeated(machine, here, tree)?;
            Ok(next)
        }
        other => {
            let next = moved_within(machine, alloc, tree, view, here.home, other)?;
            Ok(next)
        }
    }
}

/// Whether an effect comes next, or a throw in place of it.
fn is_effect(deed: &Deed) -> bool
    ensures { result ≡ is_effect deed.now }
{
    match deed {
        Deed::Reach(_, _, _, _) | Deed::Read(_, _, _, _, _) => false,
        Deed::Emit(_, _, _, _) | Deed::Do(_, _, _, _) | Deed::Log(_, _) => true,
        Deed::Write(_) | Deed::Rebind(_) => true,
    }
}

/// Whether all has ended, or an effect comes next.
fn is_final(next: &Next) -> bool
    ensures { result ≡ is_final next.now }
{
    match next {
        Next::Ended(_) => true,
        Next::Deed(deed) => is_effect(deed),
        _ => false,
    }
}

/// Goes on until the next node is begun, or to the end or an effect.
#[tactic(auto, using(js_acting::proofs::ActingLemmas::acts_nowhere, js_acting::proofs::ActingLemmas::falls_on, js_acting::proofs::ActingLemmas::nears_final, js_acting::proofs::ActingLemmas::nears_node, js_acting::proofs::ActingLemmas::acts_on))]
fn run_to_node<V: Watch, C: Code>(
    machine: &mut Machine,
    alloc: Global,
    view: &V,
    code: &C,
    here: &mut Here,
    author: ObjNo,
    first: Next,
) -> Result<Next, NoMemory>
    ensures { IfOk result (λ y. ActsTo (record { names = V.names view.now; view = V.seen view.now }) (V.sight view.now) (C.meaning code.now) (C.tables code.now) author here.old here.new (standing machine.old) first (standing machine.new) y) }
{
    let left = machine.left;
    let mut next = first;
    'moves: loop {
        next = moved(machine, alloc, view, code, here, author, next)?;
        if is_final(&next) {
            return Ok(next);
        }
        if machine.left < left {
            return Ok(next);
        }
    }
}

/// Goes on to the end or to the next effect.
#[tactic(auto, using(js_acting::proofs::ActingLemmas::acts_nowhere, js_acting::proofs::ActingLemmas::nearer_by, js_acting::proofs::ActingLemmas::acts_further))]
pub(crate) fn run<V: Watch, C: Code>(
    machine: &mut Machine,
    alloc: Global,
    view: &V,
    code: &C,
    here: &mut Here,
    author: ObjNo,
    first: Next,
) -> Result<Next, NoMemory>
    ensures { IfOk result (λ y. Acts (record { names = V.names view.now; view = V.seen view.now }) (V.sight view.now) (C.meaning code.now) (C.tables code.now) author here.old here.new (standing machine.old) first (standing machine.new) y) }
{
    let mut next = first;
    'nodes: while !is_final(&next) {
        next = run_to_node(machine, alloc, view, code, here, author, next)?;
        if is_final(&next) {
            break;
        }
    }
    Ok(next)
}
