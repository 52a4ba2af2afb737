//! The machine from its start to its end.

ghost use Rattle.std.specs.Prelude.{◌≡◌, ◌⊎◌, ◌<◌, ◌≤◌, ◌∷◌, [], if◌then◌else◌, IfOk};
ghost use Rattle.js_locals.specs.Laid.{laid};
ghost use Rattle.js_frames.specs.Standing.{standing, with_frame};
ghost use Rattle.js_frames.specs.Moves.{Refuses};
ghost use Rattle.js_frames.specs.Statements.{GoesOn, Gives, Stops, GoesAgain};
ghost use Rattle.js_frames.specs.Stepping.{Goes, Unwinds, has_ended_of};
ghost use Rattle.js_progress.specs.Moving.{MovesAt, Moves, Nears};

use crate::assigning::{assigned, found_for, is_of_assignment, spot, targets};
use crate::calling::{entered, returned};
use evaluation::{Evaluated, View};
use js_direct::begun_directly;
use js_frames::{Callee, Code, Deed, Frame, Here, Machine, Next, Spot};
use js_looking::threw;
use js_statements::{declared, gives, goes_again, goes_on, rested, run_at, stops, taken};
use js_steps::{arguments, hidden_read, resumed, signs, stepped};
use qml_base::{Cause, ExprNo, Home, ObjNo};
use qml_syntax::Tree;
use qml_text::NoMemory;
use qml_value::Value;
use std::alloc::Global;

/// Whether a frame is of a statement that awaits a value.
fn is_of_statement(frame: &Frame) -> bool {
    match frame {
        Frame::Dropped | Frame::When(_) | Frame::Test(_, _) | Frame::ForFirst(_) => true,
        Frame::ForTest(_, _) | Frame::ForUpdate(_, _) | Frame::Returned => true,
        Frame::Var(_, _, _) => true,
        _ => false,
    }
}

/// Goes on with a value that a frame awaits.
#[tactic(auto, using(js_progress::proofs::MovingLemmas::resumes_at, js_progress::proofs::MovingLemmas::takes_at))]
fn back_to<V: View>(
    machine: &mut Machine,
    alloc: Global,
    tree: &Tree,
    view: &V,
    home: Home,
    frame: Frame,
    value: Value,
) -> Result<Next, NoMemory>
    ensures { IfOk result (λ y. MovesAt (record { names = V.names view.now; view = V.seen view.now }) (laid tree.now) home (with_frame frame (standing machine.old)) (Next.Back value) (standing machine.new) y) }
{
    if is_of_assignment(&frame) {
        let next = assigned(machine, alloc, tree, frame, value)?;
        Ok(next)
    } else if is_of_statement(&frame) {
        let next = taken(machine, tree, frame, value)?;
        Ok(next)
    } else {
        let next = resumed(machine, alloc, tree, view, frame, value)?;
        Ok(next)
    }
}

/// Gives a value back to what awaits it.
#[tactic(auto, using(js_progress::proofs::MovingLemmas::ends_here))]
fn back<V: View>(
    machine: &mut Machine,
    alloc: Global,
    tree: &Tree,
    view: &V,
    home: Home,
    value: Value,
) -> Result<Next, NoMemory>
    ensures { IfOk result (λ y. MovesAt (record { names = V.names view.now; view = V.seen view.now }) (laid tree.now) home (standing machine.old) (Next.Back value) (standing machine.new) y) }
{
    match machine.frames.pop() {
        None => Ok(Next::Ended(Evaluated::Value(value))),
        Some(frame) => {
            let next = back_to(machine, alloc, tree, view, home, frame, value)?;
            Ok(next)
        }
    }
}

/// Goes on behind what is assigned to, by the frame that awaits it.
fn found_behind<V: View>(
    machine: &mut Machine,
    alloc: Global,
    tree: &Tree,
    view: &V,
    home: Home,
    frame: Frame,
    spot: Spot,
) -> Result<Next, NoMemory>
    ensures { IfOk result (λ y. MovesAt (record { names = V.names view.now; view = V.seen view.now }) (laid tree.now) home (with_frame frame (standing machine.old)) (Next.Found spot) (standing machine.new) y) }
{
    let next = found_for(machine, alloc, tree, view, home, &frame, spot)?;
    Ok(next)
}

/// Goes on behind what is assigned to.
fn found<V: View>(
    machine: &mut Machine,
    alloc: Global,
    tree: &Tree,
    view: &V,
    home: Home,
    spot: Spot,
) -> Result<Next, NoMemory>
    ensures { IfOk result (λ y. MovesAt (record { names = V.names view.now; view = V.seen view.now }) (laid tree.now) home (standing machine.old) (Next.Found spot) (standing machine.new) y) }
{
    match machine.frames.pop() {
        None => Err(NoMemory),
        Some(frame) => {
            let next = found_behind(machine, alloc, tree, view, home, frame, spot)?;
            Ok(next)
        }
    }
}

/// One move within the code that is under way.
#[tactic(auto, using(js_progress::proofs::MovingLemmas::steps_at, js_progress::proofs::MovingLemmas::signs_at, js_progress::proofs::MovingLemmas::args_at, js_progress::proofs::MovingLemmas::runs_at, js_progress::proofs::MovingLemmas::rests_at, js_progress::proofs::MovingLemmas::vars_at))]
pub fn moved_within<V: View>(
    machine: &mut Machine,
    alloc: Global,
    tree: &Tree,
    view: &V,
    home: Home,
    next: Next,
) -> Result<Next, NoMemory>
    ensures { IfOk result (λ y. MovesAt (record { names = V.names view.now; view = V.seen view.now }) (laid tree.now) home (standing machine.old) next (standing machine.new) y) }
{
    match next {
        Next::Begin(at) => {
            let next = begun_directly(machine, alloc, tree, view, home, at)?;
            Ok(next)
        }
        Next::Back(value) => back(machine, alloc, tree, view, home, value),
        Next::Step(before, part) => {
            let next = stepped(machine, alloc, tree, view, home, before, part)?;
            Ok(next)
        }
        Next::Signs(op, at) => {
            let next = signs(machine, alloc, tree, view, home, op, at)?;
            Ok(next)
        }
        Next::Args(callee, at) => {
            let next = arguments(machine, alloc, tree, view, callee, at)?;
            Ok(next)
        }
        Next::Targets(at) => {
            let next = targets(machine, tree, at)?;
            Ok(next)
        }
        Next::Spot(at) => {
            let next = spot(machine, tree, view, home, at)?;
            Ok(next)
        }
        Next::Found(there) => found(machine, alloc, tree, view, home, there),
        Next::Run(at) => {
            let next = run_at(machine, alloc, tree, at)?;
            Ok(next)
        }
        Next::Rest(part) => {
            let next = rested(machine, tree, part)?;
            Ok(next)
        }
        Next::Vars(kind, part) => {
            let next = declared(machine, tree, kind, part)?;
            Ok(next)
        }
        Next::Enter(_, _, _, _) | Next::Done | Next::Give(_) => Err(NoMemory),
        Next::Stop | Next::Again | Next::Deed(_) | Next::Ended(_) => Err(NoMemory),
    }
}

/// Goes on behind a statement.
pub fn done(machine: &mut Machine, here: &mut Here, tree: &Tree) -> Result<Next, NoMemory>
    ensures { IfOk result (λ y. Unwinds (GoesOn (laid tree.now)) Value.Undefined here.old here.new (standing machine.old) (standing machine.new) y) }
{
    match machine.frames.pop() {
        None => Ok(Next::Ended(Evaluated::Value(Value::Undefined))),
        Some(Frame::Call(caller, locals, at)) => {
            Ok(returned(machine, here, caller, locals, at, Value::Undefined))
        }
        Some(frame) => {
            let next = goes_on(machine, tree, &frame)?;
            Ok(next)
        }
    }
}

/// Goes on behind a `return` with this value.
pub fn given(
    machine: &mut Machine,
    here: &mut Here,
    tree: &Tree,
    value: Value,
) -> Result<Next, NoMemory>
    ensures { IfOk result (λ y. Unwinds (λ f. Gives (laid tree.now) f value) value here.old here.new (standing machine.old) (standing machine.new) y) }
{
    match machine.frames.pop() {
        None => Ok(Next::Ended(Evaluated::Value(value))),
        Some(Frame::Call(caller, locals, at)) => {
            Ok(returned(machine, here, caller, locals, at, value))
        }
        Some(frame) => {
            let next = gives(machine, tree, &frame, value)?;
            Ok(next)
        }
    }
}

/// Goes on behind a `break`.
pub fn stopped(machine: &mut Machine, here: &mut Here, tree: &Tree) -> Result<Next, NoMemory>
    ensures { IfOk result (λ y. Unwinds (Stops (laid tree.now)) Value.Undefined here.old here.new (standing machine.old) (standing machine.new) y) }
{
    match machine.frames.pop() {
        None => Ok(Next::Ended(Evaluated::Value(Value::Undefined))),
        Some(Frame::Call(caller, locals, at)) => {
            Ok(returned(machine, here, caller, locals, at, Value::Undefined))
        }
        Some(frame) => {
            let next = stops(machine, tree, &frame)?;
            Ok(next)
        }
    }
}

/// Goes on behind a `continue`.
pub fn repeated(machine: &mut Machine, here: &mut Here, tree: &Tree) -> Result<Next, NoMemory>
    ensures { IfOk result (λ y. Unwinds (GoesAgain (laid tree.now)) Value.Undefined here.old here.new (standing machine.old) (standing machine.new) y) }
{
    match machine.frames.pop() {
        None => Ok(Next::Ended(Evaluated::Value(Value::Undefined))),
        Some(Frame::Call(caller, locals, at)) => {
            Ok(returned(machine, here, caller, locals, at, Value::Undefined))
        }
        Some(frame) => {
            let next = goes_again(machine, tree, &frame)?;
            Ok(next)
        }
    }
}

/// A `Qt.binding` is assigned where no effect is done: three nodes more, and then a throw.
fn rebind_refused(machine: &Machine) -> Next
    ensures { ((machine.now.left < 3) × (result ≡ Next.Ended (Evaluated.Threw Cause.Nodes))) ⊎ ((3 ≤ machine.now.left) × (result ≡ Next.Ended (Evaluated.Threw Cause.Call))) }
{
    if machine.left < 3 {
        threw(Cause::Nodes)
    } else {
        threw(Cause::Call)
    }
}

/// The arguments of a document's function, or of nothing that can be called.
fn reached(may: bool, body: ExprNo, object: ObjNo, at: usize) -> Next
    ensures { result ≡ Next.Args (if may then Callee.Body body object else Callee.Nothing) at }
{
    if may {
        Next::Args(Callee::Body(body, object), at)
    } else {
        Next::Args(Callee::Nothing, at)
    }
}

/// Goes on where an effect would be done: it throws, and a document's function is reached where it may be.
fn refused<V: View>(
    machine: &mut Machine,
    alloc: Global,
    tree: &Tree,
    view: &V,
    deed: Deed,
) -> Result<Next, NoMemory>
    ensures { IfOk result (λ y. Refuses (record { names = V.names view.now; view = V.seen view.now }) (laid tree.now) deed (standing machine.old) (standing machine.new) y) }
{
    match deed {
        Deed::Reach(body, object, may, at) => Ok(reached(may, body, object, at)),
        Deed::Read(_, cell, name, arguments, at) => {
            let next = hidden_read(machine, alloc, tree, view, cell, name, arguments, at)?;
            Ok(next)
        }
        Deed::Rebind(_) => Ok(rebind_refused(machine)),
        Deed::Emit(_, _, _, _) => Ok(threw(Cause::Call)),
        Deed::Do(_, _, _, _) => Ok(threw(Cause::Call)),
        Deed::Log(_, _) => Ok(threw(Cause::Call)),
        Deed::Write(_) => Ok(threw(Cause::Call)),
    }
}

/// One move.
#[tactic(auto, using(js_progress::proofs::MovingLemmas::refuses_when, js_progress::proofs::MovingLemmas::enters_when, js_progress::proofs::MovingLemmas::done_when, js_progress::proofs::MovingLemmas::given_when, js_progress::proofs::MovingLemmas::stopped_when, js_progress::proofs::MovingLemmas::repeated_when, js_progress::proofs::MovingLemmas::within_at))]
fn moved<V: View, C: Code>(
    machine: &mut Machine,
    alloc: Global,
    view: &V,
    code: &C,
    here: &mut Here,
    next: Next,
) -> Result<Next, NoMemory>
    ensures { IfOk result (λ y. Moves (record { names = V.names view.now; view = V.seen view.now }) (C.meaning code.now) (C.tables code.now) here.old here.new (standing machine.old) next (standing machine.new) y) }
{
    let Some(tree) = code.tree(here.text) else {
        return Err(NoMemory);
    };
    match next {
        Next::Enter(body, object, values, at) => {
            let next = entered(machine, alloc, code, here, body, object, values, at)?;
            Ok(next)
        }
        Next::Deed(deed) => {
            let next = refused(machine, alloc, tree, view, deed)?;
            Ok(next)
        }
        Next::Done => {
            let next = done(machine, here, tree)?;
            Ok(next)
        }
        Next::Give(value) => {
            let next = given(machine, here, tree, value)?;
            Ok(next)
        }
        Next::Stop => {
            let next = stopped(machine, here, tree)?;
            Ok(next)
        }
        Next::Again => {
            let next = repeated(machine, here, tree)?;
            Ok(next)
        }
        other => {
            let next = moved_within(machine, alloc, tree, view, here.home, other)?;
            Ok(next)
        }
    }
}

/// Whether all has ended.
fn has_ended(next: &Next) -> bool
    ensures { result ≡ has_ended_of next.now }
{
    match next {
        Next::Ended(_) => true,
        _ => false,
    }
}

/// Goes on until the next node is begun, or to the end.
#[tactic(auto, using(js_frames::proofs::EndLemmas::goes_nowhere, js_progress::proofs::MovingLemmas::falls_on))]
fn run_to_node<V: View, C: Code>(
    machine: &mut Machine,
    alloc: Global,
    view: &V,
    code: &C,
    here: &mut Here,
    first: Next,
) -> Result<Next, NoMemory>
    ensures { IfOk result (λ y. Nears (record { names = V.names view.now; view = V.seen view.now }) (C.meaning code.now) (C.tables code.now) here.old here.new (standing machine.old) first (standing machine.new) y) }
{
    let left = machine.left;
    let mut next = first;
    'moves: loop {
        next = moved(machine, alloc, view, code, here, next)?;
        if has_ended(&next) {
            return Ok(next);
        }
        if machine.left < left {
            return Ok(next);
        }
    }
}

/// Goes on to the end.
#[tactic(auto, using(js_frames::proofs::EndLemmas::goes_nowhere, js_progress::proofs::MovingLemmas::nearer_by))]
pub(crate) fn run<V: View, C: Code>(
    machine: &mut Machine,
    alloc: Global,
    view: &V,
    code: &C,
    here: &mut Here,
    first: Next,
) -> Result<Next, NoMemory>
    ensures { IfOk result (λ y. Goes (record { names = V.names view.now; view = V.seen view.now }) (C.meaning code.now) (C.tables code.now) here.old here.new (standing machine.old) first (standing machine.new) y) }
{
    let mut next = first;
    'nodes: while !has_ended(&next) {
        next = run_to_node(machine, alloc, view, code, here, next)?;
        if has_ended(&next) {
            break;
        }
    }
    Ok(next)
}

/// The first moves of an expression: to its end, where operands show what they are at once.
#[inline]
#[tactic(auto, using(js_direct::proofs::DirectLemmas::then_back))]
fn first_moved<V: View>(
    machine: &mut Machine,
    alloc: Global,
    tree: &Tree,
    view: &V,
    home: Home,
    at: usize,
) -> Result<Next, NoMemory>
    ensures { IfOk result (λ y. MovesAt (record { names = V.names view.now; view = V.seen view.now }) (laid tree.now) home (standing machine.old) (Next.Begin at) (standing machine.new) y) }
{
    let next = begun_directly(machine, alloc, tree, view, home, at)?;
    match next {
        Next::Back(value) => {
            let last = back(machine, alloc, tree, view, home, value)?;
            Ok(last)
        }
        other => Ok(other),
    }
}

/// The first moves of the text that is under way, from the expression at a place on.
#[inline]
#[tactic(auto, using(crate::proofs::FirstLemmas::goes_within))]
fn first_within<V: View, C: Code>(
    machine: &mut Machine,
    alloc: Global,
    view: &V,
    code: &C,
    here: Here,
    at: usize,
) -> Result<Next, NoMemory>
    ensures { IfOk result (λ y. Goes (record { names = V.names view.now; view = V.seen view.now }) (C.meaning code.now) (C.tables code.now) here here (standing machine.old) (Next.Begin at) (standing machine.new) y) }
{
    let Some(tree) = code.tree(here.text) else {
        return Err(NoMemory);
    };
    let next = first_moved(machine, alloc, tree, view, here.home, at)?;
    Ok(next)
}

/// Goes on from what a text begins with to the end.
#[inline]
#[tactic(auto, using(crate::proofs::FirstLemmas::goes_first, crate::proofs::FirstLemmas::goes_further))]
pub(crate) fn run_from<V: View, C: Code>(
    machine: &mut Machine,
    alloc: Global,
    view: &V,
    code: &C,
    here: &mut Here,
    first: Next,
) -> Result<Next, NoMemory>
    ensures { IfOk result (λ y. Goes (record { names = V.names view.now; view = V.seen view.now }) (C.meaning code.now) (C.tables code.now) here.old here.new (standing machine.old) first (standing machine.new) y) }
{
    match first {
        Next::Begin(at) => {
            let next = first_within(machine, alloc, view, code, *here, at)?;
            if has_ended(&next) {
                return Ok(next);
            }
            let last = run(machine, alloc, view, code, here, next)?;
            Ok(last)
        }
        other => {
            let last = run(machine, alloc, view, code, here, other)?;
            Ok(last)
        }
    }
}
