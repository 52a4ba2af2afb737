//! Assignments.

ghost use Rattle.std.specs.Prelude.{◌≡◌, true, ◌∷◌, ◌+ℤ◌, None, IfOk};
ghost use Rattle.qml_syntax.specs.Opened.{node_of};
ghost use Rattle.js_meaning.specs.Operate.{bounded, on_num};
ghost use Rattle.js_meaning.specs.Assigning.{operator_of};
ghost use Rattle.js_locals.specs.Laid.{laid, assignment_in, is_expr_node, is_target, name_of};
ghost use Rattle.js_frames.specs.Standing.{standing, with_frame};
ghost use Rattle.js_frames.specs.Meant.{bound_of, chosen_by, operator_at};
ghost use Rattle.js_locals.specs.Scopes.{held_of};
ghost use Rattle.js_frames.specs.Moves.{local_in, OrElse, Turns};
ghost use Rattle.js_frames.specs.Spots.{TargetsAt, local_spot, NameSpot, StepsSpot, SpotBegins, SpotAt, SpotGives, Rebinds, RightBegins, PlainlyFound, FoundBy, FoundFor, SpotWrites, Stores, updated_by, Assigns};

use crate::binding::bound;
use evaluation::{Ended, Evaluated, View};
use js_frames::{Deed, Frame, Gives, Machine, Next, Spot, To};
use js_locals::{Local, copied, find, first_part, is_expression, name_of, next_part, node_at};
use js_looking::{element, found_value, member, name_value, threw};
use js_operators::operate;
use js_statements::writes;
use js_steps::{is_name, steps_by};
use qml_base::{Cause, Home, Place};
use qml_syntax::{Assignment, Node, Operator, Tree};
use qml_text::{NoMemory, Text};
use qml_value::{Num, Value};
use std::alloc::Global;

// ---- targets

/// Whether it is the node of a target.
fn is_target(node: &Node) -> bool
    ensures { result ≡ is_target node.now }
{
    match node {
        Node::Target(_, _, _) => true,
        _ => false,
    }
}

/// How a target is assigned to.
fn assignment_in(node: &Node) -> Assignment
    ensures { result ≡ assignment_in node.now }
{
    match node {
        Node::Target(_, kind, _) => *kind,
        _ => Assignment::Plain,
    }
}

/// The operator of an assignment.
fn operator_of(kind: Assignment) -> Option<Operator>
    ensures { result ≡ operator_of kind }
{
    match kind {
        Assignment::Plain => None,
        Assignment::Plus => Some(Operator::Plus),
        Assignment::Minus => Some(Operator::Minus),
        Assignment::Times => Some(Operator::Times),
        Assignment::Divide => Some(Operator::Divide),
        Assignment::Remainder => Some(Operator::Remainder),
        Assignment::BitAnd => Some(Operator::BitAnd),
        Assignment::BitOr => Some(Operator::BitOr),
        Assignment::BitXor => Some(Operator::BitXor),
        Assignment::ShiftLeft => Some(Operator::ShiftLeft),
        Assignment::ShiftRight => Some(Operator::ShiftRight),
        Assignment::ShiftRightUnsigned => Some(Operator::ShiftRightUnsigned),
    }
}

/// The operator of the target at a place.
fn operator_at(tree: &Tree, at: usize) -> Result<Option<Operator>, NoMemory>
    ensures { IfOk result (λ o. o ≡ operator_at (laid tree.now) at) }
{
    match node_at(tree, at) {
        Some(node) => Ok(operator_of(assignment_in(node))),
        None => Err(NoMemory),
    }
}

/// Begins the target at a place, or the value behind the last.
pub(crate) fn targets(machine: &mut Machine, tree: &Tree, at: usize) -> Result<Next, NoMemory>
    ensures { IfOk result (λ y. TargetsAt (laid tree.now) at (standing machine.old) (standing machine.new) y) }
{
    let Some(node) = node_at(tree, at) else {
        return Err(NoMemory);
    };
    if !is_target(node) {
        return Ok(Next::Begin(at));
    }
    match first_part(tree, at) {
        Some(inside) => {
            machine.frames.push(Frame::Target(at))?;
            Ok(Next::Spot(inside))
        }
        None => Err(NoMemory),
    }
}

// ---- what is assigned to

/// The local that is assigned to, whose name stands at a place.
fn local_spot(at: usize, local: &Local) -> Option<Next>
    ensures { result ≡ local_spot at (held_of local.now) }
{
    match local {
        Local::Scope => None,
        Local::Dead(_) => Some(threw(Cause::Name)),
        Local::Alive(_, _, _) => Some(Next::Found(Spot::Local(at))),
        Local::Given(_, _, _) => Some(Next::Found(Spot::Local(at))),
    }
}

/// The local of a name that is assigned to, if there is one.
fn local_here(
    machine: &Machine,
    tree: &Tree,
    at: usize,
    name: &Text,
) -> Result<Option<Next>, NoMemory>
    ensures { IfOk result (λ o. o ≡ local_spot at (local_in (laid tree.now) name.now (standing machine.now))) }
{
    match find(&machine.locals, tree, name)? {
        Some(local) => Ok(local_spot(at, local)),
        None => Ok(None),
    }
}

/// A name that is assigned to.
fn name_spot<V: View>(
    machine: &Machine,
    tree: &Tree,
    view: &V,
    home: Home,
    name: &Text,
    at: usize,
) -> Result<Next, NoMemory>
    ensures { IfOk result (λ y. NameSpot (record { names = V.names view.now; view = V.seen view.now }) (laid tree.now) home name.now at (standing machine.now) (standing machine.now) y) }
{
    match local_here(machine, tree, at, name)? {
        Some(next) => Ok(next),
        None => Ok(Next::Found(Spot::Named(at, view.resolve(home, name)))),
    }
}

/// Steps of which the last is assigned to.
fn steps_spot(machine: &mut Machine, tree: &Tree, at: usize) -> Result<Next, NoMemory>
    ensures { IfOk result (λ y. StepsSpot (laid tree.now) at (standing machine.old) (standing machine.new) y) }
{
    let Some(first) = first_part(tree, at) else {
        return Err(NoMemory);
    };
    let Some(node) = node_at(tree, first) else {
        return Err(NoMemory);
    };
    if machine.frames.awaits_spot() {
        steps_by(machine, is_name(node), first)
    } else {
        Err(NoMemory)
    }
}

/// What can't be assigned to.
fn no_spot(machine: &Machine, tree: &Tree, node: &Node, at: usize) -> Result<Next, NoMemory>
    ensures { IfOk result (λ y. (is_expr_node node.now ≡ true) × Turns (Next.Ended (Evaluated.Threw Cause.Kind)) (standing machine.now) (standing machine.now) y) }
{
    let _place = at;
    let _root = tree.root();
    if is_expression(node) {
        Ok(threw(Cause::Kind))
    } else {
        Err(NoMemory)
    }
}

/// Begins the expression at a place as what is assigned to.
pub(crate) fn spot<V: View>(
    machine: &mut Machine,
    tree: &Tree,
    view: &V,
    home: Home,
    at: usize,
) -> Result<Next, NoMemory>
    ensures { IfOk result (λ y. SpotAt (record { names = V.names view.now; view = V.seen view.now }) (laid tree.now) home at (standing machine.old) (standing machine.new) y) }
{
    let Some(node) = node_at(tree, at) else {
        return Err(NoMemory);
    };
    match node {
        Node::Name(name, _) => {
            if machine.left == 0 {
                return Ok(threw(Cause::Nodes));
            }
            machine.left -= 1;
            name_spot(machine, tree, view, home, name, at)
        }
        Node::Steps => {
            if machine.left == 0 {
                return Ok(threw(Cause::Nodes));
            }
            machine.left -= 1;
            steps_spot(machine, tree, at)
        }
        _ => no_spot(machine, tree, node, at),
    }
}

/// What stands in a spot.
fn spot_gives<V: View>(
    machine: &mut Machine,
    alloc: Global,
    tree: &Tree,
    view: &V,
    home: Home,
    spot: &Spot,
) -> Result<Next, NoMemory>
    ensures { IfOk result (λ y. SpotGives (record { names = V.names view.now; view = V.seen view.now }) (laid tree.now) home spot.now (standing machine.old) (standing machine.new) y) }
{
    match spot {
        Spot::Local(place) => {
            let name = name_of(tree, *place)?;
            name_value(machine, alloc, tree, view, home, To::Back, name)
        }
        Spot::Named(place, found) => {
            let name = name_of(tree, *place)?;
            found_value(machine, alloc, view, To::Back, name, *found)
        }
        Spot::Member(value, place) => {
            let name = name_of(tree, *place)?;
            member(machine, alloc, view, To::Back, value, name)
        }
        Spot::Element(value, index) => element(machine, alloc, view, To::Back, value, index),
    }
}

/// A copy of a spot.
fn copied_spot(alloc: Global, spot: &Spot) -> Result<Spot, NoMemory>
    ensures { IfOk result (λ s. s ≡ spot.now) }
{
    match spot {
        Spot::Local(place) => Ok(Spot::Local(*place)),
        Spot::Named(place, found) => Ok(Spot::Named(*place, *found)),
        Spot::Member(value, place) => {
            let value = copied(alloc, value)?;
            Ok(Spot::Member(value, *place))
        }
        Spot::Element(value, index) => {
            let value = copied(alloc, value)?;
            let index = copied(alloc, index)?;
            Ok(Spot::Element(value, index))
        }
    }
}

// ---- a spot that is found

/// A `Qt.binding` is assigned, whose call stands at this place of the text.
fn rebinds(machine: &mut Machine, spot: Spot, place: Place) -> Result<Next, NoMemory>
    ensures { IfOk result (λ y. Rebinds spot place (standing machine.old) (standing machine.new) y) }
{
    machine
        .frames
        .push(Frame::Assigned(None, Value::Undefined, spot))?;
    Ok(Next::Deed(Deed::Rebind(place)))
}

/// Begins the right side of an assignment.
fn right_begun(
    machine: &mut Machine,
    tree: &Tree,
    op: Option<Operator>,
    was: Value,
    spot: Spot,
    target: usize,
) -> Result<Next, NoMemory>
    ensures { IfOk result (λ y. RightBegins (laid tree.now) op was spot target (standing machine.old) (standing machine.new) y) }
{
    match next_part(tree, target) {
        Some(right) => {
            machine.frames.push(Frame::Assigned(op, was, spot))?;
            Ok(Next::Targets(right))
        }
        None => Err(NoMemory),
    }
}

/// Goes on behind what is assigned to without an operator.
fn plainly_found(
    machine: &mut Machine,
    tree: &Tree,
    bound: Option<Place>,
    spot: Spot,
    target: usize,
) -> Result<Next, NoMemory>
    ensures { IfOk result (λ y. PlainlyFound (laid tree.now) bound spot target (standing machine.old) (standing machine.new) y) }
{
    match bound {
        Some(place) => rebinds(machine, spot, place),
        None => right_begun(machine, tree, None, Value::Undefined, spot, target),
    }
}

/// Reads what stands in a spot, behind this frame.
fn read_spot<V: View>(
    machine: &mut Machine,
    alloc: Global,
    tree: &Tree,
    view: &V,
    home: Home,
    frame: Frame,
    spot: &Spot,
) -> Result<Next, NoMemory>
    ensures { IfOk result (λ y. SpotGives (record { names = V.names view.now; view = V.seen view.now }) (laid tree.now) home spot.now (with_frame frame (standing machine.old)) (standing machine.new) y) }
{
    machine.frames.push(frame)?;
    spot_gives(machine, alloc, tree, view, home, spot)
}

/// Goes on behind what the target at a place assigns to.
#[tactic(auto, using(crate::proofs::FoundLemmas::found_updated))]
fn target_found<V: View>(
    machine: &mut Machine,
    alloc: Global,
    tree: &Tree,
    view: &V,
    home: Home,
    spot: Spot,
    target: usize,
) -> Result<Next, NoMemory>
    ensures { IfOk result (λ y. FoundFor (record { names = V.names view.now; view = V.seen view.now }) (laid tree.now) home (Frame.Target target) spot (standing machine.old) (standing machine.new) y) }
{
    match operator_at(tree, target)? {
        None => {
            let bound = bound(tree, target)?;
            plainly_found(machine, tree, bound, spot, target)
        }
        Some(_) => {
            let copy = copied_spot(alloc, &spot)?;
            let frame = Frame::Updated(copy, target);
            let next = read_spot(machine, alloc, tree, view, home, frame, &spot)?;
            Ok(next)
        }
    }
}

/// Goes on behind what is assigned to, by the frame that awaits it.
pub(crate) fn found_for<V: View>(
    machine: &mut Machine,
    alloc: Global,
    tree: &Tree,
    view: &V,
    home: Home,
    frame: &Frame,
    spot: Spot,
) -> Result<Next, NoMemory>
    ensures { IfOk result (λ y. FoundFor (record { names = V.names view.now; view = V.seen view.now }) (laid tree.now) home frame.now spot (standing machine.old) (standing machine.new) y) }
{
    match frame {
        Frame::Target(target) => {
            let next = target_found(machine, alloc, tree, view, home, spot, *target)?;
            Ok(next)
        }
        Frame::Bump(by, gives) => {
            let copy = copied_spot(alloc, &spot)?;
            let bumped = Frame::Bumped(*by, *gives, copy);
            let next = read_spot(machine, alloc, tree, view, home, bumped, &spot)?;
            Ok(next)
        }
        _ => Err(NoMemory),
    }
}

// ---- what is put there

/// A value is put outside, in this spot, and another goes back then.
fn put_outside(
    machine: &mut Machine,
    spot: Spot,
    value: Value,
    back: Value,
) -> Result<Next, NoMemory>
    ensures { IfOk result (λ y. (standing machine.new ≡ with_frame (Frame.Assigned None back spot) (standing machine.old)) × (y ≡ Next.Deed (Deed.Write value))) }
{
    machine.frames.push(Frame::Assigned(None, back, spot))?;
    Ok(Next::Deed(Deed::Write(value)))
}

/// Puts a value where it is assigned to, and then gives another.
fn spot_written(
    machine: &mut Machine,
    tree: &Tree,
    spot: Spot,
    value: Value,
    back: Value,
) -> Result<Next, NoMemory>
    ensures { IfOk result (λ y. SpotWrites (laid tree.now) spot value back (standing machine.old) (standing machine.new) y) }
{
    match spot {
        Spot::Local(place) => {
            let name = name_of(tree, place)?;
            writes(machine, tree, name, value, Next::Back(back))
        }
        Spot::Named(place, found) => {
            put_outside(machine, Spot::Named(place, found), value, back)
        }
        Spot::Member(held, place) => {
            put_outside(machine, Spot::Member(held, place), value, back)
        }
        Spot::Element(held, index) => {
            put_outside(machine, Spot::Element(held, index), value, back)
        }
    }
}

/// Puts what was computed where it is assigned to, and gives it.
fn stored(
    machine: &mut Machine,
    alloc: Global,
    tree: &Tree,
    spot: Spot,
    ended: Ended,
) -> Result<Next, NoMemory>
    ensures { IfOk result (λ y. Stores (laid tree.now) spot ended (λ u. u) (standing machine.old) (standing machine.new) y) }
{
    match ended {
        Ended::Value(value) => {
            let back = copied(alloc, &value)?;
            spot_written(machine, tree, spot, value, back)
        }
        Ended::Threw(cause) => Ok(threw(cause)),
        Ended::Past => Ok(Next::Ended(Evaluated::Past)),
    }
}

/// The value that `++` or `--` gives.
fn chosen_by(alloc: Global, gives: Gives, was: Value, new: &Value) -> Result<Value, NoMemory>
    ensures { IfOk result (λ v. v ≡ chosen_by gives was new.now) }
{
    match gives {
        Gives::Old => Ok(was),
        Gives::New => copied(alloc, new),
    }
}

/// Puts what was computed where it is assigned to, and gives what was there or what is there now.
fn bumped(
    machine: &mut Machine,
    alloc: Global,
    tree: &Tree,
    gives: Gives,
    was: Value,
    spot: Spot,
    ended: Ended,
) -> Result<Next, NoMemory>
    ensures { IfOk result (λ y. Stores (laid tree.now) spot ended (λ u. chosen_by gives was u) (standing machine.old) (standing machine.new) y) }
{
    match ended {
        Ended::Value(value) => {
            let back = chosen_by(alloc, gives, was, &value)?;
            spot_written(machine, tree, spot, value, back)
        }
        Ended::Threw(cause) => Ok(threw(cause)),
        Ended::Past => Ok(Next::Ended(Evaluated::Past)),
    }
}

/// What an assignment puts, by its operator and what stood there.
fn updated(alloc: Global, op: Option<Operator>, was: Value, value: Value) -> Result<Ended, NoMemory>
    ensures { IfOk result (λ e. e ≡ updated_by op was value) }
{
    match op {
        None => Ok(Ended::Value(value)),
        Some(op) => operate(alloc, op, was, value),
    }
}

/// A number with another one added.
fn sum(n: i64, by: i64) -> Ended
    ensures { result ≡ bounded (n +ℤ by) }
{
    match Num::new(i128::from(n) + i128::from(by)) {
        Ok(sum) => Ended::Value(Value::Num(sum)),
        Err(_) => Ended::Past,
    }
}

/// A value with a number added by `++` or `--`.
fn added(was: &Value, by: i64) -> Ended
    ensures { result ≡ on_num (λ n. bounded (n +ℤ by)) was.now }
{
    match was {
        Value::Num(n) => sum(n.get(), by),
        _ => Ended::Threw(Cause::Kind),
    }
}

/// Whether a frame is of an assignment that awaits a value.
pub(crate) fn is_of_assignment(frame: &Frame) -> bool {
    match frame {
        Frame::At(_) | Frame::Updated(_, _) | Frame::Assigned(_, _, _) => true,
        Frame::Bumped(_, _, _) => true,
        _ => false,
    }
}

/// Goes on with the value that an assignment awaits.
pub(crate) fn assigned(
    machine: &mut Machine,
    alloc: Global,
    tree: &Tree,
    frame: Frame,
    value: Value,
) -> Result<Next, NoMemory>
    ensures { IfOk result (λ y. Assigns (laid tree.now) frame value (standing machine.old) (standing machine.new) y) }
{
    match frame {
        Frame::At(held) => Ok(Next::Found(Spot::Element(held, value))),
        Frame::Updated(spot, target) => {
            let op = operator_at(tree, target)?;
            right_begun(machine, tree, op, value, spot, target)
        }
        Frame::Assigned(op, was, spot) => {
            let ended = updated(alloc, op, was, value)?;
            stored(machine, alloc, tree, spot, ended)
        }
        Frame::Bumped(by, gives, spot) => {
            let ended = added(&value, by);
            bumped(machine, alloc, tree, gives, value, spot, ended)
        }
        _ => Err(NoMemory),
    }
}
