//! Values in a row: the elements of a list, and the arguments of a call.

ghost use Rattle.std.specs.Prelude.{◌≡◌, ◌∷◌, [], IfOk};
ghost use Rattle.qml_syntax.specs.Opened.{node_of, parts_of};
ghost use Rattle.js_meaning.specs.Rows.{at_place};
ghost use Rattle.js_meaning.specs.Eval.{rounding_by, rounding_of};
ghost use Rattle.js_locals.specs.Laid.{laid, is_chain, name_of};
ghost use Rattle.js_frames.specs.Standing.{standing};
ghost use Rattle.js_frames.specs.Meant.{callee_of};
ghost use Rattle.js_frames.specs.Moves.{Turns, arrive_part, PartGives, Finishes, AllFrom, RoundedFirst, FirstBy, Args as ArgsMove};

use evaluation::{Args, Evaluated, Seen, View};
use js_frames::{Callee, Deed, Frame, Machine, Next, Purpose, To};
use js_locals::{first_part, name_of, next_part, node_at};
use js_looking::{arrive, arrive_ended, next_of, pushed, threw};
use js_meaning::Rounding;
use js_methods::{first_of, math, method, named, part_of, text_from};
use js_operators::weighed_list;
use qml_base::{Cause, CellNo};
use qml_syntax::{Node, Tree};
use qml_text::{NoMemory, Text};
use qml_value::Value;
use std::alloc::Global;

/// What a method gives that reads a hidden cell, by a number.
fn part_by<V: View>(
    machine: &mut Machine,
    alloc: Global,
    view: &V,
    to: To,
    name: &Text,
    cell: CellNo,
    z: i64,
) -> Result<Next, NoMemory>
    ensures { IfOk result (λ y. PartGives (record { names = V.names view.now; view = V.seen view.now }) to name.now cell (Value.Num z) (standing machine.old) (standing machine.new) y) }
{
    machine.reads.push(cell)?;
    match view.read(cell) {
        Seen::Is(held) => {
            let part = part_of(alloc, name, held, z)?;
            Ok(arrive(to, part))
        }
        Seen::Loop => Ok(Next::Ended(Evaluated::Loop)),
        Seen::Past => Ok(Next::Ended(Evaluated::Past)),
        Seen::Need => Ok(Next::Ended(Evaluated::Need(cell))),
    }
}

/// What a method gives that reads a hidden cell.
fn part_given<V: View>(
    machine: &mut Machine,
    alloc: Global,
    view: &V,
    to: To,
    name: &Text,
    cell: CellNo,
    place: &Value,
) -> Result<Next, NoMemory>
    ensures { IfOk result (λ y. PartGives (record { names = V.names view.now; view = V.seen view.now }) to name.now cell place.now (standing machine.old) (standing machine.new) y) }
{
    match place {
        Value::Num(z) => part_by(machine, alloc, view, to, name, cell, z.get()),
        _ => Ok(threw(Cause::Kind)),
    }
}

/// Calls a method that reads a hidden cell, with the place of its name and these arguments.
pub fn hidden_read<V: View>(
    machine: &mut Machine,
    alloc: Global,
    tree: &Tree,
    view: &V,
    cell: CellNo,
    name: usize,
    arguments: Args,
    at: usize,
) -> Result<Next, NoMemory>
    ensures { IfOk result (λ y. PartGives (record { names = V.names view.now; view = V.seen view.now }) (To.Step at) (name_of (laid tree.now) name) cell (at_place arguments 0) (standing machine.old) (standing machine.new) y) }
{
    let name = name_of(tree, name)?;
    let absent = Value::Undefined;
    let first = first_of(arguments.values(), &absent);
    let next = part_given(machine, alloc, view, To::Step(at), name, cell, first)?;
    machine.frames.keep_arguments(arguments);
    Ok(next)
}

/// Calls a function of values with all arguments, or what can't be called.
fn called<V: View>(
    machine: &mut Machine,
    alloc: Global,
    tree: &Tree,
    view: &V,
    callee: Callee,
    at: usize,
    arguments: &[Value],
) -> Result<Next, NoMemory>
    ensures { IfOk result (λ y. Finishes (record { names = V.names view.now; view = V.seen view.now }) (laid tree.now) (Purpose.Call callee at) arguments.now (standing machine.old) (standing machine.new) y) }
{
    match callee {
        Callee::Body(_, _) | Callee::Signal(_, _) | Callee::Reading(_, _, _) => Err(NoMemory),
        Callee::Doing(_, _) | Callee::Log => Err(NoMemory),
        Callee::Nothing => Ok(threw(Cause::Call)),
        Callee::Binding => Ok(threw(Cause::Kind)),
        Callee::Method(value, place) => {
            let name = name_of(tree, place)?;
            let ended = method(alloc, &value, name, arguments)?;
            Ok(arrive_ended(To::Step(at), ended))
        }
        Callee::Math(place) => {
            let name = name_of(tree, place)?;
            Ok(arrive_ended(To::Step(at), math(name, arguments)))
        }
        Callee::Text => {
            let ended = text_from(alloc, arguments)?;
            Ok(arrive_ended(To::Step(at), ended))
        }
    }
}

/// Calls what is called with all arguments.
fn call_finished<V: View>(
    machine: &mut Machine,
    alloc: Global,
    tree: &Tree,
    view: &V,
    callee: Callee,
    at: usize,
    arguments: Args,
) -> Result<Next, NoMemory>
    ensures { IfOk result (λ y. Finishes (record { names = V.names view.now; view = V.seen view.now }) (laid tree.now) (Purpose.Call callee at) arguments (standing machine.old) (standing machine.new) y) }
{
    match callee {
        Callee::Body(body, object) => Ok(Next::Enter(body, object, arguments, at)),
        Callee::Signal(object, signal) => {
            Ok(Next::Deed(Deed::Emit(object, signal, arguments, at)))
        }
        Callee::Reading(object, cell, name) => {
            Ok(Next::Deed(Deed::Read(object, cell, name, arguments, at)))
        }
        Callee::Doing(object, name) => Ok(Next::Deed(Deed::Do(object, name, arguments, at))),
        Callee::Log => Ok(Next::Deed(Deed::Log(arguments, at))),
        other => {
            let next = called(machine, alloc, tree, view, other, at, arguments.values())?;
            machine.frames.keep_arguments(arguments);
            Ok(next)
        }
    }
}

/// Goes on behind the last value of a row.
fn finished<V: View>(
    machine: &mut Machine,
    alloc: Global,
    tree: &Tree,
    view: &V,
    purpose: Purpose,
    values: Args,
) -> Result<Next, NoMemory>
    ensures { IfOk result (λ y. Finishes (record { names = V.names view.now; view = V.seen view.now }) (laid tree.now) purpose values (standing machine.old) (standing machine.new) y) }
{
    match purpose {
        Purpose::List => Ok(next_of(weighed_list(values.into_values()))),
        Purpose::Call(callee, at) => {
            call_finished(machine, alloc, tree, view, callee, at, values)
        }
    }
}

/// Begins the next part of a row, or goes on behind the last.
pub fn all_from<V: View>(
    machine: &mut Machine,
    alloc: Global,
    tree: &Tree,
    view: &V,
    purpose: Purpose,
    values: Args,
    part: usize,
) -> Result<Next, NoMemory>
    ensures { IfOk result (λ y. AllFrom (record { names = V.names view.now; view = V.seen view.now }) (laid tree.now) purpose values part (standing machine.old) (standing machine.new) y) }
{
    match next_part(tree, part) {
        None => finished(machine, alloc, tree, view, purpose, values),
        Some(next) => pushed(machine, Frame::All(purpose, values, next), next),
    }
}

/// How the first argument of a function of `Math` is rounded.
fn rounding_by(name: &Text) -> Option<Rounding>
    ensures { result ≡ rounding_by name.now }
{
    if named(name, b"floor") {
        Some(Rounding::Down)
    } else if named(name, b"ceil") {
        Some(Rounding::Up)
    } else if named(name, b"trunc") {
        Some(Rounding::TowardsZero)
    } else {
        None
    }
}

/// How the first argument is rounded.
fn rounding_of(tree: &Tree, callee: &Callee) -> Result<Option<Rounding>, NoMemory>
    ensures { IfOk result (λ how. how ≡ rounding_of (callee_of (laid tree.now) callee.now)) }
{
    match callee {
        Callee::Math(place) => {
            let name = name_of(tree, *place)?;
            Ok(rounding_by(name))
        }
        _ => Ok(None),
    }
}

/// Begins a first argument that is a chain and rounded directly.
fn rounded_first(
    machine: &mut Machine,
    alloc: Global,
    tree: &Tree,
    how: Rounding,
    callee: Callee,
    at: usize,
    part: usize,
) -> Result<Next, NoMemory>
    ensures { IfOk result (λ y. RoundedFirst (laid tree.now) how callee at part (standing machine.old) (standing machine.new) y) }
{
    if machine.left == 0 {
        return Ok(threw(Cause::Nodes));
    }
    let Some(inside) = first_part(tree, part) else {
        return Err(NoMemory);
    };
    machine.left -= 1;
    let values = machine.frames.take_arguments(alloc);
    machine
        .frames
        .push(Frame::All(Purpose::Call(callee, at), values, part))?;
    pushed(machine, Frame::Chain(Some(how), part, inside), inside)
}

/// Whether it is the node of a chain.
fn is_chain(node: &Node) -> bool
    ensures { result ≡ is_chain node.now }
{
    match node {
        Node::Chain(_, _, _) => true,
        _ => false,
    }
}

/// Begins the first argument of a call.
fn first_argument(
    machine: &mut Machine,
    alloc: Global,
    tree: &Tree,
    how: Option<Rounding>,
    chain: bool,
    callee: Callee,
    at: usize,
    part: usize,
) -> Result<Next, NoMemory>
    ensures { IfOk result (λ y. FirstBy (laid tree.now) how chain callee at part (standing machine.old) (standing machine.new) y) }
{
    match how {
        Some(rounding) => {
            if chain {
                rounded_first(machine, alloc, tree, rounding, callee, at, part)
            } else {
                let values = machine.frames.take_arguments(alloc);
                pushed(
                    machine,
                    Frame::All(Purpose::Call(callee, at), values, part),
                    part,
                )
            }
        }
        None => {
            let values = machine.frames.take_arguments(alloc);
            pushed(
                machine,
                Frame::All(Purpose::Call(callee, at), values, part),
                part,
            )
        }
    }
}

/// Begins the arguments of the call at a place.
pub fn arguments<V: View>(
    machine: &mut Machine,
    alloc: Global,
    tree: &Tree,
    view: &V,
    callee: Callee,
    at: usize,
) -> Result<Next, NoMemory>
    ensures { IfOk result (λ y. ArgsMove (record { names = V.names view.now; view = V.seen view.now }) (laid tree.now) callee at (standing machine.old) (standing machine.new) y) }
{
    let how = rounding_of(tree, &callee)?;
    let Some(mark) = first_part(tree, at) else {
        return Err(NoMemory);
    };
    match next_part(tree, mark) {
        None => {
            let none = machine.frames.take_arguments(alloc);
            call_finished(machine, alloc, tree, view, callee, at, none)
        }
        Some(part) => {
            let Some(node) = node_at(tree, part) else {
                return Err(NoMemory);
            };
            first_argument(machine, alloc, tree, how, is_chain(node), callee, at, part)
        }
    }
}
