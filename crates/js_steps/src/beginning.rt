//! What is begun.

ghost use Rattle.std.specs.Prelude.{◌≡◌, pos, IfOk};
ghost use Rattle.qml_syntax.specs.Opened.{node_of, parts_of};
ghost use Rattle.js_meaning.specs.Operate.{bounded, weighed};
ghost use Rattle.js_meaning.specs.Looking.{added_by, added_by_prefix, literal_value};
ghost use Rattle.js_locals.specs.Laid.{laid, is_name};
ghost use Rattle.js_frames.specs.Standing.{standing};
ghost use Rattle.js_frames.specs.Moves.{Turns, next_of, typed_found, BeginsChain, BeginsSigned, BeginsSteps, BeginsChoice, BeginsMembers, BeginsList, Begins, BeginsCounted, NameTyped, TypedName, Bumps, BeginsPostfix, BeginsAssign, OperandSigned, OperandBegins, Signs};

use crate::fields::fields_begun;
use crate::finishing::all_from;
use evaluation::{Args, Evaluated, View};
use js_frames::{Before, Frame, Gives, Machine, Next, Purpose, To};
use js_locals::{first_part, next_part, node_at};
use js_looking::{arrive, found_value, local_value, name_value, next_of, pushed, threw};
use js_operators::weighed;
use qml_base::{Cause, Found, Home};
use qml_syntax::{Literal, Node, Postfix, Prefix, Tree};
use qml_text::{NoMemory, Text};
use qml_value::{Num, Value};
use std::alloc::Global;

/// A number as it is written.
fn number(n: u64) -> Next
    ensures { result ≡ next_of (bounded (pos n)) }
{
    match Num::new(i128::from(n)) {
        Ok(n) => Next::Back(Value::Num(n)),
        Err(_) => Next::Ended(Evaluated::Past),
    }
}

/// A text as it is written.
fn text(alloc: Global, units: &Text) -> Result<Next, NoMemory>
    ensures { IfOk result (λ y. y ≡ next_of (weighed (Value.Text units.now))) }
{
    let copy = units.copy(alloc)?;
    Ok(next_of(weighed(Value::Text(copy))))
}

/// `true`, `false` or `null`.
fn literal(literal: Literal) -> Value
    ensures { result ≡ literal_value literal }
{
    match literal {
        Literal::True => Value::Bool(true),
        Literal::False => Value::Bool(false),
        Literal::Null => Value::Null,
    }
}

/// Begins the first operand of a chain.
fn chain(machine: &mut Machine, tree: &Tree, at: usize) -> Result<Next, NoMemory>
    ensures { IfOk result (λ y. BeginsChain (laid tree.now) None at (standing machine.old) (standing machine.new) y) }
{
    match first_part(tree, at) {
        Some(first) => pushed(machine, Frame::Chain(None, at, first), first),
        None => Err(NoMemory),
    }
}

/// Begins prefixes.
fn signed(machine: &Machine, tree: &Tree, op: Prefix, at: usize) -> Result<Next, NoMemory>
    ensures { IfOk result (λ y. BeginsSigned (laid tree.now) op at (standing machine.now) (standing machine.now) y) }
{
    match first_part(tree, at) {
        Some(first) => Ok(Next::Signs(op, first)),
        None => Err(NoMemory),
    }
}

/// What `++` or `--` adds.
fn added_by(op: Postfix) -> i64
    ensures { result ≡ added_by op }
{
    match op {
        Postfix::Increment => 1,
        Postfix::Decrement => -1,
    }
}

/// What a prefix adds, if it is `++` or `--`.
fn added_by_prefix(op: Prefix) -> Option<i64>
    ensures { result ≡ added_by_prefix op }
{
    match op {
        Prefix::Increment => Some(1),
        Prefix::Decrement => Some(-1),
        _ => None,
    }
}

/// Begins what is assigned to, with a number that is added to it.
fn bumped(machine: &mut Machine, by: i64, gives: Gives, at: usize) -> Result<Next, NoMemory>
    ensures { IfOk result (λ y. Bumps by gives at (standing machine.old) (standing machine.new) y) }
{
    machine.frames.push(Frame::Bump(by, gives))?;
    Ok(Next::Spot(at))
}

/// Begins what stands before `++` or `--`.
fn postfix(machine: &mut Machine, tree: &Tree, op: Postfix, at: usize) -> Result<Next, NoMemory>
    ensures { IfOk result (λ y. BeginsPostfix (laid tree.now) op at (standing machine.old) (standing machine.new) y) }
{
    match first_part(tree, at) {
        Some(first) => bumped(machine, added_by(op), Gives::Old, first),
        None => Err(NoMemory),
    }
}

/// Begins an assignment.
fn assignment(machine: &Machine, tree: &Tree, at: usize) -> Result<Next, NoMemory>
    ensures { IfOk result (λ y. BeginsAssign (laid tree.now) at (standing machine.now) (standing machine.now) y) }
{
    match first_part(tree, at) {
        Some(first) => Ok(Next::Targets(first)),
        None => Err(NoMemory),
    }
}

/// Whether it is a name.
pub fn is_name(node: &Node) -> bool
    ensures { result ≡ is_name node.now }
{
    match node {
        Node::Name(_, _) => true,
        _ => false,
    }
}

/// Begins what stands before steps; a name is looked up where the step behind it is known.
pub fn steps_by(machine: &mut Machine, name: bool, first: usize) -> Result<Next, NoMemory>
    ensures { IfOk result (λ y. BeginsSteps name first (standing machine.old) (standing machine.new) y) }
{
    if !name {
        return pushed(machine, Frame::First(first), first);
    }
    if machine.left == 0 {
        return Ok(threw(Cause::Nodes));
    }
    machine.left -= 1;
    Ok(Next::Step(Before::Name(first), first))
}

/// The condition of a choice.
fn choice(machine: &mut Machine, tree: &Tree, at: usize) -> Result<Next, NoMemory>
    ensures { IfOk result (λ y. BeginsChoice (laid tree.now) at (standing machine.old) (standing machine.new) y) }
{
    let Some(first) = first_part(tree, at) else {
        return Err(NoMemory);
    };
    match first_part(tree, first) {
        Some(test) => pushed(machine, Frame::Choose(first, test), test),
        None => Err(NoMemory),
    }
}

/// Begins steps.
fn steps(machine: &mut Machine, tree: &Tree, at: usize) -> Result<Next, NoMemory>
    ensures { IfOk result (λ y. BeginsMembers (laid tree.now) at (standing machine.old) (standing machine.new) y) }
{
    let Some(first) = first_part(tree, at) else {
        return Err(NoMemory);
    };
    let Some(node) = node_at(tree, first) else {
        return Err(NoMemory);
    };
    if machine.frames.awaits_spot() {
        Err(NoMemory)
    } else {
        steps_by(machine, is_name(node), first)
    }
}

/// Begins a list.
fn list_begun<V: View>(
    machine: &mut Machine,
    alloc: Global,
    tree: &Tree,
    view: &V,
    at: usize,
) -> Result<Next, NoMemory>
    ensures { IfOk result (λ y. BeginsList (record { names = V.names view.now; view = V.seen view.now }) (laid tree.now) at (standing machine.old) (standing machine.new) y) }
{
    let Some(mark) = first_part(tree, at) else {
        return Err(NoMemory);
    };
    let values = Args::of_vec(Vec::new(alloc));
    let next = all_from(machine, alloc, tree, view, Purpose::List, values, mark)?;
    Ok(next)
}

/// Begins a node that is counted already.
pub fn entered<V: View>(
    machine: &mut Machine,
    alloc: Global,
    tree: &Tree,
    view: &V,
    home: Home,
    node: &Node,
    at: usize,
) -> Result<Next, NoMemory>
    ensures { IfOk result (λ y. Begins (record { names = V.names view.now; view = V.seen view.now }) (laid tree.now) home node.now at (standing machine.old) (standing machine.new) y) }
{
    match node {
        Node::Name(name, _) => name_value(machine, alloc, tree, view, home, To::Back, name),
        Node::Number(n, _) => Ok(number(*n)),
        Node::Text(units, _) => text(alloc, units),
        Node::Literal(value, _) => Ok(Next::Back(literal(*value))),
        Node::Paren(_) => match first_part(tree, at) {
            Some(first) => Ok(Next::Begin(first)),
            None => Err(NoMemory),
        },
        Node::List(_, _) => list_begun(machine, alloc, tree, view, at),
        Node::Fields(_, _) => fields_begun(machine, alloc, tree, at),
        Node::Chain(_, _, _) => chain(machine, tree, at),
        Node::Choose => choice(machine, tree, at),
        Node::Signed(_, op, _) => signed(machine, tree, *op, at),
        Node::Steps => steps(machine, tree, at),
        Node::Postfix(op, _) => postfix(machine, tree, *op, at),
        Node::Assign => assignment(machine, tree, at),
        _ => Err(NoMemory),
    }
}

/// Begins the node at a place, of those that may still be begun.
pub fn begun<V: View>(
    machine: &mut Machine,
    alloc: Global,
    tree: &Tree,
    view: &V,
    home: Home,
    at: usize,
) -> Result<Next, NoMemory>
    ensures { IfOk result (λ y. BeginsCounted (record { names = V.names view.now; view = V.seen view.now }) (laid tree.now) home at (standing machine.old) (standing machine.new) y) }
{
    if machine.left == 0 {
        return Ok(threw(Cause::Nodes));
    }
    let Some(node) = node_at(tree, at) else {
        return Err(NoMemory);
    };
    machine.left -= 1;
    entered(machine, alloc, tree, view, home, node, at)
}

/// What a name directly behind `typeof` gives.
fn typed_value<V: View>(
    machine: &mut Machine,
    alloc: Global,
    view: &V,
    name: &Text,
    found: Found,
) -> Result<Next, NoMemory>
    ensures { IfOk result (λ y. typed_found To.Back name.now found (record { names = V.names view.now; view = V.seen view.now }) (standing machine.old) (standing machine.new) y) }
{
    match found {
        Found::Nothing => Ok(arrive(To::Back, Value::Undefined)),
        Found::Cell(_)
        | Found::Object(_)
        | Found::Component(_)
        | Found::Body(_, _)
        | Found::Signal(_, _)
        | Found::Method(_, _)
        | Found::Script(_)
        | Found::Global => found_value(machine, alloc, view, To::Back, name, found),
    }
}

/// What a name directly behind `typeof` gives, a local first.
fn name_typed<V: View>(
    machine: &mut Machine,
    alloc: Global,
    tree: &Tree,
    view: &V,
    home: Home,
    name: &Text,
) -> Result<Next, NoMemory>
    ensures { IfOk result (λ y. NameTyped (record { names = V.names view.now; view = V.seen view.now }) (laid tree.now) home name.now (standing machine.old) (standing machine.new) y) }
{
    match local_value(&machine.locals, alloc, tree, To::Back, name)? {
        Some(next) => Ok(next),
        None => {
            let found = view.resolve(home, name);
            typed_value(machine, alloc, view, name, found)
        }
    }
}

/// A name directly behind `typeof`.
fn typed_name<V: View>(
    machine: &mut Machine,
    alloc: Global,
    tree: &Tree,
    view: &V,
    home: Home,
    name: &Text,
) -> Result<Next, NoMemory>
    ensures { IfOk result (λ y. TypedName (record { names = V.names view.now; view = V.seen view.now }) (laid tree.now) home name.now (standing machine.old) (standing machine.new) y) }
{
    if machine.left == 0 {
        return Ok(threw(Cause::Nodes));
    }
    machine.left -= 1;
    machine.frames.push(Frame::Sign(Prefix::TypeOf))?;
    name_typed(machine, alloc, tree, view, home, name)
}

/// Begins the operand of prefixes.
fn operand_signed<V: View>(
    machine: &mut Machine,
    alloc: Global,
    tree: &Tree,
    view: &V,
    home: Home,
    op: Prefix,
    node: &Node,
    at: usize,
) -> Result<Next, NoMemory>
    ensures { IfOk result (λ y. OperandSigned (record { names = V.names view.now; view = V.seen view.now }) (laid tree.now) home op node.now at (standing machine.old) (standing machine.new) y) }
{
    match (op, node) {
        (Prefix::TypeOf, Node::Name(name, _)) => typed_name(machine, alloc, tree, view, home, name),
        _ => pushed(machine, Frame::Sign(op), at),
    }
}

/// Begins the operand of prefixes, of which the last may be `++` or `--`.
fn operand_begun<V: View>(
    machine: &mut Machine,
    alloc: Global,
    tree: &Tree,
    view: &V,
    home: Home,
    op: Prefix,
    node: &Node,
    at: usize,
) -> Result<Next, NoMemory>
    ensures { IfOk result (λ y. OperandBegins (record { names = V.names view.now; view = V.seen view.now }) (laid tree.now) home (added_by_prefix op) op node.now at (standing machine.old) (standing machine.new) y) }
{
    match added_by_prefix(op) {
        Some(by) => bumped(machine, by, Gives::New, at),
        None => operand_signed(machine, alloc, tree, view, home, op, node, at),
    }
}

/// Goes on with the prefixes from a place on.
pub fn signs<V: View>(
    machine: &mut Machine,
    alloc: Global,
    tree: &Tree,
    view: &V,
    home: Home,
    op: Prefix,
    at: usize,
) -> Result<Next, NoMemory>
    ensures { IfOk result (λ y. Signs (record { names = V.names view.now; view = V.seen view.now }) (laid tree.now) home op (node_of ((laid tree.now).item at)) at (standing machine.old) (standing machine.new) y) }
{
    let Some(node) = node_at(tree, at) else {
        return Err(NoMemory);
    };
    match node {
        Node::Sign(_, sign, _) => match next_part(tree, at) {
            Some(next) => {
                machine.frames.push(Frame::Sign(*sign))?;
                Ok(Next::Signs(op, next))
            }
            None => Err(NoMemory),
        },
        _ => operand_begun(machine, alloc, tree, view, home, op, node, at),
    }
}
