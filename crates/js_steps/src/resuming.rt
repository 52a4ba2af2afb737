//! What goes on behind a value.

ghost use Rattle.std.specs.Prelude.{◌≡◌, [], ◌∷◌, ◌++◌, IfOk};
ghost use Rattle.qml_syntax.specs.Opened.{node_of};
ghost use Rattle.js_meaning.specs.Operate.{counts};
ghost use Rattle.js_meaning.specs.Looking.{decides};
ghost use Rattle.js_meaning.specs.Eval.{if_no_link, operate_by};
ghost use Rattle.js_locals.specs.Laid.{laid, op_of, is_choice, links_in, link_op, IsOperand};
ghost use Rattle.js_frames.specs.Standing.{standing};
ghost use Rattle.js_frames.specs.Moves.{LinkOn, ChainOn, OtherChoice, ChooseOn, AllFrom, RightOn, Resumes};

use crate::fields::field_on;
use crate::finishing::all_from;
use evaluation::{Args, Ended, View};
use js_frames::{Before, Frame, Machine, Next, Purpose, To};
use js_locals::{first_part, next_part, node_at};
use js_looking::{element, next_of, pushed};
use js_meaning::Rounding;
use js_operators::{decided, operate, operate_prefix, operate_rounded, truth};
use qml_syntax::{Node, Operator, Tree};
use qml_text::NoMemory;
use qml_value::Value;
use std::alloc::Global;

/// The operator of a chain's node.
fn operator_of(node: &Node) -> Operator
    ensures { result ≡ op_of node.now }
{
    match node {
        Node::Chain(_, op, _) => *op,
        _ => Operator::Plus,
    }
}

/// The operator of a part of a chain that is not the last.
fn link_operator(node: &Node) -> Option<Operator>
    ensures { result ≡ link_op node.now }
{
    match node {
        Node::Link(_, op, _) => Some(*op),
        _ => None,
    }
}

/// The operator of a chain's own node.
fn own_operator(tree: &Tree, at: usize) -> Result<Operator, NoMemory>
    ensures { IfOk result (λ o. o ≡ op_of (node_of ((laid tree.now).item at))) }
{
    match node_at(tree, at) {
        Some(node) => Ok(operator_of(node)),
        None => Err(NoMemory),
    }
}

/// Of the part at a place in a chain: the operator before it, and where its operand stands.
#[tactic(auto, using(js_locals::proofs::LaidLemmas::link_operand, js_locals::proofs::LaidLemmas::own_operand))]
pub fn operand(tree: &Tree, at: usize, part: usize) -> Result<(Operator, usize), NoMemory>
    ensures { IfOk result (λ o. IsOperand (laid tree.now) at part o.0 o.1) }
{
    let Some(node) = node_at(tree, part) else {
        return Err(NoMemory);
    };
    match link_operator(node) {
        Some(op) => {
            let Some(inside) = first_part(tree, part) else {
                return Err(NoMemory);
            };
            Ok((op, inside))
        }
        None => {
            let op = own_operator(tree, at)?;
            Ok((op, part))
        }
    }
}

/// Goes on with an operator of a chain behind a value.
pub fn link_on(
    machine: &mut Machine,
    how: Option<Rounding>,
    at: usize,
    part: usize,
    op: Operator,
    inside: usize,
    value: Value,
) -> Result<Next, NoMemory>
    ensures { IfOk result (λ y. LinkOn how at part op inside value (decides op value) (standing machine.old) (standing machine.new) y) }
{
    if decided(op, &value) {
        machine.frames.push(Frame::Chain(how, at, part))?;
        Ok(Next::Back(value))
    } else {
        pushed(machine, Frame::Right(how, op, value, at, part), inside)
    }
}

/// Goes on in a chain behind a part whose value has been found.
fn chain_on(
    machine: &mut Machine,
    tree: &Tree,
    how: Option<Rounding>,
    at: usize,
    part: usize,
    value: Value,
) -> Result<Next, NoMemory>
    ensures { IfOk result (λ y. ChainOn (laid tree.now) how at part value (standing machine.old) (standing machine.new) y) }
{
    match next_part(tree, part) {
        None => Ok(Next::Back(value)),
        Some(next) => {
            let (op, inside) = operand(tree, at, next)?;
            link_on(machine, how, at, next, op, inside, value)
        }
    }
}

/// How the quotient of an operator is rounded: only where it is the last of its chain.
fn rounding_here(tree: &Tree, how: Option<Rounding>, at: usize, part: usize) -> Option<Rounding>
    ensures { result ≡ if_no_link (links_in (node_of ((laid tree.now).item at)) ((laid tree.now).rest part)) how }
{
    match how {
        None => None,
        Some(rounding) => match next_part(tree, part) {
            None => Some(rounding),
            Some(_) => None,
        },
    }
}

/// An operator between two values, rounded or not.
pub fn operated(
    alloc: Global,
    how: Option<Rounding>,
    op: Operator,
    left: Value,
    right: Value,
) -> Result<Ended, NoMemory>
    ensures { IfOk result (λ e. e ≡ operate_by how op left right) }
{
    match how {
        None => operate(alloc, op, left, right),
        Some(rounding) => operate_rounded(alloc, rounding, op, left, right),
    }
}

/// Goes on with an operator's right operand.
pub fn right_on(
    machine: &mut Machine,
    alloc: Global,
    tree: &Tree,
    how: Option<Rounding>,
    op: Operator,
    left: Value,
    at: usize,
    part: usize,
    value: Value,
) -> Result<Next, NoMemory>
    ensures { IfOk result (λ y. RightOn (laid tree.now) how op left at part value (standing machine.old) (standing machine.new) y) }
{
    let here = rounding_here(tree, how, at, part);
    let ended = operated(alloc, here, op, left, value)?;
    machine.frames.push(Frame::Chain(how, at, part))?;
    Ok(next_of(ended))
}

/// Whether it is the node of a condition with its middle.
fn is_choice(node: &Node) -> bool
    ensures { result ≡ is_choice node.now }
{
    match node {
        Node::Choice(_) => true,
        _ => false,
    }
}

/// Begins what stands behind a choice: another one, or the last part.
fn other_choice(machine: &mut Machine, tree: &Tree, at: usize) -> Result<Next, NoMemory>
    ensures { IfOk result (λ y. OtherChoice (laid tree.now) (is_choice (node_of ((laid tree.now).item at))) at (standing machine.old) (standing machine.new) y) }
{
    let Some(node) = node_at(tree, at) else {
        return Err(NoMemory);
    };
    if !is_choice(node) {
        return Ok(Next::Begin(at));
    }
    match first_part(tree, at) {
        Some(test) => pushed(machine, Frame::Choose(at, test), test),
        None => Err(NoMemory),
    }
}

/// Goes on behind a condition.
pub fn choose_on(
    machine: &mut Machine,
    tree: &Tree,
    choice: usize,
    test: usize,
    holds: bool,
) -> Result<Next, NoMemory>
    ensures { IfOk result (λ y. ChooseOn (laid tree.now) choice test holds (standing machine.old) (standing machine.new) y) }
{
    if holds {
        match next_part(tree, test) {
            Some(middle) => Ok(Next::Begin(middle)),
            None => Err(NoMemory),
        }
    } else {
        match next_part(tree, choice) {
            Some(behind) => other_choice(machine, tree, behind),
            None => Err(NoMemory),
        }
    }
}

/// One more value of a row.
fn joined(args: Args, value: Value) -> Result<Args, NoMemory>
    ensures { IfOk result (λ vs. vs ≡ args ++ value ∷ []) }
{
    let mut values = args.into_values();
    values.push(value)?;
    Ok(Args::of_vec(values))
}

/// Goes on in a row behind a value.
fn row_on<V: View>(
    machine: &mut Machine,
    alloc: Global,
    tree: &Tree,
    view: &V,
    purpose: Purpose,
    values: Args,
    part: usize,
    value: Value,
) -> Result<Next, NoMemory>
    ensures { IfOk result (λ y. AllFrom (record { names = V.names view.now; view = V.seen view.now }) (laid tree.now) purpose (values ++ value ∷ []) part (standing machine.old) (standing machine.new) y) }
{
    let values = joined(values, value)?;
    all_from(machine, alloc, tree, view, purpose, values, part)
}

/// Goes on with the value that a frame awaits.
pub fn resumed<V: View>(
    machine: &mut Machine,
    alloc: Global,
    tree: &Tree,
    view: &V,
    frame: Frame,
    value: Value,
) -> Result<Next, NoMemory>
    ensures { IfOk result (λ y. Resumes (record { names = V.names view.now; view = V.seen view.now }) (laid tree.now) frame value (standing machine.old) (standing machine.new) y) }
{
    match frame {
        Frame::Chain(how, at, part) => chain_on(machine, tree, how, at, part, value),
        Frame::Right(how, op, left, at, part) => {
            right_on(machine, alloc, tree, how, op, left, at, part, value)
        }
        Frame::Choose(choice, test) => choose_on(machine, tree, choice, test, truth(&value)),
        Frame::Sign(op) => {
            let ended = operate_prefix(alloc, op, &value)?;
            Ok(next_of(ended))
        }
        Frame::First(part) => Ok(Next::Step(Before::Value(value), part)),
        Frame::Index(held, part) => { element(machine, alloc, view, To::Step(part), &held, &value) }
        Frame::All(purpose, values, part) => {
            row_on(machine, alloc, tree, view, purpose, values, part, value)
        }
        Frame::Field(entries, key, part) => {
            field_on(machine, alloc, tree, entries, key, part, value)
        }
        _ => Err(NoMemory),
    }
}
