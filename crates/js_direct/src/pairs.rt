//! Chains of which two operands show numbers.

ghost use Rattle.std.specs.Prelude.{◌≡◌, ◌<◌, true, IfOk, IfSome};
ghost use Rattle.qml_syntax.specs.Opened.{node_of};
ghost use Rattle.js_locals.specs.Laid.{laid, is_chain};
ghost use Rattle.js_frames.specs.Standing.{standing, without_node};
ghost use Rattle.js_frames.specs.declared.frames.Next.TheVariants as upcoming;
ghost use Rattle.js_progress.specs.Moving.{MovesAt};
ghost use Rattle.js_direct.specs.Showing.{ChainShows, Joins, passed};

use crate::shown::{Combined, operands_combined};
use evaluation::View;
use js_frames::{Frame, Machine, Next};
use js_locals::{Locals, first_part, next_part, node_at};
use js_steps::{begun, operand};
use qml_base::{CellNo, Home};
use qml_syntax::{Node, Tree};
use qml_text::NoMemory;
use qml_value::Value;
use std::alloc::Global;

/// Whether it is the node of a chain.
#[inline(always)]
pub(crate) fn is_chain(node: &Node) -> bool
    ensures { result ≡ is_chain node.now }
{
    match node {
        Node::Chain(_, _, _) => true,
        _ => false,
    }
}

/// Counts an operand that was begun, and notes the cell that was read.
#[inline(always)]
pub(crate) fn pass(machine: &mut Machine, cell: Option<CellNo>) -> Result<(), NoMemory>
    requires { 0 < machine.now.left }
    ensures { IfOk result (λ _. standing machine.new ≡ passed cell (standing machine.old)) }
{
    machine.left -= 1;
    match cell {
        None => Ok(()),
        Some(cell) => {
            machine.reads.push(cell)?;
            Ok(())
        }
    }
}

/// Goes on behind an operator of a chain with its value.
#[inline(always)]
fn joined(
    machine: &mut Machine,
    tree: &Tree,
    at: usize,
    part: usize,
    value: Value,
) -> Result<Next, NoMemory>
    ensures { IfOk result (λ y. Joins (laid tree.now) at part value (standing machine.old) (standing machine.new) y) }
{
    match next_part(tree, part) {
        None => Ok(Next::Back(value)),
        Some(_) => {
            machine.frames.push(Frame::Chain(None, at, part))?;
            Ok(Next::Back(value))
        }
    }
}

/// Goes on in a chain that is begun, behind its first two operands and the operator between them.
#[inline(always)]
fn paired(
    machine: &mut Machine,
    tree: &Tree,
    at: usize,
    part: usize,
    it: Combined,
) -> Result<Next, NoMemory>
    requires { 2 < machine.now.left }
    ensures { IfOk result (λ y. Joins (laid tree.now) at part it.value (passed it.second (passed it.first (without_node (standing machine.old)))) (standing machine.new) y) }
{
    machine.left -= 1;
    pass(machine, it.first)?;
    pass(machine, it.second)?;
    joined(machine, tree, at, part, it.value)
}

/// The second part of a chain, and the value of the first two operands with the cells that are read.
#[derive(Drop)]
pub(crate) struct Pair {
    pub(crate) part: usize,
    pub(crate) it: Combined,
}

/// The second part of a chain, and the value of the first two operands where they show numbers.
#[inline(always)]
pub(crate) fn chain_value<V: View>(
    view: &V,
    locals: &Locals,
    tree: &Tree,
    home: Home,
    at: usize,
) -> Option<Pair>
    ensures { IfSome result (λ p. ChainShows (record { names = V.names view.now; view = V.seen view.now }) (laid tree.now) home locals.now at p.part p.it.first p.it.second p.it.value) }
{
    let first = first_part(tree, at)?;
    let part = next_part(tree, first)?;
    let Ok((op, inside)) = operand(tree, at, part) else {
        return None;
    };
    let left = node_at(tree, first)?;
    let right = node_at(tree, inside)?;
    match operands_combined(view, locals, tree, home, op, left, right) {
        None => None,
        Some(it) => Some(Pair { part, it }),
    }
}

/// Begins a chain.
#[tactic(auto, using(crate::proofs::DirectLemmas::pair_moves, js_progress::proofs::MovingLemmas::begun_at))]
pub(crate) fn chain<V: View>(
    machine: &mut Machine,
    alloc: Global,
    tree: &Tree,
    view: &V,
    home: Home,
    at: usize,
) -> Result<Next, NoMemory>
    requires { is_chain (node_of ((laid tree.now).item at)) ≡ true }
    ensures { IfOk result (λ y. MovesAt (record { names = V.names view.now; view = V.seen view.now }) (laid tree.now) home (standing machine.old) (upcoming.Begin at) (standing machine.new) y) }
{
    if machine.left < 3 {
        let next = begun(machine, alloc, tree, view, home, at)?;
        return Ok(next);
    }
    match chain_value(view, &machine.locals, tree, home, at) {
        None => {
            let next = begun(machine, alloc, tree, view, home, at)?;
            Ok(next)
        }
        Some(pair) => {
            let next = paired(machine, tree, at, pair.part, pair.it)?;
            Ok(next)
        }
    }
}
