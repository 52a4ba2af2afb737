//! Nodes that are begun.

ghost use Rattle.std.specs.Prelude.{◌≡◌, ◌<◌, true, IfOk};
ghost use Rattle.qml_syntax.specs.Opened.{node_of};
ghost use Rattle.js_meaning.specs.Operate.{counts};
ghost use Rattle.js_locals.specs.Laid.{laid};
ghost use Rattle.js_frames.specs.Standing.{standing, without_node};
ghost use Rattle.js_frames.specs.Moves.{ChooseOn};
ghost use Rattle.js_frames.specs.declared.frames.Next.TheVariants as upcoming;
ghost use Rattle.js_progress.specs.Moving.{MovesAt};
ghost use Rattle.js_direct.specs.Showing.{is_choose, passed};

use crate::pairs::{chain, is_chain, pass};
use crate::shown::{Plain, plain_value};
use evaluation::View;
use js_frames::{Machine, Next};
use js_locals::{first_part, node_at};
use js_operators::truth;
use js_steps::{begun, choose_on};
use qml_base::Home;
use qml_syntax::{Node, Tree};
use qml_text::NoMemory;
use std::alloc::Global;

/// Goes on behind an operand with its value.
#[inline(always)]
fn plain_begun(machine: &mut Machine, it: Plain) -> Result<Next, NoMemory>
    requires { 0 < machine.now.left }
    ensures { IfOk result (λ y. (standing machine.new ≡ passed it.cell (standing machine.old)) × (y ≡ upcoming.Back it.value)) }
{
    pass(machine, it.cell)?;
    Ok(Next::Back(it.value))
}

/// Begins an operand.
#[inline(always)]
#[tactic(auto, using(crate::proofs::DirectLemmas::plain_moves, js_progress::proofs::MovingLemmas::begun_at))]
fn plain<V: View>(
    machine: &mut Machine,
    alloc: Global,
    tree: &Tree,
    view: &V,
    home: Home,
    at: usize,
) -> Result<Next, NoMemory>
    ensures { IfOk result (λ y. MovesAt (record { names = V.names view.now; view = V.seen view.now }) (laid tree.now) home (standing machine.old) (upcoming.Begin at) (standing machine.new) y) }
{
    let Some(node) = node_at(tree, at) else {
        return Err(NoMemory);
    };
    if machine.left == 0 {
        let next = begun(machine, alloc, tree, view, home, at)?;
        return Ok(next);
    }
    match plain_value(view, &machine.locals, tree, home, node) {
        None => {
            let next = begun(machine, alloc, tree, view, home, at)?;
            Ok(next)
        }
        Some(it) => {
            let next = plain_begun(machine, it)?;
            Ok(next)
        }
    }
}

/// Goes on in a choice that is begun, behind its condition.
#[inline(always)]
fn chosen(
    machine: &mut Machine,
    tree: &Tree,
    first: usize,
    test: usize,
    it: Plain,
) -> Result<Next, NoMemory>
    requires { 1 < machine.now.left }
    ensures { IfOk result (λ y. ChooseOn (laid tree.now) first test (counts it.value) (passed it.cell (without_node (standing machine.old))) (standing machine.new) y) }
{
    machine.left -= 1;
    pass(machine, it.cell)?;
    choose_on(machine, tree, first, test, truth(&it.value))
}

/// Begins a choice.
#[inline(always)]
#[tactic(auto, using(crate::proofs::DirectLemmas::choice_moves, js_progress::proofs::MovingLemmas::begun_at))]
fn choice<V: View>(
    machine: &mut Machine,
    alloc: Global,
    tree: &Tree,
    view: &V,
    home: Home,
    at: usize,
) -> Result<Next, NoMemory>
    requires { is_choose (node_of ((laid tree.now).item at)) ≡ true }
    ensures { IfOk result (λ y. MovesAt (record { names = V.names view.now; view = V.seen view.now }) (laid tree.now) home (standing machine.old) (upcoming.Begin at) (standing machine.new) y) }
{
    let Some(first) = first_part(tree, at) else {
        return Err(NoMemory);
    };
    let Some(test) = first_part(tree, first) else {
        return Err(NoMemory);
    };
    let Some(node) = node_at(tree, test) else {
        return Err(NoMemory);
    };
    if machine.left < 2 {
        let next = begun(machine, alloc, tree, view, home, at)?;
        return Ok(next);
    }
    match plain_value(view, &machine.locals, tree, home, node) {
        None => {
            let next = begun(machine, alloc, tree, view, home, at)?;
            Ok(next)
        }
        Some(it) => {
            let next = chosen(machine, tree, first, test, it)?;
            Ok(next)
        }
    }
}

/// Begins a choice, and the operand that is chosen.
#[tactic(auto, using(crate::proofs::DirectLemmas::then_begun))]
fn choice_followed<V: View>(
    machine: &mut Machine,
    alloc: Global,
    tree: &Tree,
    view: &V,
    home: Home,
    at: usize,
) -> Result<Next, NoMemory>
    requires { is_choose (node_of ((laid tree.now).item at)) ≡ true }
    ensures { IfOk result (λ y. MovesAt (record { names = V.names view.now; view = V.seen view.now }) (laid tree.now) home (standing machine.old) (upcoming.Begin at) (standing machine.new) y) }
{
    let next = choice(machine, alloc, tree, view, home, at)?;
    match next {
        Next::Begin(part) => {
            let further = plain(machine, alloc, tree, view, home, part)?;
            Ok(further)
        }
        other => Ok(other),
    }
}

/// Whether it is the node of a choice.
#[inline(always)]
fn is_choose(node: &Node) -> bool
    ensures { result ≡ is_choose node.now }
{
    match node {
        Node::Choose => true,
        _ => false,
    }
}

/// Begins the node at a place, of those that may still be begun, and goes on as far as operands show what they are at once.
pub fn begun_directly<V: View>(
    machine: &mut Machine,
    alloc: Global,
    tree: &Tree,
    view: &V,
    home: Home,
    at: usize,
) -> Result<Next, NoMemory>
    ensures { IfOk result (λ y. MovesAt (record { names = V.names view.now; view = V.seen view.now }) (laid tree.now) home (standing machine.old) (upcoming.Begin at) (standing machine.new) y) }
{
    let Some(node) = node_at(tree, at) else {
        return Err(NoMemory);
    };
    if is_chain(node) {
        chain(machine, alloc, tree, view, home, at)
    } else if is_choose(node) {
        choice_followed(machine, alloc, tree, view, home, at)
    } else {
        plain(machine, alloc, tree, view, home, at)
    }
}
