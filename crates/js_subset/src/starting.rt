//! What whole texts begin with.

ghost use Rattle.std.specs.Prelude.{◌≡◌, ◌∷◌, [], IfOk, IfSome};
ghost use Rattle.qml_syntax.specs.Opened.{node_of};
ghost use Rattle.js_meaning.specs.Locals.{lets_of, vars_of_all};
ghost use Rattle.js_locals.specs.Laid.{laid, is_expr_node, stmts_in};
ghost use Rattle.js_locals.specs.Scopes.{scopes_of};
ghost use Rattle.js_locals.specs.Gathering.{row_from};
ghost use Rattle.js_frames.specs.Stepping.{Starts, StartsIf, kind_of};

use crate::calling::body_locals;
use evaluation::Evaluated;
use js_frames::{Kind, Next, Stack};
use js_locals::{Locals, first_part, is_expression, next_part, node_at, row_behind};
use qml_syntax::{Node, Tree};
use qml_text::NoMemory;
use qml_value::Value;
use std::alloc::Global;

/// What a whole text is.
fn kind_of(node: &Node) -> Kind
    ensures { result ≡ kind_of node.now }
{
    if is_expression(node) {
        return Kind::Expression;
    }
    match node {
        Node::Expression(_) => Kind::Statement,
        Node::Body | Node::Binding(_) => Kind::Body,
        Node::Document | Node::Script(_) => Kind::File,
        _ => Kind::Other,
    }
}

/// Where a text begins that is an expression, or a statement of one alone.
#[inline]
#[tactic(auto, using(js_frames::proofs::StartLemmas::expression_starts, js_frames::proofs::StartLemmas::statement_starts))]
pub(crate) fn begins_at(tree: &Tree, at: usize) -> Option<usize>
    ensures { IfSome result (λ first. Starts (laid tree.now) at [] (Next.Begin first)) }
{
    let node = node_at(tree, at)?;
    match kind_of(node) {
        Kind::Expression => Some(at),
        Kind::Statement => first_part(tree, at),
        Kind::Body | Kind::File | Kind::Other => None,
    }
}

/// Begins the body whose node stands at a place.
#[tactic(auto, using(js_frames::proofs::StartLemmas::body_starts))]
fn start_body(
    frames: &mut Stack,
    alloc: Global,
    tree: &Tree,
    at: usize,
) -> Result<(Locals, Next), NoMemory>
    ensures frames { frames.new ≡ frames.old }
    ensures starts { IfOk result (λ r. StartsIf (laid tree.now) Kind.Body at r.0 r.1) }
{
    let Some(mark) = first_part(tree, at) else {
        return Err(NoMemory);
    };
    let locals = body_locals(frames, alloc, tree, &[], &[], row_behind(tree, mark))?;
    Ok((locals, Next::Rest(mark)))
}

/// Begins the statement whose node stands at a place.
#[tactic(auto, using(js_frames::proofs::StartLemmas::other_starts))]
fn start_other(
    frames: &mut Stack,
    alloc: Global,
    tree: &Tree,
    at: usize,
) -> Result<(Locals, Next), NoMemory>
    ensures frames { frames.new ≡ frames.old }
    ensures starts { IfOk result (λ r. StartsIf (laid tree.now) Kind.Other at r.0 r.1) }
{
    let None = next_part(tree, at) else {
        return Err(NoMemory);
    };
    let locals = body_locals(frames, alloc, tree, &[], &[], Some(at))?;
    Ok((locals, Next::Run(at)))
}

/// Begins the text whose node stands at a place, with the locals that it has.
#[tactic(auto, using(js_frames::proofs::StartLemmas::expression_starts, js_frames::proofs::StartLemmas::statement_starts, js_frames::proofs::StartLemmas::file_starts, js_frames::proofs::StartLemmas::starts_as))]
pub(crate) fn start(
    frames: &mut Stack,
    alloc: Global,
    tree: &Tree,
    at: usize,
) -> Result<(Locals, Next), NoMemory>
    ensures frames { frames.new ≡ frames.old }
    ensures starts { IfOk result (λ r. Starts (laid tree.now) at r.0 r.1) }
{
    let Some(node) = node_at(tree, at) else {
        return Err(NoMemory);
    };
    match kind_of(node) {
        Kind::Expression => Ok((frames.take_locals(alloc), Next::Begin(at))),
        Kind::Statement => match first_part(tree, at) {
            Some(inside) => Ok((frames.take_locals(alloc), Next::Begin(inside))),
            None => Err(NoMemory),
        },
        Kind::Other => {
            let begun = start_other(frames, alloc, tree, at)?;
            Ok(begun)
        }
        Kind::Body => {
            let begun = start_body(frames, alloc, tree, at)?;
            Ok(begun)
        }
        Kind::File => {
            let ended = Next::Ended(Evaluated::Value(Value::Undefined));
            Ok((frames.take_locals(alloc), ended))
        }
    }
}
