//! Going through the parts of code.

ghost use Rattle.std.specs.Prelude.{◌≡◌, IfOk, MatchOption, reverse};
ghost use Rattle.js_locals.specs.Laid.{laid};
ghost use Rattle.js_locals.specs.Gathering.{row_from, row_onto};
ghost use Rattle.binding_places.specs.InParts as s;

use js_locals::{first_part, row_behind};
use qml_base::Place;
use qml_syntax::{Node, Tree};
use qml_text::NoMemory;
use std::alloc::Global;

/// Whether a node's parts are code.
fn has_code(node: &Node) -> bool
    ensures { result ≡ s.has_code node.now }
{
    match node {
        Node::Paren(_)
        | Node::List(_, _)
        | Node::Fields(_, _)
        | Node::Steps
        | Node::Postfix(_, _)
        | Node::Signed(_, _, _)
        | Node::Chain(_, _, _)
        | Node::Link(_, _, _)
        | Node::Choice(_)
        | Node::Choose
        | Node::Target(_, _, _)
        | Node::Assign
        | Node::Element(_)
        | Node::Call(_)
        | Node::Binding(_)
        | Node::Expression(_)
        | Node::Block(_)
        | Node::Declare(_, _, _)
        | Node::When(_)
        | Node::Either(_)
        | Node::While(_)
        | Node::For(_)
        | Node::GiveValue(_, _)
        | Node::FirstExpression
        | Node::FirstDeclare(_, _)
        | Node::Present
        | Node::Body
        | Node::Function(_) => true,
        _ => false,
    }
}

/// The node of the part at a place, if there is one.
#[tactic(auto, using(crate::proofs::PartLemmas::node_there, crate::proofs::PartLemmas::nothing_there))]
fn part_node(tree: &Tree, at: usize) -> Option<&Node>
    ensures { MatchOption result (s.IsMissing (laid tree.now) at) (λ node. node.now ≡ s.node_in (laid tree.now) at) }
{
    tree.node(at)
}

/// The place that a call of `Qt.binding` has.
fn call_place(node: &Node) -> Option<Place>
    ensures { result ≡ s.call_place node.now }
{
    match node {
        Node::Binding(place) => Some(*place),
        _ => None,
    }
}

/// The place of the part at a place, if it is a call of `Qt.binding`.
#[tactic(auto, using(crate::proofs::PartLemmas::called, crate::proofs::PartLemmas::nothing_called))]
fn own_place(tree: &Tree, at: usize) -> Option<Place>
    ensures { result ≡ s.call_place (s.node_in (laid tree.now) at) }
{
    match part_node(tree, at) {
        Some(node) => call_place(node),
        None => None,
    }
}

/// Adds the part at a place, if it is a call of `Qt.binding`.
#[tactic(auto, using(crate::proofs::PartLemmas::call_added, crate::proofs::PartLemmas::none_added))]
fn add_own(tree: &Tree, at: usize, found: &mut Vec<(Place, usize)>) -> Result<(), NoMemory>
    ensures { IfOk result (λ _. s.OwnAdded (laid tree.now) at found.old.items found.new.items) }
{
    if let Some(place) = own_place(tree, at) {
        found.push((place, at))?;
    }
    Ok(())
}

/// Whether the parts of the part at a place are code.
#[tactic(auto, using(crate::proofs::PartLemmas::code_there, crate::proofs::PartLemmas::no_code_there))]
fn holds_code(tree: &Tree, at: usize) -> bool
    ensures { result ≡ s.has_code (s.node_in (laid tree.now) at) }
{
    match part_node(tree, at) {
        Some(node) => has_code(node),
        None => false,
    }
}

/// The first part inside a part, if its parts are code.
#[tactic(auto, using(crate::proofs::PartLemmas::code_inside, crate::proofs::PartLemmas::no_code_inside))]
fn first_inside(tree: &Tree, at: usize) -> Option<usize>
    ensures { row_from (laid tree.now) result ≡ s.inside (laid tree.now) at }
{
    if holds_code(tree, at) {
        first_part(tree, at)
    } else {
        None
    }
}

/// Adds a row, if there is one.
fn push_row(pending: &mut Vec<usize>, row: Option<usize>) -> Result<(), NoMemory>
    ensures { IfOk result (λ _. reverse pending.new.items ≡ row_onto row (reverse pending.old.items)) }
{
    if let Some(part) = row {
        pending.push(part)?;
    }
    Ok(())
}

/// Goes over the part at a place: what is inside it and behind it is still to be gone through.
#[tactic(auto, using(crate::proofs::WalkLemmas::walks))]
fn walked(
    tree: &Tree,
    at: usize,
    pending: &mut Vec<usize>,
    found: &mut Vec<(Place, usize)>,
) -> Result<(), NoMemory>
    ensures { IfOk result (λ _. s.WalksOn (laid tree.now) at pending.old.items pending.new.items found.old.items found.new.items) }
{
    add_own(tree, at, found)?;
    let behind = row_behind(tree, at);
    let inside = first_inside(tree, at);
    push_row(pending, behind)?;
    push_row(pending, inside)?;
    Ok(())
}

/// The places of the `Qt.binding`s in the body, or in another part of code, whose node stands at a place, each with
/// where the node of its call stands: in the order of writing, each before those in its function (Qt 5.15, "Property
/// Binding": `Qt.binding()`). It takes time by the nodes of the part. Nothing recurses. Want of memory is the one error.
#[tactic(auto, using(crate::proofs::WalkLemmas::goes_on, crate::proofs::WalkLemmas::ends))]
pub fn binding_places(
    alloc: Global,
    tree: &Tree,
    at: usize,
) -> Result<Vec<(Place, usize)>, NoMemory>
    ensures { IfOk result (λ found. s.AreBindingsIn (laid tree.now) at found.items) }
{
    let mut pending = Vec::new(alloc);
    let mut found = Vec::new(alloc);
    add_own(tree, at, &mut found)?;
    push_row(&mut pending, first_inside(tree, at))?;
    'rows: while let Some(part) = pending.pop() {
        walked(tree, part, &mut pending, &mut found)?;
    }
    Ok(found)
}
