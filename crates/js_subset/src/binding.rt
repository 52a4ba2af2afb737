//! A `Qt.binding` that is assigned.

ghost use Rattle.std.specs.Prelude.{◌≡◌, ◌&&◌, None, if◌then◌else◌, IfOk};
ghost use Rattle.js_locals.specs.Laid.{laid};
ghost use Rattle.js_frames.specs.Meant.{bound_of};
ghost use Rattle.js_frames.specs.Spots.{is_steps, is_named, is_member, function_place, single_function, BoundAt};

use js_locals::{first_part, next_part, node_at};
use js_methods::named;
use qml_base::Place;
use qml_syntax::{Node, Tree};
use qml_text::NoMemory;

/// Whether it is the node of a name with steps behind it.
fn is_steps(node: &Node) -> bool
    ensures { result ≡ is_steps node.now }
{
    match node {
        Node::Steps => true,
        _ => false,
    }
}

/// Whether it is the name `Qt`.
fn is_qt(node: &Node) -> bool
    ensures { result ≡ is_named node.now }
{
    match node {
        Node::Name(name, _) => named(name, b"Qt"),
        _ => false,
    }
}

/// Whether it is the member `binding`.
fn is_member(node: &Node) -> bool
    ensures { result ≡ is_member node.now }
{
    match node {
        Node::Member(name, _) => named(name, b"binding"),
        _ => false,
    }
}

/// Where a call stands that has a function as its only argument.
fn function_place(node: &Node) -> Option<Place>
    ensures { result ≡ function_place node.now }
{
    match node {
        Node::Binding(place) => Some(*place),
        _ => None,
    }
}

/// Where one such call stands behind a part, with nothing behind it.
#[tactic(auto, using(js_frames::proofs::BoundLemmas::single_none, js_frames::proofs::BoundLemmas::single_other, js_frames::proofs::BoundLemmas::single_more, js_frames::proofs::BoundLemmas::single_last))]
fn single_function(tree: &Tree, part: usize) -> Result<Option<Place>, NoMemory>
    ensures { IfOk result (λ b. b ≡ single_function ((laid tree.now).rest part)) }
{
    let Some(call) = next_part(tree, part) else {
        return Ok(None);
    };
    let Some(node) = node_at(tree, call) else {
        return Err(NoMemory);
    };
    match function_place(node) {
        None => Ok(None),
        Some(place) => match next_part(tree, call) {
            None => Ok(Some(place)),
            Some(_) => Ok(None),
        },
    }
}

/// The place, where both hold.
fn place_if(first: bool, second: bool, place: Option<Place>) -> Option<Place>
    ensures { result ≡ (if first && second then place else None) }
{
    if first && second { place } else { None }
}

/// Where the call of the `Qt.binding` stands that the steps at a place are.
#[tactic(auto, using(crate::proofs::FoundLemmas::steps_bound_as, js_frames::proofs::BoundLemmas::plain_unbound))]
fn bound_at(tree: &Tree, at: usize) -> Result<Option<Place>, NoMemory>
    ensures { IfOk result (λ b. BoundAt (laid tree.now) at b) }
{
    let Some(whole) = node_at(tree, at) else {
        return Err(NoMemory);
    };
    if !is_steps(whole) {
        return Ok(None);
    }
    let Some(first) = first_part(tree, at) else {
        return Err(NoMemory);
    };
    let Some(step) = next_part(tree, first) else {
        return Err(NoMemory);
    };
    let Some(name) = node_at(tree, first) else {
        return Err(NoMemory);
    };
    let Some(member) = node_at(tree, step) else {
        return Err(NoMemory);
    };
    let is_first = is_qt(name);
    let is_second = is_member(member);
    let single = single_function(tree, step)?;
    Ok(place_if(is_first, is_second, single))
}

/// Where the call of the `Qt.binding` stands that is all behind a target.
#[tactic(auto, using(js_frames::proofs::BoundLemmas::nothing_bound, js_frames::proofs::BoundLemmas::bound_behind))]
pub(crate) fn bound(tree: &Tree, target: usize) -> Result<Option<Place>, NoMemory>
    ensures { IfOk result (λ b. b ≡ bound_of ((laid tree.now).rest target)) }
{
    match next_part(tree, target) {
        None => Ok(None),
        Some(right) => {
            let bound = bound_at(tree, right)?;
            Ok(bound)
        }
    }
}
