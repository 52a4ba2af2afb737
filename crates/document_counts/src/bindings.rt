//! Members that are bindings.

ghost use Rattle.std.specs.Prelude.{◌≡◌};
ghost use Rattle.std.specs.Option.{is_some};
ghost use Rattle.qml_syntax.specs.Places.{behind, places_of};
ghost use Rattle.program_names.specs.Names.{is_handler_name as handler_name, begins_raised as begins};
ghost use Rattle.type_uses.specs.Uses.{node_at};
ghost use Rattle.document_counts.specs.Bindings.{is_dot as dot, is_property as property, is_given as given, units_in, third_bound, given_bound, binding_at};

use crate::values::is_bound;
use document_rows::MemberRow;
use qml_syntax::{Node, Tree};

fn is_dot(tree: &Tree, at: usize) -> bool
    ensures { result ≡ dot (node_at tree.now at) }
{
    match tree.node(at) {
        Some(Node::Dot(_)) => true,
        _ => false,
    }
}

fn is_property(tree: &Tree, at: usize) -> bool
    ensures { result ≡ property (node_at tree.now at) }
{
    match tree.node(at) {
        Some(Node::Property(_, _)) => true,
        _ => false,
    }
}

fn is_given(tree: &Tree, at: usize) -> bool
    ensures { result ≡ given (node_at tree.now at) }
{
    match tree.node(at) {
        Some(Node::Given) => true,
        _ => false,
    }
}

/// Whether a raised name of some signal begins so.
fn begins_raised(units: &[u16]) -> bool
    ensures { result ≡ begins units.now }
{
    match units.first() {
        Some(unit) => !((97 <= *unit && *unit <= 122) || (48 <= *unit && *unit <= 57)),
        None => false,
    }
}

/// Whether a name is that of the handler of some signal.
fn is_handler_name(units: &[u16]) -> bool
    ensures { result ≡ handler_name units.now }
{
    let Some((first, behind)) = units.split_first() else {
        return false;
    };
    let Some((second, rest)) = behind.split_first() else {
        return false;
    };
    *first == 111 && *second == 110 && begins_raised(rest)
}

/// Whether the name at a node is a handler's.
fn names_handler(tree: &Tree, at: usize) -> bool
    ensures { result ≡ handler_name (units_in (node_at tree.now at)) }
{
    match tree.node(at) {
        Some(Node::First(text, _)) => is_handler_name(text.units()),
        Some(Node::Dot(text)) => is_handler_name(text.units()),
        _ => false,
    }
}

/// Whether the third part of a node is a statement that is no literal.
fn is_third_bound(tree: &Tree, at: usize) -> bool
    ensures { result ≡ third_bound tree.now (places_of tree.now at) }
{
    let Some(first) = tree.first(at) else {
        return false;
    };
    let Some(second) = tree.next(first) else {
        return false;
    };
    match tree.next(second) {
        Some(third) => is_bound(tree, third),
        None => false,
    }
}

/// Whether a path is given a statement that is no literal, under a name that is no handler's.
fn is_given_bound(tree: &Tree, at: usize) -> bool
    ensures { result ≡ given_bound tree.now (places_of tree.now at) }
{
    let Some(first) = tree.first(at) else {
        return false;
    };
    let mut last = first;
    let mut next = tree.next(first);
    'names: while let Some(part) = next {
        if !is_dot(tree, part) {
            return is_bound(tree, part) && !names_handler(tree, last);
        }
        last = part;
        next = tree.next(part);
    }
    false
}

/// Whether a member is a binding.
pub fn is_binding(tree: &Tree, row: &MemberRow) -> bool
    ensures { result ≡ binding_at tree.now row.now.group row.now.node }
{
    if is_property(tree, row.node) && row.group.is_none() && is_third_bound(tree, row.node) {
        return true;
    }
    is_given(tree, row.node) && is_given_bound(tree, row.node)
}
