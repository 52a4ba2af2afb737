//! The places of members.

ghost use Rattle.std.specs.Prelude.{◌≡◌};
ghost use Rattle.type_uses.specs.Uses.{node_at};
ghost use Rattle.property_faults.specs.Places as s;

use document_members::Member;
use qml_base::Place;
use qml_syntax::{Node, Tree};

/// A place that no token has.
const NOWHERE: Place = Place { line: 0, column: 0 };

/// The place of a name that is the first of a path.
fn name_place(tree: &Tree, at: usize) -> Place
    ensures { result ≡ s.name_place (node_at tree.now at) }
{
    match tree.node(at) {
        Some(Node::First(_, place)) => *place,
        _ => NOWHERE,
    }
}

/// Whether an object stands at a place.
fn is_object(tree: &Tree, at: usize) -> bool
    ensures { result ≡ s.is_object_node (node_at tree.now at) }
{
    match tree.node(at) {
        Some(Node::Object) => true,
        _ => false,
    }
}

/// The first token of the object at a place: that of its type's name.
pub(crate) fn object_place(tree: &Tree, at: usize) -> Place
    ensures { result ≡ s.object_place tree.now at }
{
    if !is_object(tree, at) {
        return NOWHERE;
    }
    match tree.first(at) {
        Some(part) => name_place(tree, part),
        None => NOWHERE,
    }
}

/// The first token of a member.
pub(crate) fn first_place(tree: &Tree, member: &Member) -> Place
    ensures { result ≡ s.first_place tree.now member.now }
{
    match member {
        Member::Id {
            word,
            name: _,
            at: _,
        } => *word,
        Member::Property {
            at,
            adjective: _,
            kind: _,
            name: _,
            name_at: _,
            value: _,
        } => *at,
        Member::Alias {
            at,
            default: _,
            name: _,
            name_at: _,
            target: _,
        } => *at,
        Member::Signal {
            at,
            name: _,
            name_at: _,
            parameters: _,
        } => *at,
        Member::Method {
            at,
            function: _,
            name: _,
            name_at: _,
        } => *at,
        Member::Given { path, value: _ } => path.at,
        Member::Group { path } => path.at,
        Member::Child { object } => object_place(tree, *object),
    }
}

/// The place that is told of a member that stands in a group.
pub(crate) fn place_in_group(tree: &Tree, member: &Member) -> Place
    ensures { result ≡ s.place_in_group tree.now member.now }
{
    match member {
        Member::Id {
            word,
            name: _,
            at: _,
        } => *word,
        Member::Property {
            at: _,
            adjective: _,
            kind: _,
            name: _,
            name_at,
            value: _,
        } => *name_at,
        Member::Alias {
            at: _,
            default: _,
            name: _,
            name_at,
            target: _,
        } => *name_at,
        Member::Signal {
            at: _,
            name: _,
            name_at,
            parameters: _,
        } => *name_at,
        Member::Method {
            at: _,
            function: _,
            name: _,
            name_at,
        } => *name_at,
        Member::Given { path, value: _ } => path.at,
        Member::Group { path } => path.at,
        Member::Child { object } => object_place(tree, *object),
    }
}
