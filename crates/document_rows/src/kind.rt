//! What a node is to the rows.

ghost use Rattle.std.specs.Prelude.{◌≡◌};
ghost use Rattle.document_rows.specs.Walk as s;

use qml_syntax::{Node, Tree};

/// What a node is to the rows.
#[derive(Clone, Copy, Debug, PartialEq, Eq)]
pub enum Kind {
    /// What stands before many parts.
    Mark,
    /// A member with a `;` behind it.
    Semi,
    /// A group of members.
    Group,
    /// A member that holds a value or an object as its last part.
    Holder,
    Object,
    /// A list of objects.
    Objects,
    Other,
}

fn kind_of(node: &Node) -> Kind
    ensures { result ≡ s.kind_of node.now }
{
    match node {
        Node::Mark => Kind::Mark,
        Node::Semi => Kind::Semi,
        Node::Group => Kind::Group,
        Node::Property(_, _) | Node::Given | Node::Child => Kind::Holder,
        Node::Object => Kind::Object,
        Node::ObjectList(_) => Kind::Objects,
        _ => Kind::Other,
    }
}

/// What the node at a place is; behind the last a mark.
pub fn kind_at(tree: &Tree, at: usize) -> Kind
    ensures { result ≡ s.kind_at tree.now at }
{
    match tree.node(at) {
        Some(node) => kind_of(node),
        None => Kind::Mark,
    }
}

/// The place of the member itself, without a `;` behind it.
pub fn member_place(tree: &Tree, at: usize) -> usize
    ensures { result ≡ s.member_place tree.now at }
{
    if kind_at(tree, at) == Kind::Semi {
        match tree.first(at) {
            Some(part) => part,
            None => at,
        }
    } else {
        at
    }
}
