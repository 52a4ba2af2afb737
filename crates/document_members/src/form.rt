//! What a member is, by its node.

ghost use Rattle.std.specs.Prelude.{◌≡◌};
ghost use Rattle.qml_syntax.specs.Opened.{node_of};
ghost use Rattle.qml_syntax.specs.Places.{part_at};
ghost use Rattle.document_members.specs.Forms as s;

use qml_base::Place;
use qml_syntax::{Adjective, Node, Tree};

/// What a member is, with the place of its first token where its node tells it.
#[derive(Clone, Copy, Debug)]
pub enum Form {
    Id(Place),
    Property(Place, Adjective),
    /// A property without a value.
    Bare(Place, Adjective),
    Alias(Place, bool),
    /// A signal without brackets.
    Signal(Place),
    SignalWith(Place),
    Method,
    Given,
    Group,
    Child,
    /// No member.
    Other,
}

/// What the member of a node is.
fn form_of(node: &Node) -> Form
    ensures { result ≡ s.form_of node.now }
{
    match node {
        Node::Id(at, _) => Form::Id(*at),
        Node::Property(at, adjective) => Form::Property(*at, *adjective),
        Node::Bare(at, adjective, _) => Form::Bare(*at, *adjective),
        Node::Alias(at, default, _) => Form::Alias(*at, *default),
        Node::Signal(at, _) => Form::Signal(*at),
        Node::SignalWith(at, _) => Form::SignalWith(*at),
        Node::Method => Form::Method,
        Node::Given => Form::Given,
        Node::Group => Form::Group,
        Node::Child => Form::Child,
        _ => Form::Other,
    }
}

/// What the member at a place is.
#[tactic(auto, using(crate::proofs::PartLemmas::form_found, crate::proofs::PartLemmas::form_missing))]
pub fn form_at(tree: &Tree, at: usize) -> Form
    ensures { result ≡ s.form_of (node_of (part_at tree.now at)) }
{
    match tree.node(at) {
        Some(node) => form_of(node),
        None => Form::Other,
    }
}
