//! Places of values and objects.

ghost use Rattle.std.specs.Prelude.{◌≡◌, Some, option_copied, slice_get};
ghost use Rattle.type_uses.specs.Uses.{node_at};
ghost use Rattle.value_places.specs.Places as s;

use document_rows::ObjectRow;
use qml_base::Place;
use qml_syntax::{Node, Tree};
use value_reading::first_token;

/// A place that no token has.
const NOWHERE: Place = Place { line: 0, column: 0 };

/// What stands at a node.
#[derive(Clone, Copy, Debug)]
enum Form {
    Object,
    /// A list of objects.
    List,
    Statement,
    /// Nothing of this.
    Other,
}

fn form_of(node: &Node) -> Form
    ensures { result ≡ s.form_of node.now }
{
    match node {
        Node::Object => Form::Object,
        Node::ObjectList(_) => Form::List,
        Node::Empty(_)
        | Node::Expression(_)
        | Node::Block(_)
        | Node::Declare(_, _, _)
        | Node::When(_)
        | Node::Either(_)
        | Node::While(_)
        | Node::For(_)
        | Node::Give(_, _)
        | Node::GiveValue(_, _)
        | Node::Stop(_, _)
        | Node::Again(_, _) => Form::Statement,
        _ => Form::Other,
    }
}

fn form_at(tree: &Tree, at: usize) -> Form
    ensures { result ≡ s.form_of (node_at tree.now at) }
{
    match tree.node(at) {
        Some(node) => form_of(node),
        None => Form::Other,
    }
}

fn object_at_row(tree: &Tree, row: &ObjectRow) -> Place
    ensures { result ≡ s.object_at_row tree.now (Some row.now) }
{
    match form_at(tree, row.node) {
        Form::Object => first_token(tree, row.node),
        Form::List => NOWHERE,
        Form::Statement => NOWHERE,
        Form::Other => NOWHERE,
    }
}

fn row_at(objects: &[ObjectRow], object: usize) -> Option<&ObjectRow>
    ensures { option_copied result ≡ slice_get objects.now object }
{
    objects.get(object)
}

/// The first token of the object of a number: that of its type's name. These are the rows of the document's objects.
pub fn object_place(tree: &Tree, objects: &[ObjectRow], object: usize) -> Place
    ensures { result ≡ s.object_place tree.now objects.now object }
{
    match row_at(objects, object) {
        Some(row) => object_at_row(tree, row),
        None => NOWHERE,
    }
}

/// The first token of the value whose node stands at a place, where the first object in it has this number: of an object that of its
/// type's name, of a list its `[`. It takes time by how deep the token stands.
pub fn value_place(tree: &Tree, objects: &[ObjectRow], first: usize, at: usize) -> Place
    ensures { result ≡ s.value_place tree.now objects.now first at }
{
    match form_at(tree, at) {
        Form::Object => object_place(tree, objects, first),
        Form::List => first_token(tree, at),
        Form::Statement => first_token(tree, at),
        Form::Other => NOWHERE,
    }
}
