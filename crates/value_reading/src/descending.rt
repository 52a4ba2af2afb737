//! Going down to the first token.

ghost use Rattle.std.specs.Prelude.{◌≡◌};
ghost use Rattle.qml_syntax.specs.Opened.{IsListing};
ghost use Rattle.qml_syntax.specs.Places.{part_at};
ghost use Rattle.type_uses.specs.Uses.{node_at};
ghost use Rattle.value_reading.specs.FirstTokens as s;

use qml_base::Place;
use qml_syntax::{Node, Tree};

/// A place that no token has.
const NOWHERE: Place = Place { line: 0, column: 0 };

/// Where the first token of a part is: at a place, or in the part whose node stands there.
#[derive(Clone, Copy, Debug)]
enum Found {
    At(Place),
    In(usize),
}

/// The place of the first token, where the node has it; None where it is that of its first part. What is no statement, expression,
/// object or list of objects, nor within one of these in front, counts as one that is nowhere.
fn own_place(node: &Node) -> Option<Place>
    ensures { result ≡ s.own_place node.now }
{
    match node {
        Node::Name(_, place)
        | Node::Number(_, place)
        | Node::Text(_, place)
        | Node::Literal(_, place)
        | Node::Paren(place)
        | Node::List(place, _)
        | Node::Fields(place, _)
        | Node::Sign(_, _, place)
        | Node::Signed(true, _, place)
        | Node::Empty(place)
        | Node::Block(place)
        | Node::Declare(place, _, _)
        | Node::When(place)
        | Node::Either(place)
        | Node::While(place)
        | Node::For(place)
        | Node::Give(place, _)
        | Node::GiveValue(place, _)
        | Node::Stop(place, _)
        | Node::Again(place, _)
        | Node::First(_, place)
        | Node::ObjectList(place) => Some(*place),
        Node::Signed(false, _, _)
        | Node::Steps
        | Node::Postfix(_, _)
        | Node::Chain(_, _, _)
        | Node::Choice(_)
        | Node::Choose
        | Node::Target(_, _, _)
        | Node::Assign
        | Node::Expression(_)
        | Node::Object => None,
        _ => Some(NOWHERE),
    }
}

fn own_at(tree: &Tree, at: usize) -> Option<Place>
    ensures { result ≡ s.own_place (node_at tree.now at) }
{
    match tree.node(at) {
        Some(node) => own_place(node),
        None => Some(NOWHERE),
    }
}

/// One step down from a part.
fn step(tree: &Tree, at: usize) -> Found
    ensures { IsListing tree.now → s.Leads tree.now at result }
{
    match own_at(tree, at) {
        Some(place) => Found::At(place),
        None => match tree.first(at) {
            Some(part) => Found::In(part),
            None => Found::At(NOWHERE),
        },
    }
}

/// The place of the first token of the part whose node stands at this place: of an object that of its type's name, of a list of objects
/// its `[`. It takes time by how deep the token stands.
pub fn first_token(tree: &Tree, at: usize) -> Place
    ensures { result ≡ s.place_in (part_at tree.now at) }
{
    let _root = tree.root();
    let mut here = at;
    'down: for done in 0..tree.len() {
        match step(tree, here) {
            Found::At(place) => return place,
            Found::In(part) => here = part,
        }
    }
    NOWHERE
}
