//! The nodes of code by how they are gone through.

ghost use Rattle.std.specs.Prelude.{◌≡◌};
ghost use Rattle.code_deeds.specs.Forms as s;

use qml_base::Place;
use qml_syntax::{Node, Prefix, Tree};

/// How a node of an expression or a statement is gone through.
#[derive(Clone, Copy, Debug)]
pub enum Form {
    /// A name.
    Name,
    /// Its first part is changed, at this place.
    ChangesFirst(Place),
    /// Its last part is changed, at this place.
    ChangesLast(Place),
    /// A value with steps behind it.
    Steps,
    /// An assignment.
    Assign,
    /// A block.
    Block,
    /// A `for`.
    For,
    /// Its parts alone.
    Parts,
    /// Nothing is done in it.
    Other,
}

/// How a step is gone through.
#[derive(Clone, Copy, Debug)]
pub enum StepForm {
    /// An element by an expression.
    Element,
    /// A call; the place of its `(`.
    Call(Place),
    /// The call of `Qt.binding` with a function, likewise.
    Binding(Place),
    /// Nothing is done in it.
    Other,
}

fn bumps(prefix: Prefix) -> bool
    ensures { result ≡ s.bumps prefix }
{
    match prefix {
        Prefix::Increment => true,
        Prefix::Decrement => true,
        _ => false,
    }
}

fn signed_form(prefix: Prefix, place: Place) -> Form
    ensures { result ≡ s.signed_form prefix place }
{
    if bumps(prefix) {
        Form::ChangesLast(place)
    } else {
        Form::Parts
    }
}

fn form_of(node: &Node) -> Form
    ensures { result ≡ s.form_of node.now }
{
    match node {
        Node::Name(_, _) => Form::Name,
        Node::Postfix(_, place) => Form::ChangesFirst(*place),
        Node::Target(_, _, place) => Form::ChangesFirst(*place),
        Node::Signed(_, prefix, place) => signed_form(*prefix, *place),
        Node::Steps => Form::Steps,
        Node::Assign => Form::Assign,
        Node::Block(_) => Form::Block,
        Node::For(_) => Form::For,
        Node::Paren(_) | Node::List(_, _) | Node::Fields(_, _) | Node::Link(_, _, _) => Form::Parts,
        Node::Chain(_, _, _) | Node::Choice(_) | Node::Choose | Node::Expression(_) => Form::Parts,
        Node::Declare(_, _, _) | Node::When(_) | Node::Either(_) | Node::While(_) => Form::Parts,
        Node::FirstExpression | Node::FirstDeclare(_, _) | Node::Present => Form::Parts,
        Node::GiveValue(_, _) | Node::Body => Form::Parts,
        _ => Form::Other,
    }
}

/// How the node at a place is gone through.
pub fn form_at(tree: &Tree, at: usize) -> Form
    ensures { result ≡ s.form_of (s.node_at tree.now at) }
{
    match tree.node(at) {
        Some(node) => form_of(node),
        None => Form::Other,
    }
}

fn step_form_of(node: &Node) -> StepForm
    ensures { result ≡ s.step_form_of node.now }
{
    match node {
        Node::Element(_) => StepForm::Element,
        Node::Call(place) => StepForm::Call(*place),
        Node::Binding(place) => StepForm::Binding(*place),
        _ => StepForm::Other,
    }
}

/// How the step at a place is gone through.
pub fn step_form_at(tree: &Tree, at: usize) -> StepForm
    ensures { result ≡ s.step_form_of (s.node_at tree.now at) }
{
    match tree.node(at) {
        Some(node) => step_form_of(node),
        None => StepForm::Other,
    }
}
