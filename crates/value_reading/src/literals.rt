//! Values that are literals.

ghost use Rattle.std.specs.Prelude.{◌≡◌};
ghost use Rattle.qml_syntax.specs.Opened.{IsListing};
ghost use Rattle.qml_syntax.specs.Places.{part_at};
ghost use Rattle.type_uses.specs.Uses.{node_at};
ghost use Rattle.value_reading.specs.LiteralKinds as s;

use qml_syntax::{Literal, Node, Prefix, Tree};
use qml_value::Kind;

/// What a node tells of a literal.
#[derive(Clone, Copy, Debug)]
enum Form {
    /// A literal of this kind.
    Of(Kind),
    /// A number behind one minus, if its first part is a number.
    Minus,
    /// An expression as a statement.
    Statement,
    /// Nothing of this.
    Other,
}

fn word_kind(word: Literal) -> Kind
    ensures { result ≡ s.word_kind word }
{
    match word {
        Literal::True => Kind::Bool,
        Literal::False => Kind::Bool,
        Literal::Null => Kind::Null,
    }
}

fn form_of(node: &Node) -> Form
    ensures { result ≡ s.form_of node.now }
{
    match node {
        Node::Number(_, _) => Form::Of(Kind::Num),
        Node::Text(_, _) => Form::Of(Kind::Text),
        Node::Literal(word, _) => Form::Of(word_kind(*word)),
        Node::Signed(true, Prefix::Minus, _) => Form::Minus,
        Node::Expression(_) => Form::Statement,
        _ => Form::Other,
    }
}

fn form_at(tree: &Tree, at: usize) -> Form
    ensures { result ≡ s.form_of (node_at tree.now at) }
{
    match tree.node(at) {
        Some(node) => form_of(node),
        None => Form::Other,
    }
}

/// The form of the first part of a node.
fn first_form(tree: &Tree, at: usize) -> Form
    ensures { result ≡ s.first_form tree.now at }
{
    match tree.first(at) {
        Some(part) => form_at(tree, part),
        None => Form::Other,
    }
}

/// The kind of the literal that an expression is.
fn expression_kind(tree: &Tree, at: usize) -> Option<Kind>
    ensures { result ≡ s.expression_kind tree.now at }
{
    match form_at(tree, at) {
        Form::Of(kind) => Some(kind),
        Form::Minus => number_kind(first_form(tree, at)),
        Form::Statement => None,
        Form::Other => None,
    }
}

/// The kind of a number alone.
fn number_kind(form: Form) -> Option<Kind>
    ensures { result ≡ s.number_kind form }
{
    match form {
        Form::Of(Kind::Num) => Some(Kind::Num),
        _ => None,
    }
}

/// The kind of the literal that the value at a place is: a number, a number behind one `-`, a text, `true`, `false` or `null`; none
/// where it is no literal.
pub fn literal_kind(tree: &Tree, at: usize) -> Option<Kind>
    ensures { result ≡ s.literal_kind (part_at tree.now at) }
{
    let _root = tree.root();
    match form_at(tree, at) {
        Form::Statement => first_kind(tree, at),
        _ => None,
    }
}

/// That of the expression that is the first part of a node.
fn first_kind(tree: &Tree, at: usize) -> Option<Kind>
    ensures { result ≡ s.first_kind tree.now at }
{
    match tree.first(at) {
        Some(part) => expression_kind(tree, part),
        None => None,
    }
}
