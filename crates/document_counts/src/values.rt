//! Values at the nodes of a tree.

ghost use Rattle.std.specs.Prelude.{◌≡◌};
ghost use Rattle.type_uses.specs.Uses.{node_at};
ghost use Rattle.document_counts.specs.Bindings.{is_expression as expression, is_plain as plain, is_minus as minus, is_number as number, is_objects as objects, plain_at, literal_at, bound_at};

use qml_syntax::{Node, Prefix, Tree};

fn is_expression(tree: &Tree, at: usize) -> bool
    ensures { result ≡ expression (node_at tree.now at) }
{
    match tree.node(at) {
        Some(Node::Expression(_)) => true,
        _ => false,
    }
}

fn is_plain(tree: &Tree, at: usize) -> bool
    ensures { result ≡ plain (node_at tree.now at) }
{
    match tree.node(at) {
        Some(Node::Number(_, _)) => true,
        Some(Node::Text(_, _)) => true,
        Some(Node::Literal(_, _)) => true,
        _ => false,
    }
}

fn is_minus(tree: &Tree, at: usize) -> bool
    ensures { result ≡ minus (node_at tree.now at) }
{
    match tree.node(at) {
        Some(Node::Signed(true, Prefix::Minus, _)) => true,
        _ => false,
    }
}

fn is_number(tree: &Tree, at: usize) -> bool
    ensures { result ≡ number (node_at tree.now at) }
{
    match tree.node(at) {
        Some(Node::Number(_, _)) => true,
        _ => false,
    }
}

fn is_objects(tree: &Tree, at: usize) -> bool
    ensures { result ≡ objects (node_at tree.now at) }
{
    match tree.node(at) {
        Some(Node::Object) => true,
        Some(Node::ObjectList(_)) => true,
        _ => false,
    }
}

/// Whether an expression is a number, a text, a word that is a literal, or a number behind one `-`.
fn is_plain_expression(tree: &Tree, at: usize) -> bool
    ensures { result ≡ plain_at tree.now at }
{
    if is_plain(tree, at) {
        return true;
    }
    if !is_minus(tree, at) {
        return false;
    }
    match tree.first(at) {
        Some(part) => is_number(tree, part),
        None => false,
    }
}

fn is_literal(tree: &Tree, at: usize) -> bool
    ensures { result ≡ literal_at tree.now at }
{
    if !is_expression(tree, at) {
        return false;
    }
    match tree.first(at) {
        Some(part) => is_plain_expression(tree, part),
        None => false,
    }
}

/// Whether a value is a statement that is no literal.
pub fn is_bound(tree: &Tree, at: usize) -> bool
    ensures { result ≡ bound_at tree.now at }
{
    !is_objects(tree, at) && !is_literal(tree, at)
}
