//! Names in nodes, and copies of values.

ghost use Rattle.std.specs.Prelude.{◌≡◌, IfOk, IfSome};
ghost use Rattle.js_locals.specs.Laid.{laid, name_at, name_of};

use crate::parts::node_at;
use qml_syntax::{Node, Tree};
use qml_text::{NoMemory, Text};
use qml_value::Value;
use std::alloc::Global;

/// A copy of a value.
pub fn copied(alloc: Global, value: &Value) -> Result<Value, NoMemory>
    ensures { IfOk result (λ v. v ≡ value.now) }
{
    match value.copy(alloc) {
        Ok(copy) => Ok(copy),
        Err(_) => Err(NoMemory),
    }
}

/// The name in a node.
fn name_in(node: &Node) -> Option<&Text>
    ensures { IfSome result (λ t. t.now ≡ name_at node.now) }
{
    match node {
        Node::Name(name, _) => Some(name),
        Node::Member(name, _) => Some(name),
        Node::Var(name, _) => Some(name),
        Node::ParameterName(name) => Some(name),
        Node::Key(_, name, _) => Some(name),
        _ => None,
    }
}

/// The name in the node at a place.
pub fn name_of(tree: &Tree, at: usize) -> Result<&Text, NoMemory>
    ensures { IfOk result (λ t. t.now ≡ name_of (laid tree.now) at) }
{
    let Some(node) = node_at(tree, at) else {
        return Err(NoMemory);
    };
    match name_in(node) {
        Some(name) => Ok(name),
        None => Err(NoMemory),
    }
}
