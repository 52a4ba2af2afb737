//! Walks over trees that open one level at a time and call nothing again: examples for what walks trees.

ghost use Rattle.std.specs.Prelude.{◌≡◌, ◌<◌, true, false, length, slice_index, IfOk};
ghost use Rattle.qml_syntax.specs.Tree.{Expr};
ghost use Rattle.qml_syntax.specs.Nodes.{of_expr};
ghost use Rattle.qml_syntax.specs.Opened.{item_at};
ghost use Rattle.level_tests.specs.Brackets.{bare, is_bracket, Steps};

use qml_base::NoMemory;
use qml_syntax::{Node, Tree};
use std::alloc::Global;

/// How many nodes a walk from the root leaves out: none, since each node is opened once.
pub fn left_out(alloc: Global, tree: &Tree) -> Result<usize, NoMemory>
    ensures { IfOk result (λ n. n ≡ 0) }
{
    let mut waiting = Vec::new(alloc);
    match waiting.push(tree.root()) {
        Ok(()) => {}
        Err(_) => return Err(NoMemory),
    }
    let mut left = tree.len();
    while let Some(at) = waiting.pop() {
        tree.open(at, &mut waiting)?;
        left -= 1;
    }
    Ok(left)
}

/// Where the expression inside all brackets round the one at this place stands. `parts` is for the places on the way.
pub fn inside_brackets(tree: &Tree, from: usize, parts: &mut Vec<usize>) -> Result<usize, NoMemory>
    requires { from < length tree.now }
    ensures { IfOk result (λ at. (e : Expr) → item_at tree.now from ≡ of_expr e → item_at tree.now at ≡ of_expr (bare e)) }
{
    let mut at = from;
    loop {
        let found = opens_bracket(tree, at, parts)?;
        if !found {
            return Ok(at);
        }
        at = parts[0];
    }
}

/// Whether brackets stand at this place. `parts` becomes the places of the parts.
fn opens_bracket(tree: &Tree, at: usize, parts: &mut Vec<usize>) -> Result<bool, NoMemory>
    requires { at < length tree.now }
    ensures { IfOk result (λ found. Steps tree.now at parts.new.items found) }
{
    parts.clear();
    let opened = tree.open(at, parts)?;
    match opened {
        Some(node) => Ok(is_bracket_node(node)),
        None => Ok(false),
    }
}

/// Whether it is a node of brackets.
fn is_bracket_node(node: &Node) -> bool
    ensures { result ≡ is_bracket node.now }
{
    match node {
        Node::Paren(_) => true,
        _ => false,
    }
}
