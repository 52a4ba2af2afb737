//! The tree of a unit without code.

use qml_syntax::{Node, Nodes, Tree};
use std::alloc::Global;
use std::test::Fail;

/// The tree of a body without statements.
pub fn empty_body(alloc: Global) -> Result<Tree, Fail> {
    let mut nodes = Nodes::new(alloc);
    nodes.push(Node::Mark)?;
    nodes.push(Node::Body)?;
    Ok(Tree::new(alloc, nodes)?)
}
