//! The function of a small script, with a tree that is built by hand.

ghost use Rattle.std.specs.Prelude.{IfOk};
ghost use Rattle.qml_syntax.specs.Opened.{IsListing};

use crate::{BodiesFault, BodyRow, UnitBodies};
use qml_base::{NoMemory, Place};
use qml_syntax::{Close, Node, Nodes, Tree};
use qml_text::Text;
use std::alloc::Global;
use std::process::Abort;
use std::test::Fail;

/// `function f(a) { a }`, with these texts as its name, and as that of its parameter at both places.
fn small(alloc: Global, name: Text, parameter: Text, used: Text) -> Result<Nodes, NoMemory>
    ensures { IfOk result (λ nodes. IsListing nodes) }
{
    let at = Place { line: 1, column: 1 };
    let mut nodes = Nodes::new(alloc);
    nodes.push(Node::Mark)?;
    nodes.push(Node::First(name, at))?;
    nodes.push(Node::Mark)?;
    nodes.push(Node::ParameterName(parameter))?;
    nodes.push(Node::NoKind)?;
    nodes.push(Node::Parameter)?;
    nodes.push(Node::NoKind)?;
    nodes.push(Node::Mark)?;
    nodes.push(Node::Name(used, at))?;
    nodes.push(Node::Expression(Close::Auto))?;
    nodes.push(Node::Body)?;
    nodes.push(Node::Function(at))?;
    nodes.push(Node::Script(false))?;
    Ok(nodes)
}

/// The bodies of a unit whose one function is said to stand at a place of that tree.
fn bodies_with(alloc: Global, at: u32) -> Result<Result<UnitBodies, BodiesFault>, Fail> {
    let nodes = small(alloc, Text::new(), Text::new(), Text::new())?;
    let tree = Tree::new(alloc, nodes)?;
    let mut rows = Vec::new(alloc);
    rows.push(BodyRow::Function { at })?;
    Ok(UnitBodies::new(alloc, tree, rows, Vec::new(alloc)))
}

fn finds_parts(rt: &impl Abort, alloc: Global) -> Result<(), Fail> {
    let bodies = bodies_with(alloc, 11)??;
    let found = match bodies.body(0) {
        Some(places) => places.text == 10
            && places.statements == Some(7)
            && places.parameters.len() == 1,
        None => false,
    };
    assert!(rt; found);
    Ok(())
}

#[test]
fn a_function_is_placed(rt: HostRuntime) -> Result<(), Fail> {
    finds_parts(&rt, rt.alloc())
}

#[test]
fn where_no_function_stands_is_none(rt: HostRuntime) -> Result<(), Fail> {
    let found = bodies_with(rt.alloc(), 10)?.err();
    assert_eq!(rt; found, Some(BodiesFault::NotThere));
    Ok(())
}
