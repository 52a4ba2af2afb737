//! Trees of nodes that are built by hand.

ghost use Rattle.std.specs.Prelude.{◌≡◌, OnOk, IfOk};
ghost use Rattle.qml_syntax.specs.Listed.{listed};
ghost use Rattle.qml_syntax.specs.Opened.{IsListing};
ghost use Rattle.level_tests.specs.Example.{called, negated, keyed};

use crate::walk::{inside_brackets, left_out};
use qml_base::{NoMemory, Place};
use qml_syntax::{Node, Nodes, Prefix, Tree};
use qml_text::Text;
use std::alloc::Global;
use std::test::Fail;

/// Where all nodes of the examples stand.
const HERE: Place = Place { line: 1, column: 1 };

/// `1(2, [3])[4]`, behind other nodes.
fn push_called(nodes: &mut Nodes) -> Result<(), NoMemory>
    ensures { OnOk result (nodes.new ≡ listed called nodes.old) }
{
    nodes.push(Node::Number(1, HERE))?;
    nodes.push(Node::Mark)?;
    nodes.push(Node::Number(2, HERE))?;
    nodes.push(Node::Mark)?;
    nodes.push(Node::Number(3, HERE))?;
    nodes.push(Node::List(HERE, false))?;
    nodes.push(Node::Call(HERE))?;
    nodes.push(Node::Number(4, HERE))?;
    nodes.push(Node::Element(HERE))?;
    nodes.push(Node::Steps)
}

/// `- 5`, behind other nodes.
fn push_negated(nodes: &mut Nodes) -> Result<(), NoMemory>
    ensures { OnOk result (nodes.new ≡ listed negated nodes.old) }
{
    nodes.push(Node::Number(5, HERE))?;
    nodes.push(Node::Signed(true, Prefix::Minus, HERE))
}

/// `{"": 6}`, behind other nodes.
fn push_keyed(alloc: Global, nodes: &mut Nodes) -> Result<(), NoMemory>
    ensures { OnOk result (nodes.new ≡ listed keyed nodes.old) }
{
    nodes.push(Node::Mark)?;
    nodes.push(Node::Key(true, Text::new(), HERE))?;
    nodes.push(Node::Number(6, HERE))?;
    nodes.push(Node::Fields(HERE, false))
}

/// `1(2, [3])[4] ? - 5 : {"": 6}`.
fn example(alloc: Global) -> Result<Nodes, NoMemory>
    ensures { IfOk result (λ nodes. IsListing nodes) }
{
    let mut nodes = Nodes::new(alloc);
    push_called(&mut nodes)?;
    push_negated(&mut nodes)?;
    nodes.push(Node::Choice(true))?;
    push_keyed(alloc, &mut nodes)?;
    nodes.push(Node::Choose)?;
    Ok(nodes)
}

/// A number in this many brackets.
fn nested(alloc: Global, number: u64, depth: usize) -> Result<Nodes, NoMemory>
    ensures { IfOk result (λ nodes. IsListing nodes) }
{
    let mut nodes = Nodes::new(alloc);
    nodes.push(Node::Number(number, HERE))?;
    for _ in 0..depth {
        nodes.push(Node::Paren(HERE))?;
    }
    Ok(nodes)
}

/// The parts that each node of the example takes.
const PARTS: [&str; 18] = [
    "[]",
    "[]",
    "[]",
    "[]",
    "[]",
    "[3, 4]",
    "[1, 2, 5]",
    "[]",
    "[7]",
    "[0, 6, 8]",
    "[]",
    "[10]",
    "[9, 11]",
    "[]",
    "[]",
    "[]",
    "[13, 14, 15]",
    "[12, 16]",
];

#[test]
fn each_level_opens(rt: HostRuntime) -> Result<(), Fail> {
    let alloc = rt.alloc();
    let tree = Tree::new(alloc, example(alloc)?)?;
    assert_eq!(rt; tree.len(), 18);
    assert_eq!(rt; tree.root(), 17);
    let mut parts = Vec::new(alloc);
    for (at, wanted) in PARTS.iter().enumerate() {
        parts.clear();
        assert!(rt; tree.open(at, &mut parts)?.is_some(), "at {at}");
        assert_eq!(rt;
            format!(in alloc; "{parts:?}")?.as_str(),
            *wanted,
            "at {at}"
        );
    }
    assert!(rt; tree.open(18, &mut parts)?.is_none());
    assert_eq!(rt; format!(in alloc; "{parts:?}")?.as_str(), "[12, 16]");
    Ok(())
}

/// 4 MiB of brackets: each has two bytes.
const MANY: usize = 2_097_152;

#[test]
fn brackets_need_no_stack(rt: HostRuntime) -> Result<(), Fail> {
    let alloc = rt.alloc();
    let tree = Tree::new(alloc, nested(alloc, 1, MANY)?)?;
    let same = Tree::new(alloc, nested(alloc, 1, MANY)?)?;
    let other = Tree::new(alloc, nested(alloc, 2, MANY)?)?;
    assert!(rt; tree.same(&same));
    assert!(rt; !tree.same(&other));
    let mut parts = Vec::new(alloc);
    let at = inside_brackets(&tree, tree.root(), &mut parts)?;
    assert_eq!(rt; at, 0);
    assert_eq!(rt; left_out(alloc, &tree)?, 0);
    Ok(())
}
