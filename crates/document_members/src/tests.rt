//! The rows of a small document and a member of it, with a tree that is built by hand.

ghost use Rattle.std.specs.Prelude.{IfOk};
ghost use Rattle.document_rows.specs.Entries.{IsDocument};

use crate::{Member, read_member};
use document_rows::{MemberRow, ObjectRow, document_rows};
use qml_base::{NoMemory, Place};
use qml_syntax::{Node, Nodes, Tree};
use qml_text::Text;
use std::alloc::Global;
use std::test::Fail;

/// `T { a: T { } }`, with this text for each name.
fn small(alloc: Global, first: Text, name: Text, second: Text) -> Result<Nodes, NoMemory>
    ensures { IfOk result (λ nodes. IsDocument nodes) }
{
    let at = Place { line: 1, column: 1 };
    let mut nodes = Nodes::new(alloc);
    nodes.push(Node::Mark)?;
    nodes.push(Node::First(first, at))?;
    nodes.push(Node::Mark)?;
    nodes.push(Node::First(name, at))?;
    nodes.push(Node::First(second, at))?;
    nodes.push(Node::Mark)?;
    nodes.push(Node::Object)?;
    nodes.push(Node::Given)?;
    nodes.push(Node::Object)?;
    nodes.push(Node::Document)?;
    Ok(nodes)
}

#[test]
fn reads_the_value_of_a_name(rt: HostRuntime) -> Result<(), Fail> {
    let alloc = rt.alloc();
    let name = Text::from_utf8(alloc, b"a")?;
    let nodes = small(alloc, Text::new(), name, Text::new())?;
    let tree = Tree::new(alloc, nodes)?;
    let mut parts = Vec::new(alloc);
    let member = read_member(alloc, &tree, 7, &mut parts)?;
    let told = match &member {
        Member::Given { path, value } => *value == 6 && path.first.len() == 1,
        _ => false,
    };
    assert!(rt; told);
    Ok(())
}

#[test]
fn rows_of_a_small_document(rt: HostRuntime) -> Result<(), Fail> {
    let alloc = rt.alloc();
    let name = Text::from_utf8(alloc, b"a")?;
    let nodes = small(alloc, Text::new(), name, Text::new())?;
    let tree = Tree::new(alloc, nodes)?;
    let rows = document_rows(alloc, &tree)?;
    let root = ObjectRow { node: 8, row: None };
    let inner = ObjectRow {
        node: 6,
        row: Some(0),
    };
    assert_eq!(rt; rows.objects.as_slice(), [root, inner].as_slice());
    let member = MemberRow {
        node: 7,
        object: 0,
        group: None,
        first: 1,
    };
    assert_eq!(rt; rows.members.as_slice(), [member].as_slice());
    Ok(())
}
