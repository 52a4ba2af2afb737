//! That a body which is there has a tree, and its statements.

use crate::UnitCode;
use js_frames::Code;
use qml_base::{ExprNo, UnitNo};
use qml_syntax::{Node, Nodes, Tree};
use std::alloc::Global;
use std::process::Abort;
use std::test::Fail;
use unit_rows::{BodyRow, Rows, Unit, UnitBodies};

/// The tree of a body without statements.
fn tree(alloc: Global) -> Result<Tree, Fail> {
    let mut nodes = Nodes::new(alloc);
    nodes.push(Node::Mark)?;
    nodes.push(Node::Body)?;
    Ok(Tree::new(alloc, nodes)?)
}

/// A unit of that body alone.
fn unit(alloc: Global) -> Result<Unit, Fail> {
    let mut rows = Vec::new(alloc);
    rows.push(BodyRow::Statements { at: 1 })?;
    Ok(Unit {
        objects: Rows::new(alloc),
        components: Rows::new(alloc),
        bodies: UnitBodies::new(alloc, tree(alloc)?, rows, Vec::new(alloc))?,
        scripts: Rows::new(alloc),
        functions: Rows::new(alloc),
    })
}

fn finds(rt: &impl Abort, alloc: Global) -> Result<(), Fail> {
    let mut units = Vec::new(alloc);
    units.push(unit(alloc)?)?;
    let code = UnitCode::over(units.as_slice());
    let text = ExprNo {
        unit: UnitNo(0),
        at: 0,
    };
    assert!(rt; code.tree(text).is_some());
    assert_eq!(rt; code.statements(text), Some(0));
    Ok(())
}

#[test]
fn a_body_has_its_tree(rt: HostRuntime) -> Result<(), Fail> {
    finds(&rt, rt.alloc())
}
