//! That the deliveries of a signal are listed where there is memory: the reaction of a Connections to a change of its target, and
//! its own handler.

use instance_plans::Planned;
use live_tree::LiveTree;
use machine_state::State;
use own_handlers::{Deed, Delivery, Signal};
use qml_base::ObjNo;
use qml_syntax::{Node, Nodes, Tree};
use qml_text::Text;
use qml_types::{TypeNo, TypeRef};
use signal_dispatch::deliveries;
use std::alloc::Global;
use std::process::Abort;
use std::test::Fail;
use type_rows::TypeRows;
use unit_rows::{HandlerRow, ObjectRow, Rows, SignalRef, Unit, UnitBodies};

/// The tree of a body without statements.
fn empty_body(alloc: Global) -> Result<Tree, Fail> {
    let mut nodes = Nodes::new(alloc);
    nodes.push(Node::Mark)?;
    nodes.push(Node::Body)?;
    Ok(Tree::new(alloc, nodes)?)
}

/// `onTargetChanged`, and a handler of another change.
fn handlers(alloc: Global) -> Result<Rows<HandlerRow>, Fail> {
    let mut handlers = Rows::new(alloc);
    handlers.push(HandlerRow {
        signal: SignalRef::Change(1),
        body: 0,
    })?;
    handlers.push(HandlerRow {
        signal: SignalRef::Change(2),
        body: 0,
    })?;
    Ok(handlers)
}

/// A Connections as the root.
fn root(alloc: Global) -> Result<ObjectRow, Fail> {
    Ok(ObjectRow {
        shown: Text::from_latin1(alloc, b"Connections")?,
        of_type: TypeRef::Builtin(TypeNo::Connections),
        owner: None,
        is_child: false,
        is_held: false,
        holds: None,
        cells: Rows::new(alloc),
        values: Rows::new(alloc),
        changes: Rows::new(alloc),
        handlers: handlers(alloc)?,
        names: Rows::new(alloc),
        elements: Rows::new(alloc),
    })
}

fn document(alloc: Global) -> Result<Unit, Fail> {
    let mut objects = Rows::new(alloc);
    objects.push(root(alloc)?)?;
    Ok(Unit {
        objects,
        components: Rows::new(alloc),
        bodies: UnitBodies::new(alloc, empty_body(alloc)?, Vec::new(alloc), Vec::new(alloc))?,
        scripts: Rows::new(alloc),
        functions: Rows::new(alloc),
    })
}

fn units(alloc: Global) -> Result<Vec<Unit>, Fail> {
    let mut units = Vec::new(alloc);
    units.push(document(alloc)?)?;
    Ok(units)
}

/// The machine in which the root has the number 1.
fn machine<'a>(alloc: Global, units: &'a [Unit]) -> Result<State<'a>, Fail> {
    let mut written = Vec::new(alloc);
    written.push(Planned {
        number: 1,
        unit: 0,
        object: 0,
        is_around: false,
        owner: None,
    })?;
    Ok(State {
        units,
        tree: LiveTree::new(alloc),
        written,
        time: 0,
        turns: 0,
        trace: Vec::new(alloc),
        answered: 0,
    })
}

/// What the signal of a number brings.
fn listed(alloc: Global, units: &[Unit], number: u32) -> Result<Vec<Delivery>, Fail> {
    let types = TypeRows::new(alloc)?;
    let state = machine(alloc, units)?;
    let list = deliveries(
        alloc,
        &types,
        &state,
        ObjNo(1),
        Signal::Numbered(number),
        &[],
    )?;
    Ok(list)
}

/// Whether it is a reaction.
fn is_reaction(delivery: &Delivery) -> bool {
    matches!(delivery.deed, Deed::Reacts(_))
}

fn target_is_heard(rt: &impl Abort, alloc: Global) -> Result<(), Fail> {
    let units = units(alloc)?;
    let list = listed(alloc, units.as_slice(), 2)?;
    assert_eq!(rt; list.len(), 2);
    assert_eq!(rt; is_reaction(&list[0]), true);
    assert_eq!(rt; is_reaction(&list[1]), false);
    Ok(())
}

#[test]
fn a_change_of_the_target_is_heard(rt: HostRuntime) -> Result<(), Fail> {
    target_is_heard(&rt, rt.alloc())
}
