//! Values, copies, a loop and a throw.

ghost use Rattle.std.specs.Prelude.{◌≡◌, ◌<◌};

use copy_trees::calls::{add, empty, held, put_back, settle, tells, write};
use copy_trees::given::{Given, cell, cells};
use live_tree::{Changed, LiveTree};
use qml_base::{Cause, Steps};
use std::alloc::Global;
use std::marker::Brand;
use std::process::Abort;
use std::sync::ledger::{Blank, Ledger};
use std::test::Fail;
use tree_model::Report;

/// A copy of the copy, a copy of 7, 7, a cell that reads itself, one that throws, and a copy of that one.
const EXAMPLE: [Given; 6] = [
    Given::Text(0, 1, 1),
    Given::Text(0, 2, 1),
    Given::Number(7),
    Given::Text(0, 3, 1),
    Given::Text(1, 0, 1),
    Given::Text(0, 4, 1),
];

fn example(alloc: Global) -> Result<LiveTree, Fail> {
    let mut tree = empty(alloc);
    add(alloc, &mut tree, 0, cells(alloc, &EXAMPLE)?)?;
    Ok(tree)
}

/// Whether the first settling told the changed cells in the order of places, the loop and the throw, each once.
fn tells_all(told: &Changed) -> bool {
    let looped = Report {
        cell: cell(1, 3),
        cause: None,
    };
    let threw = Report {
        cell: cell(1, 4),
        cause: Some(Cause::Name),
    };
    let changed = [cell(1, 0), cell(1, 1), cell(1, 2)];
    tells(told, &changed, &[looped, threw])
}

fn settles<L: Ledger>(rt: &impl Abort, alloc: Global, steps: &mut Steps<L>) -> Result<(), Fail> {
    let mut tree = example(alloc)?;
    let told = settle(alloc, &mut tree, steps)?;
    assert!(rt; tells_all(&told));
    assert_eq!(rt; held(&tree, cell(1, 0)), Some(7));
    let told = settle(alloc, &mut tree, steps)?;
    assert!(rt; tells(&told, &[], &[]));
    Ok(())
}

fn writes<L: Ledger>(rt: &impl Abort, alloc: Global, steps: &mut Steps<L>) -> Result<(), Fail> {
    let mut tree = example(alloc)?;
    settle(alloc, &mut tree, steps)?;
    assert!(rt; write(alloc, &mut tree, cell(1, 2), 8));
    let told = settle(alloc, &mut tree, steps)?;
    assert!(rt; tells(&told, &[cell(1, 0), cell(1, 1), cell(1, 2)], &[]));
    assert_eq!(rt; held(&tree, cell(1, 0)), Some(8));
    Ok(())
}

fn puts_back<L: Ledger>(rt: &impl Abort, alloc: Global, steps: &mut Steps<L>) -> Result<(), Fail> {
    let mut tree = example(alloc)?;
    settle(alloc, &mut tree, steps)?;
    assert!(rt; put_back(&mut tree, cell(1, 2)));
    let told = settle(alloc, &mut tree, steps)?;
    assert!(rt; tells(&told, &[], &[]));
    Ok(())
}

fn all<L: Ledger>(rt: &impl Abort, alloc: Global, blank: Blank) -> Result<(), Fail>
    requires name { blank.name ≡ L.name }
    requires parts { blank.parts ≡ L.parts }
    requires some { 0 < L.parts }
{
    let mut steps = Steps::<L>::new(blank);
    settles(rt, alloc, &mut steps)?;
    writes(rt, alloc, &mut steps)?;
    puts_back(rt, alloc, &mut steps)
}

#[test]
fn values_settle(rt: HostRuntime) -> Result<(), Fail> {
    all::<Brand>(&rt, rt.alloc(), Blank::new(1))
}
