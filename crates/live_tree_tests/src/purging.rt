//! A tree of which an object is condemned and removed: what its instance was, what it authored and what named it.

ghost use Rattle.std.specs.Prelude.{◌≡◌, ◌<◌};

use copy_trees::calls::{
    add, add_root, condemn, doomed, empty, held, purge, rebind, settle, tells, told_of,
};
use copy_trees::given::{Given, cell, cells};
use live_tree::LiveTree;
use qml_base::{ObjNo, Steps};
use std::alloc::Global;
use std::marker::Brand;
use std::process::Abort;
use std::sync::ledger::{Blank, Ledger};
use std::test::Fail;

/// A cell that names object 2, one that is bound by that one's text to copy the third, and 5.
const GIVEN: [Given; 3] = [Given::Object(2), Given::Text(0, 2, 2), Given::Number(5)];

/// Object 1 with these cells, and object 2, the root of an instance.
fn example(alloc: Global) -> Result<LiveTree, Fail> {
    let mut tree = empty(alloc);
    add(alloc, &mut tree, 0, cells(alloc, &GIVEN)?)?;
    add_root(alloc, &mut tree)?;
    Ok(tree)
}

fn purges<L: Ledger>(rt: &impl Abort, alloc: Global, steps: &mut Steps<L>) -> Result<(), Fail> {
    let mut tree = example(alloc)?;
    settle(alloc, &mut tree, steps)?;
    condemn(&mut tree, 2);
    assert_eq!(rt; doomed(&tree), 1);
    assert_eq!(rt; told_of(&tree, ObjNo(2)), (1, 1));
    let told = purge(alloc, &mut tree, steps)?;
    assert!(rt; tells(&told, &[], &[]));
    assert_eq!(rt; doomed(&tree), 0);
    assert_eq!(rt; told_of(&tree, ObjNo(2)), (0, 0));
    Ok(())
}

fn leaves<L: Ledger>(rt: &impl Abort, alloc: Global, steps: &mut Steps<L>) -> Result<(), Fail> {
    let mut tree = example(alloc)?;
    settle(alloc, &mut tree, steps)?;
    condemn(&mut tree, 2);
    purge(alloc, &mut tree, steps)?;
    let told = settle(alloc, &mut tree, steps)?;
    assert!(rt; tells(&told, &[cell(1, 0)], &[]));
    assert_eq!(rt; held(&tree, cell(1, 1)), Some(5));
    assert!(rt; rebind(&mut tree, cell(1, 1)));
    Ok(())
}

fn both<L: Ledger>(rt: &impl Abort, alloc: Global, blank: Blank) -> Result<(), Fail>
    requires name { blank.name ≡ L.name }
    requires parts { blank.parts ≡ L.parts }
    requires some { 0 < L.parts }
{
    let mut steps = Steps::<L>::new(blank);
    purges(rt, alloc, &mut steps)?;
    leaves(rt, alloc, &mut steps)
}

#[test]
fn removed_objects_leave_null(rt: HostRuntime) -> Result<(), Fail> {
    both::<Brand>(&rt, rt.alloc(), Blank::new(1))
}
