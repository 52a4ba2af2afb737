//! 100,000 objects, each of which owns the next.

use crate::calls::{add, condemn, is_live, lists, owner, remove, remove_doomed};
use object_tree::{AddFault, Tree};
use qml_base::ObjNo;
use std::alloc::Global;
use std::process::Abort;
use std::test::Fail;

const OBJECTS: u32 = 100_000;

/// So many objects, each of which owns the next.
fn deep(alloc: Global, count: u32) -> Result<Tree, AddFault> {
    let mut tree = Tree::new(alloc);
    for i in 0..count {
        add(&mut tree, i, 0)?;
    }
    Ok(tree)
}

fn deep_goes(rt: &impl Abort, alloc: Global) -> Result<(), Fail> {
    let mut tree = deep(alloc, OBJECTS)?;
    assert_eq!(rt; add(&mut tree, 0, 0), Err(AddFault::Full { live: OBJECTS }));
    assert_eq!(rt; owner(&tree, OBJECTS), Some(ObjNo(OBJECTS - 1)));
    assert_eq!(rt; condemn(&mut tree, OBJECTS), 1);
    assert!(rt; remove(&mut tree, OBJECTS));
    assert_eq!(rt; add(&mut tree, 0, 0), Ok(ObjNo(OBJECTS + 1)));
    assert_eq!(rt; condemn(&mut tree, 1), OBJECTS as usize - 1);
    assert_eq!(rt; remove_doomed(&mut tree), 1);
    assert!(rt; !is_live(&tree, 1));
    Ok(())
}

/// Condemns all objects, one call each, from the highest number down.
fn condemn_down(tree: &mut Tree) {
    for k in 0..OBJECTS {
        tree.condemn(ObjNo(OBJECTS - k));
    }
}

fn goes_down(rt: &impl Abort, alloc: Global) -> Result<(), Fail> {
    let mut tree = deep(alloc, OBJECTS)?;
    condemn_down(&mut tree);
    assert!(rt; !lists(&mut tree, &[ObjNo(1)]));
    assert_eq!(rt; remove_doomed(&mut tree), 0);
    Ok(())
}

#[test]
fn deep_trees_are_condemned(rt: HostRuntime) -> Result<(), Fail> {
    deep_goes(&rt, rt.alloc())
}

#[test]
fn one_by_one_from_the_last(rt: HostRuntime) -> Result<(), Fail> {
    goes_down(&rt, rt.alloc())
}
