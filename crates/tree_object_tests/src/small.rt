//! A small tree with owners and origins.

use crate::calls::{add, condemn, is_live, lists, owner, remove_doomed};
use object_tree::{AddFault, Tree};
use qml_base::ObjNo;
use std::alloc::Global;
use std::process::Abort;
use std::test::Fail;

/// 1 owns 4 and 2, 2 owns 3, and 5 was made from 3.
fn example(alloc: Global) -> Result<Tree, AddFault> {
    let mut tree = Tree::new(alloc);
    add(&mut tree, 0, 0)?;
    add(&mut tree, 1, 0)?;
    add(&mut tree, 2, 0)?;
    add(&mut tree, 1, 0)?;
    add(&mut tree, 0, 3)?;
    Ok(tree)
}

fn origins(rt: &impl Abort, alloc: Global) -> Result<(), Fail> {
    let mut tree = example(alloc)?;
    assert_eq!(rt; owner(&tree, 3), Some(ObjNo(2)));
    assert_eq!(rt; condemn(&mut tree, 4), 1);
    assert_eq!(rt; condemn(&mut tree, 2), 4);
    assert!(rt; lists(&mut tree, &[ObjNo(2), ObjNo(3), ObjNo(4), ObjNo(5)]));
    assert_eq!(rt; remove_doomed(&mut tree), 1);
    assert!(rt; !is_live(&tree, 5));
    assert_eq!(rt; add(&mut tree, 1, 1), Ok(ObjNo(6)));
    Ok(())
}

#[test]
fn what_was_made_goes_too(rt: HostRuntime) -> Result<(), Fail> {
    origins(&rt, rt.alloc())
}
