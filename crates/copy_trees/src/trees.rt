//! Whole trees, and long runs of calls.

use crate::calls::{add, condemn, doomed, empty, purge, settle, write};
use crate::given::{Copied, cell, copies};
use live_tree::{AddFault, LiveTree};
use qml_base::Steps;
use std::alloc::Global;
use std::sync::ledger::Ledger;

/// Object 1 with so many cells that copy one another.
pub fn row(alloc: Global, copied: Copied, count: u32) -> Result<LiveTree, AddFault> {
    let cells = copies(alloc, copied, count)?;
    let mut tree = empty(alloc);
    add(alloc, &mut tree, 0, cells)?;
    Ok(tree)
}

/// How many cells and reports a settling tells; none where it fails.
pub fn told<L: Ledger>(alloc: Global, tree: &mut LiveTree, steps: &mut Steps<L>) -> usize {
    match settle(alloc, tree, steps) {
        Ok(told) => told.cells.len().saturating_add(told.reports.len()),
        Err(_) => 0,
    }
}

/// Settles, and again after each of so many writes of the first cell of object 1, and tells how much all of that tells.
pub fn told_of_writes<L: Ledger>(
    alloc: Global,
    tree: &mut LiveTree,
    writes: u32,
    steps: &mut Steps<L>,
) -> usize {
    let mut all = told(alloc, tree, steps);
    for n in 0..writes {
        write(alloc, tree, cell(1, 0), n);
        all = all.saturating_add(told(alloc, tree, steps));
    }
    all
}

/// Which object owns each of so many.
#[derive(Clone, Copy)]
pub enum Owners {
    /// The one before it.
    Before,
    /// The first one.
    First,
}

/// So many objects without cells; fewer where there is no memory.
pub fn owned(alloc: Global, owners: Owners, count: u32) -> LiveTree {
    let mut tree = empty(alloc);
    for i in 0..count {
        let owner = match owners {
            Owners::Before => i,
            Owners::First => 1,
        };
        if add(alloc, &mut tree, owner, Vec::new(alloc)).is_err() {
            return tree;
        }
    }
    tree
}

/// Condemns the objects up to this number, one call each, from the highest down, and tells how many are condemned then.
pub fn condemn_down(tree: &mut LiveTree, highest: u32) -> usize {
    for k in 0..highest {
        condemn(tree, highest - k);
    }
    doomed(tree)
}

/// How many objects are live once it has settled and all that are condemned are removed.
pub fn left<L: Ledger>(alloc: Global, tree: &mut LiveTree, steps: &mut Steps<L>) -> u32 {
    let _ = purge(alloc, tree, steps);
    tree.live()
}
