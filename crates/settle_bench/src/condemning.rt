//! Objects that are condemned and removed.

use crate::Measure;
use crate::telling::{micros, tell};
use copy_trees::calls::{condemn, doomed};
use copy_trees::trees::{Owners, condemn_down, left, owned};
use live_tree::LiveTree;
use qml_base::Steps;
use std::io;
use std::sync::ledger::Ledger;

/// Adds objects, and tells how many are live.
fn add(rt: &HostRuntime, what: &str, owners: Owners, measure: Measure) -> io::Result<LiveTree> {
    let begun = micros(rt)?;
    let tree = owned(rt.alloc(), owners, measure.objects);
    tell(rt, what, tree.live() as usize, begun, measure.timed)?;
    Ok(tree)
}

/// Condemns one object, and tells how many are condemned then.
fn condemn_one(
    rt: &HostRuntime,
    what: &str,
    tree: &mut LiveTree,
    o: u32,
    measure: Measure,
) -> io::Result<()> {
    let begun = micros(rt)?;
    condemn(tree, o);
    tell(rt, what, doomed(tree), begun, measure.timed)
}

/// Removes the condemned objects, and tells how many are left.
fn remove<L: Ledger>(
    rt: &HostRuntime,
    tree: &mut LiveTree,
    measure: Measure,
    steps: &mut Steps<L>,
) -> io::Result<()> {
    let begun = micros(rt)?;
    let live = left(rt.alloc(), tree, steps);
    tell(rt, "left", live as usize, begun, measure.timed)
}

/// Objects each of which owns the next: the last one is condemned, and then the first.
pub fn chain<L: Ledger>(
    rt: &HostRuntime,
    measure: Measure,
    steps: &mut Steps<L>,
) -> io::Result<()> {
    let mut tree = add(rt, "added in a row", Owners::Before, measure)?;
    condemn_one(
        rt,
        "condemned the leaf",
        &mut tree,
        measure.objects,
        measure,
    )?;
    condemn_one(rt, "condemned the root", &mut tree, 1, measure)?;
    remove(rt, &mut tree, measure, steps)
}

/// Objects all of which the first one owns: they are condemned one by one, from the last on.
pub fn wide<L: Ledger>(rt: &HostRuntime, measure: Measure, steps: &mut Steps<L>) -> io::Result<()> {
    let mut tree = add(rt, "added under one", Owners::First, measure)?;
    let begun = micros(rt)?;
    let many = condemn_down(&mut tree, measure.objects);
    tell(rt, "condemned from the last on", many, begun, measure.timed)?;
    remove(rt, &mut tree, measure, steps)
}
