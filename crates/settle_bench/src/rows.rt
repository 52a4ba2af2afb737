//! Rows of cells that copy one another.

use crate::Measure;
use crate::telling::{micros, tell};
use copy_trees::given::Copied;
use copy_trees::trees::{row, told_of_writes};
use qml_base::Steps;
use std::io;
use std::sync::ledger::Ledger;

/// Settles one object's cells, and again after each of so many writes of the first.
fn settle<L: Ledger>(
    rt: &HostRuntime,
    what: &str,
    copied: Copied,
    writes: u32,
    measure: Measure,
    steps: &mut Steps<L>,
) -> io::Result<()> {
    let Ok(mut tree) = row(rt.alloc(), copied, measure.cells) else {
        return println!(rt; "no memory");
    };
    let begun = micros(rt)?;
    let told = told_of_writes(rt.alloc(), &mut tree, writes, steps);
    tell(rt, what, told, begun, measure.timed)
}

/// In a binary tree with 16 writes, each the next one, and in a circle.
pub fn rows<L: Ledger>(rt: &HostRuntime, measure: Measure, steps: &mut Steps<L>) -> io::Result<()> {
    settle(rt, "tree", Copied::Parent, 16, measure, steps)?;
    settle(rt, "down", Copied::Next, 0, measure, steps)?;
    settle(rt, "circle", Copied::Circle, 0, measure, steps)
}
