//! Long rows of bindings.

ghost use Rattle.std.specs.Prelude.{◌≡◌, ◌<◌};

use copy_trees::calls::{add, empty, held, settle};
use copy_trees::given::{Copied, cell, copies};
use qml_base::Steps;
use std::alloc::Global;
use std::marker::Brand;
use std::process::Abort;
use std::sync::ledger::{Blank, Ledger};
use std::test::Fail;

const CELLS: u32 = 50_000;

/// How many cells and reports are told of such a row, and what its first cell holds.
fn told_of<L: Ledger>(
    alloc: Global,
    copied: Copied,
    steps: &mut Steps<L>,
) -> Result<(usize, usize, Option<i64>), Fail> {
    let mut tree = empty(alloc);
    add(alloc, &mut tree, 0, copies(alloc, copied, CELLS)?)?;
    let told = settle(alloc, &mut tree, steps)?;
    Ok((
        told.cells.len(),
        told.reports.len(),
        held(&tree, cell(1, 0)),
    ))
}

fn rows<L: Ledger>(rt: &impl Abort, alloc: Global, blank: Blank) -> Result<(), Fail>
    requires name { blank.name ≡ L.name }
    requires parts { blank.parts ≡ L.parts }
    requires some { 0 < L.parts }
{
    let mut steps = Steps::<L>::new(blank);
    let all = CELLS as usize;
    let down = told_of(alloc, Copied::Next, &mut steps)?;
    assert_eq!(rt; down, (all, 0, Some(7)));
    let circle = told_of(alloc, Copied::Circle, &mut steps)?;
    assert_eq!(rt; circle, (0, all, None));
    Ok(())
}

#[test]
fn long_rows_settle(rt: HostRuntime) -> Result<(), Fail> {
    rows::<Brand>(&rt, rt.alloc(), Blank::new(1))
}
