//! A number past the limit.

ghost use Rattle.std.specs.Prelude.{◌≡◌, ◌<◌};

use copy_trees::calls::{add, empty, held, settle};
use copy_trees::given::{Given, cell, cells};
use live_tree::SettleFault;
use qml_base::Steps;
use std::alloc::Global;
use std::marker::Brand;
use std::process::Abort;
use std::sync::ledger::{Blank, Ledger};
use std::test::Fail;

/// 7, a copy of the third, and a number past the limit.
const GIVEN: [Given; 3] = [Given::Number(7), Given::Text(0, 2, 1), Given::Text(2, 0, 1)];

fn stops<L: Ledger>(rt: &impl Abort, alloc: Global, steps: &mut Steps<L>) -> Result<(), Fail> {
    let mut tree = empty(alloc);
    add(alloc, &mut tree, 0, cells(alloc, &GIVEN)?)?;
    let fault = settle(alloc, &mut tree, steps).err();
    assert_eq!(rt; fault, Some(SettleFault::Past { cell: cell(1, 1) }));
    assert_eq!(rt; held(&tree, cell(1, 0)), None);
    Ok(())
}

fn begun<L: Ledger>(rt: &impl Abort, alloc: Global, blank: Blank) -> Result<(), Fail>
    requires name { blank.name ≡ L.name }
    requires parts { blank.parts ≡ L.parts }
    requires some { 0 < L.parts }
{
    let mut steps = Steps::<L>::new(blank);
    stops(rt, alloc, &mut steps)
}

#[test]
fn past_the_limit_names_the_lowest_cell(rt: HostRuntime) -> Result<(), Fail> {
    begun::<Brand>(&rt, rt.alloc(), Blank::new(1))
}
