//! That calls succeed where there is memory, on the worked example `a: 1; b: a + 1; c: a * b - 2`.
ghost use Rattle.std.specs.Prelude.{◌≡◌, ◌<◌};

use crate::{Content, Factor, LiveTree, Product, SettleFault};
use qml_base::Steps;
use sqlite_items::Items;
use std::alloc::{AllocError, Global};
use std::marker::Brand;
use std::process::Abort;
use std::sync::ledger::{Blank, Ledger};
use std::test::Fail;

fn product(alloc: Global, minus: bool, factors: &[Factor]) -> Result<Product, AllocError> {
    Ok(Product {
        minus,
        factors: Items::from_slice(alloc, factors)?,
    })
}

fn sum(alloc: Global, first: Product, second: Product) -> Result<Content, AllocError> {
    let mut products = Vec::new(alloc);
    products.push(first)?;
    products.push(second)?;
    Ok(Content::Sum(Items::from_vec(products)))
}

/// The example, with this number in place of 1.
fn example(alloc: Global, a: i64) -> Result<LiveTree, Fail> {
    let mut tree = LiveTree::new(alloc);
    tree.add(Content::Plain(a))?;
    let a = product(alloc, false, &[Factor::Cell(0)])?;
    let one = product(alloc, false, &[Factor::Num(1)])?;
    tree.add(sum(alloc, a, one)?)?;
    let a_times_b = product(alloc, false, &[Factor::Cell(0), Factor::Cell(1)])?;
    let two = product(alloc, true, &[Factor::Num(2)])?;
    tree.add(sum(alloc, a_times_b, two)?)?;
    Ok(tree)
}

fn settles_example<L: Ledger>(rt: &impl Abort, alloc: Global, blank: Blank) -> Result<(), Fail>
    requires name { blank.name ≡ L.name }
    requires parts { blank.parts ≡ L.parts }
    requires some { 0 < L.parts }
{
    let mut steps = Steps::<L>::new(blank);
    let mut tree = example(alloc, 1)?;
    let changed = tree.settle(alloc, &mut steps)?;
    assert_eq!(rt; changed.cells.as_slice(), [0, 1].as_slice());
    assert_eq!(rt; tree.len(), 3);
    tree.write(0, 5);
    let changed = tree.settle(alloc, &mut steps)?;
    assert_eq!(rt; changed.cells.as_slice(), [0, 1, 2].as_slice());
    assert_eq!(rt; tree.len(), 3);
    assert_eq!(rt; [tree.read(0), tree.read(1), tree.read(2)], [5, 6, 28]);
    Ok(())
}

fn stops_past_limit<L: Ledger>(rt: &impl Abort, alloc: Global, blank: Blank) -> Result<(), Fail>
    requires name { blank.name ≡ L.name }
    requires parts { blank.parts ≡ L.parts }
    requires some { 0 < L.parts }
{
    let mut steps = Steps::<L>::new(blank);
    let mut tree = example(alloc, 9007199254740992)?;
    let fault = tree.settle(alloc, &mut steps).err();
    assert_eq!(rt; fault, Some(SettleFault::Past { cell: 1 }));
    Ok(())
}

#[test]
fn example_settles(rt: HostRuntime) -> Result<(), Fail> {
    settles_example::<Brand>(&rt, rt.alloc(), Blank::new(1))
}

#[test]
fn past_limit_stops(rt: HostRuntime) -> Result<(), Fail> {
    stops_past_limit::<Brand>(&rt, rt.alloc(), Blank::new(1))
}
