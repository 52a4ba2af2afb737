//! The rules that are built in: each in the cells of an Item that is a Repeater too.

ghost use Rattle.std.specs.Prelude.{◌≡◌, ◌<◌};

use copy_trees::calls::{add, empty, held, settle};
use copy_trees::given::{Given, cell, cells};
use live_tree::LiveTree;
use qml_base::{ObjNo, Steps};
use std::alloc::Global;
use std::marker::Brand;
use std::process::Abort;
use std::sync::ledger::{Blank, Ledger};
use std::test::Fail;
use tree_model::Rule;

/// What an Item contains: no parent where it is object 1, which isn't shown, and that one as its parent where it is object 2;
/// its switches for `visible` and `enabled`, a model of 3 rows, and at place 16 the value that place 3 of object 1 has.
const fn item(o: u32, parent: Given, shown: bool) -> [Given; 17] {
    [
        Given::Null,
        Given::Null,
        Given::Null,
        Given::Number(5),
        Given::Null,
        Given::Null,
        Given::Truth(shown),
        Given::Own(Rule::Visible, o),
        Given::Truth(true),
        Given::Own(Rule::Enabled, o),
        Given::Null,
        Given::Null,
        parent,
        Given::Number(3),
        Given::Null,
        Given::Own(Rule::Count, o),
        Given::Own(Rule::Follow(ObjNo(1)), o),
    ]
}

/// Two Items, the second in the first, which isn't shown.
fn example(alloc: Global) -> Result<LiveTree, Fail> {
    let mut tree = empty(alloc);
    let first = cells(alloc, &item(1, Given::Null, false))?;
    add(alloc, &mut tree, 0, first)?;
    let second = cells(alloc, &item(2, Given::Object(1), true))?;
    add(alloc, &mut tree, 1, second)?;
    Ok(tree)
}

/// Whether the cell holds the number, or tells false (0) or true (1).
fn holds(tree: &LiveTree, object: u32, place: u32, n: i64) -> bool {
    held(tree, cell(object, place)) == Some(n)
}

/// Whether neither Item is shown, and both take input.
fn shows(tree: &LiveTree) -> bool {
    holds(tree, 1, 7, 0) && holds(tree, 2, 7, 0) && holds(tree, 1, 9, 1) && holds(tree, 2, 9, 1)
}

fn rules<L: Ledger>(rt: &impl Abort, alloc: Global, steps: &mut Steps<L>) -> Result<(), Fail> {
    let mut tree = example(alloc)?;
    settle(alloc, &mut tree, steps)?;
    assert!(rt; shows(&tree));
    assert!(rt; holds(&tree, 2, 15, 3));
    assert!(rt; holds(&tree, 2, 16, 5));
    Ok(())
}

fn begun<L: Ledger>(rt: &impl Abort, alloc: Global, blank: Blank) -> Result<(), Fail>
    requires name { blank.name ≡ L.name }
    requires parts { blank.parts ≡ L.parts }
    requires some { 0 < L.parts }
{
    let mut steps = Steps::<L>::new(blank);
    rules(rt, alloc, &mut steps)
}

#[test]
fn built_in_rules_settle(rt: HostRuntime) -> Result<(), Fail> {
    begun::<Brand>(&rt, rt.alloc(), Blank::new(1))
}
