//! What a cell holds and how it ended.

use crate::calls::{cell, end, hold, one_cell};
use qml_value::Value;
use std::alloc::Global;
use std::process::Abort;
use std::test::Fail;
use tree_model::Outcome;

fn holds(rt: &impl Abort, alloc: Global) -> Result<(), Fail> {
    let mut store = one_cell(alloc)?;
    assert!(rt; matches!(hold(&mut store, cell(0), 4), Some(Value::Undefined)));
    assert!(rt; hold(&mut store, cell(1), 4).is_none());
    assert_eq!(rt;
        end(&mut store, cell(0), Outcome::Loop),
        Some(Outcome::Loop)
    );
    Ok(())
}

#[test]
fn cells_hold_values(rt: HostRuntime) -> Result<(), Fail> {
    holds(&rt, rt.alloc())
}
