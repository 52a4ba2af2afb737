//! References to an object that goes, inside lists and fields, in what a cell contains and in what it holds.

use crate::calls::{cell, clear_notes, noted, scrubbed};
use property_store::Store;
use qml_base::{CellNo, ObjNo};
use qml_text::Text;
use qml_value::{Fields, List, Value};
use std::alloc::Global;
use std::process::Abort;
use std::test::Fail;
use tree_model::Content;

/// A list of one value.
fn listed(alloc: Global, value: Value) -> Result<Value, Fail> {
    let mut values = Vec::new(alloc);
    values.push(value)?;
    Ok(Value::List(List::from_vec(values)?))
}

/// Fields of which the one of the name is object 2.
fn fields(alloc: Global, name: &[u8]) -> Result<Value, Fail> {
    let mut fields = Fields::new(alloc);
    fields.put(Text::from_latin1(alloc, name)?, Value::Object(ObjNo(2)))?;
    Ok(Value::Fields(fields))
}

/// Whether the value is a list that begins with fields that have null under the name.
fn has_null(v: &Value, name: &Text) -> bool {
    match v {
        Value::List(values) => match values.parts().first() {
            Some(Value::Fields(fields)) => matches!(fields.get(name), Some(Value::Null)),
            _ => false,
        },
        _ => false,
    }
}

/// Whether what the cell holds is such a list.
fn holds_null(store: &Store, c: CellNo, name: &Text) -> bool {
    if store.place(c) >= store.len() {
        return false;
    }
    has_null(store.held(c), name)
}

/// Whether what it contains is such a list.
fn contains_null(store: &Store, c: CellNo, name: &Text) -> bool {
    if store.place(c) >= store.len() {
        return false;
    }
    match store.content(c) {
        Content::Plain(v) => has_null(v, name),
        Content::Bound(_) => false,
    }
}

fn scrubs(rt: &impl Abort, alloc: Global) -> Result<(), Fail> {
    let content = listed(alloc, fields(alloc, b"a")?)?;
    let held = listed(alloc, fields(alloc, b"a")?)?;
    let mut store = scrubbed(alloc, content, held)?;
    let name = Text::from_latin1(alloc, b"a")?;
    assert!(rt; holds_null(&store, cell(0), &name));
    assert!(rt; contains_null(&store, cell(0), &name));
    assert_eq!(rt; noted(&store, 0), Some((0, cell(0))));
    assert_eq!(rt; noted(&store, 1), None);
    clear_notes(&mut store);
    assert_eq!(rt; noted(&store, 0), None);
    Ok(())
}

#[test]
fn references_become_null(rt: HostRuntime) -> Result<(), Fail> {
    scrubs(&rt, rt.alloc())
}
