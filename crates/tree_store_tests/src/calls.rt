//! The calls of the store without clauses, and the cells that tests begin with.

use property_store::Store;
use qml_base::{CellNo, ObjNo};
use qml_types::PropKind;
use qml_value::{Num, Value};
use std::alloc::Global;
use std::test::Fail;
use tree_model::{Content, NewCell, Outcome};

/// The cell of object 1 at the place.
pub fn cell(place: u32) -> CellNo {
    CellNo {
        object: ObjNo(1),
        place,
    }
}

pub fn number(n: u32) -> Value {
    Value::Num(Num::small(n))
}

/// A store of one cell of any kind, which contains 1.
pub fn one_cell(alloc: Global) -> Result<Store, Fail> {
    let mut cells = Vec::new(alloc);
    cells.push(NewCell {
        kind: PropKind::Var,
        content: Content::Plain(number(1)),
        held: Value::Undefined,
    })?;
    let mut store = Store::new(alloc);
    store.add_cells(ObjNo(1), cells)?;
    Ok(store)
}

/// A store of one cell of any kind, which contains and holds these, once object 2 is gone.
pub fn scrubbed(alloc: Global, content: Value, held: Value) -> Result<Store, Fail> {
    let mut cells = Vec::new(alloc);
    cells.push(NewCell {
        kind: PropKind::Var,
        content: Content::Plain(content),
        held,
    })?;
    let mut store = Store::new(alloc);
    store.add_cells(ObjNo(1), cells)?;
    store.scrub(&[ObjNo(2)]);
    Ok(store)
}

pub fn noted(store: &Store, from: usize) -> Option<(usize, CellNo)> {
    store.next_scrubbed(from)
}

pub fn clear_notes(store: &mut Store) {
    store.clear_scrubbed();
}

/// Puts what the cell holds, and tells what it held before.
pub fn hold(store: &mut Store, c: CellNo, n: u32) -> Option<Value> {
    if store.place(c) >= store.len() {
        return None;
    }
    Some(store.hold(c, number(n), None))
}

/// Puts how the cell ended, and tells it.
pub fn end(store: &mut Store, c: CellNo, outcome: Outcome) -> Option<Outcome> {
    if store.place(c) >= store.len() {
        return None;
    }
    store.put_outcome(c, outcome);
    told(store, c)
}

fn told(store: &Store, c: CellNo) -> Option<Outcome> {
    if store.place(c) >= store.len() {
        return None;
    }
    Some(store.outcome(c))
}
