//! What becomes of cells where objects are gone.

ghost use Rattle.std.specs.Prelude.{◌≡◌, ◌<◌, ◌^◌, false, true, map, length, slice_get, Some};
ghost use Rattle.tree_model.specs.declared.cells.Cell.{Cell};
ghost use Rattle.qml_value.specs.Scrubbing.{is_among, scrubbed};
ghost use Rattle.tree_model.specs.Settling.{IsSpared};
ghost use Rattle.tree_model.specs.Removing.{scrubbed_cell, cells_left};
ghost use Rattle.property_store.specs.Lying.{in_order, AllBelow, IsPlaced, numbers_of};
ghost use Rattle.property_store.specs.Stores.{without_note, IsNextNoted};
ghost use Rattle.property_store.specs.Spares.{plain_or, scrubbed_spare, content_after, spare_after, AllLeft};

use qml_base::{CellNo, ObjNo};
use qml_types::PropKind;
use qml_value::{GoneObjects, Value};
use std::mem;
use tree_model::{Cell, Content, Outcome};

fn scrubbed_value(gone: &GoneObjects, value: Value) -> Value
    ensures { result ≡ scrubbed gone.now value }
{
    let mut value = value;
    value.scrub_by(gone);
    value
}

fn plain_by(gone: &GoneObjects, spare: Option<Value>, content: Content) -> Content
    ensures { result ≡ plain_or gone.now spare content }
{
    match spare {
        Some(spare) => Content::Plain(scrubbed_value(gone, spare)),
        None => content,
    }
}

fn spare_by(gone: &GoneObjects, spare: Option<Value>) -> Option<Value>
    ensures { result ≡ scrubbed_spare gone.now spare }
{
    match spare {
        Some(spare) => Some(scrubbed_value(gone, spare)),
        None => None,
    }
}

/// A content and its spare, as they are once the objects are gone: where the author is, the spare is the content.
fn contents(gone: &GoneObjects, content: Content, spare: Option<Value>) -> (Content, Option<Value>)
    ensures content { result.0 ≡ content_after gone.now content spare }
    ensures spare { result.1 ≡ spare_after gone.now content spare }
{
    match content {
        Content::Plain(value) => (Content::Plain(scrubbed_value(gone, value)), None),
        Content::Bound(binding) => {
            if gone.has(binding.author) {
                (plain_by(gone, spare, Content::Bound(binding)), None)
            } else {
                (Content::Bound(binding), spare_by(gone, spare))
            }
        }
    }
}

fn scrub_cell(cell: Cell, gone: &GoneObjects) -> Cell
    requires spared { IsSpared cell }
    requires left { is_among gone.now cell.no.object ≡ false }
    ensures { result ≡ scrubbed_cell gone.now cell }
{
    let Cell {
        no,
        kind,
        content,
        held,
        spare,
        outcome,
        noted,
    } = cell;
    let mut held = held;
    let named = held.scrub_by(gone);
    let (content, spare) = contents(gone, content, spare);
    Cell {
        no,
        kind,
        content,
        held,
        spare,
        outcome,
        noted: noted || named,
    }
}

/// A cell for the place of one that is moved out.
fn blank() -> Cell {
    Cell {
        no: CellNo {
            object: ObjNo(0),
            place: 0,
        },
        kind: PropKind::Var,
        content: Content::Plain(Value::Undefined),
        held: Value::Undefined,
        spare: None,
        outcome: Outcome::Value,
        noted: false,
    }
}

/// Scrubs each cell.
pub fn scrub_cells(cells: &mut [Cell], gone: &GoneObjects)
    requires left { AllLeft gone.now cells.old }
    ensures { cells.new ≡ map (scrubbed_cell gone.now) cells.old }
{
    'cells: for i in 0..cells.len() {
        let cell = mem::replace(&mut cells[i], blank());
        cells[i] = scrub_cell(cell, gone);
    }
}

/// Drops the cells of the objects that are gone.
pub fn drop_cells(cells: &mut Vec<Cell>, gone: &GoneObjects)
    ensures { cells.new.items ≡ cells_left gone.now cells.old.items }
{
    cells.retain(|cell| !gone.has(cell.no.object));
}

/// Tells of each object where its cells begin.
pub fn place_all(starts: &mut [u32], cells: &[Cell])
    requires ordered { in_order 0 0 (numbers_of cells.now) ≡ true }
    requires below { AllBelow (length starts.old) (numbers_of cells.now) }
    requires few { length cells.now < 2 ^ 32 }
    ensures { IsPlaced starts.new cells.now }
{
    'cells: for i in 0..cells.len() {
        if cells[i].no.place == 0 {
            let object = object_of(starts.len(), cells, i);
            starts[object] = i as u32;
        }
    }
}

/// The object of the cell, by which its place is told.
fn object_of(given: usize, cells: &[Cell], i: usize) -> usize
    requires below { AllBelow given (numbers_of cells.now) }
    requires within { i < length cells.now }
    ensures within { result < given }
    ensures at { (cell : Cell) → slice_get cells.now i ≡ Some cell → result ≡ cell.no.object.0 }
{
    cells[i].no.object.0 as usize
}

pub fn clear_notes(cells: &mut [Cell])
    ensures { cells.new ≡ map without_note cells.old }
{
    'cells: for i in 0..cells.len() {
        cells[i].noted = false;
    }
}

pub fn next_noted(cells: &[Cell], from: usize) -> Option<(usize, CellNo)>
    ensures { IsNextNoted cells.now from result }
{
    'cells: for i in from..cells.len() {
        if cells[i].noted {
            return Some((i, cells[i].no));
        }
    }
    None
}
