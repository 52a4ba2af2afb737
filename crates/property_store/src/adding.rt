//! The cells of a new object.

ghost use Rattle.std.specs.Prelude.{◌≡◌, ◌+◌, ◌≤◌, ◌<◌, ◌^◌, ◌++◌, length, vec_len, vec_capacity, slice_index, OnOk, ℕ};
ghost use Rattle.property_store.specs.Stores.{new_cell, new_cells};

use qml_base::{CellNo, ObjNo};
use std::alloc::AllocError;
use std::collections::VecDeque;
use tree_model::{Cell, NewCell, Outcome};

fn cell_of(o: ObjNo, place: u32, new: NewCell) -> Cell
    ensures { result ≡ new_cell o place new }
{
    let NewCell {
        kind,
        content,
        held,
    } = new;
    Cell {
        no: CellNo { object: o, place },
        kind,
        content,
        held,
        spare: None,
        outcome: Outcome::Value,
        noted: false,
    }
}

/// Appends the cells of the object, in room that is there.
pub fn push_cells(cells: &mut Vec<Cell>, o: ObjNo, new: Vec<NewCell>)
    requires room { vec_len cells.old + vec_len new ≤ vec_capacity cells.old }
    requires few { vec_len new < 2 ^ 32 }
    ensures { cells.new.items ≡ cells.old.items ++ new_cells o 0 new.items }
{
    let mut left = VecDeque::from_vec(new);
    let mut place = 0u32;
    'cells: while let Some(new) = left.pop_front() {
        if cells.push(cell_of(o, place, new)).is_err() {
            return;
        }
        place += 1;
    }
}

/// Makes room in the table for an object's number, and changes nothing that it tells.
pub fn make_room(starts: &mut Vec<u32>, object: usize) -> Result<(), AllocError>
    requires { object < 2 ^ 32 }
    ensures same { (k : ℕ) → slice_index starts.new.items k ≡ slice_index starts.old.items k }
    ensures longer { vec_len starts.old ≤ vec_len starts.new }
    ensures room { OnOk result (object < vec_len starts.new) }
{
    if object < starts.len() {
        return Ok(());
    }
    starts.resize(object + 1, 0)
}
