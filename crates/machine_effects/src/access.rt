//! Which cells a body may write, and which take what is written.

ghost use Rattle.std.specs.Prelude.{◌≡◌, ◌++◌, map, slice_get, IfOk};
ghost use Rattle.std.specs.List.{flat_map};
ghost use Rattle.qml_types.specs.Table.{is_writable as may_be_given};
ghost use Rattle.unit_rows.specs.Given.{cell_given as given_to};
ghost use Rattle.unit_rows.specs.Seen.{all_seen};
ghost use Rattle.instance_plans.specs.Numbers.{row_at};
ghost use Rattle.machine_model.specs.Bodies as bodies;
ghost use Rattle.machine_state.specs.Keeping.{machine_of};
ghost use Rattle.machine_effects.specs.Access as s;

use instance_contents::{builtin_planned, documents_from};
use instance_plans::Planned;
use instancing::{object, type_at};
use machine_state::State;
use qml_base::{CellNo, NoMemory};
use qml_types::{Access, TypeNo, cell_at, cell_count};
use signal_dispatch::{builtin_in, written_at};
use std::alloc::Global;
use unit_rows::{CellRow, Unit};

/// Whether bodies may give it values.
fn is_writable(access: Access) -> bool
    ensures { result ≡ may_be_given access }
{
    match access {
        Access::Writable => true,
        _ => false,
    }
}

/// Whether the cell at a place of these may be written.
fn may_write_row(rows: &[CellRow], at: usize) -> bool
    ensures { result ≡ s.may_write_row (slice_get rows.now at) }
{
    match rows.get(at) {
        Some(row) => is_writable(row.access),
        None => true,
    }
}

/// The cells that an object of a document declares.
fn cells_at(units: &[Unit], u: u32, o: u32) -> &[CellRow]
    ensures { result.now ≡ (row_at (all_seen units.now) u o).cells }
{
    match object(units, u, o) {
        Some(row) => row.cells.as_slice(),
        None => &[],
    }
}

/// Whether the cell at a place may be written, among those that the roots of documents declare and then those of the object.
fn may_write_declared(units: &[Unit], documents: &[u32], own: &[CellRow], at: usize) -> bool
    ensures { result ≡ s.may_write_row (slice_get (flat_map (s.cells_of_root (all_seen units.now)) documents.now ++ own.now) at) }
{
    let mut left = at;
    'documents: for document in documents {
        let cells = cells_at(units, *document, 0);
        if left < cells.len() {
            return may_write_row(cells, left);
        }
        left -= cells.len();
    }
    may_write_row(own, left)
}

/// Whether the cell at a place behind those of the built-in type may be written.
fn may_write_behind(alloc: Global, units: &[Unit], x: Planned, at: usize) -> Result<bool, NoMemory>
    ensures { IfOk result (λ b. b ≡ s.may_write_row (slice_get (s.cells_declared (all_seen units.now) x) at)) }
{
    if x.is_around {
        return Ok(true);
    }
    let of_type = type_at(units, x.unit, x.object);
    let mut documents = documents_from(alloc, units, of_type)?;
    documents.reverse();
    let own = cells_at(units, x.unit, x.object);
    Ok(may_write_declared(units, documents.as_slice(), own, at))
}

/// Whether a body may write the cell at a place of an object that is written so.
#[tactic(auto, using(crate::proofs::AccessLemmas::of_the_type, crate::proofs::AccessLemmas::declared))]
fn may_write(alloc: Global, units: &[Unit], x: Planned, c: CellNo) -> Result<bool, NoMemory>
    ensures { IfOk result (λ b. b ≡ bodies.may_write (all_seen units.now) c x) }
{
    let of_type = builtin_planned(units, x);
    if let Some(cell) = cell_at(of_type, c.place) {
        return Ok(is_writable(cell.access));
    }
    let behind = c.place.saturating_sub(cell_count(of_type));
    may_write_behind(alloc, units, x, behind as usize)
}

/// Whether a body may write the cell.
pub fn may_be_written<'a>(alloc: Global, state: &State<'a>, c: CellNo) -> Result<bool, NoMemory>
    ensures { IfOk result (λ b. b ≡ bodies.may_be_written (machine_of state.now) c) }
{
    match written_at(state.written.as_slice(), c.object) {
        Some(x) => may_write(alloc, state.units, x, c),
        None => Ok(false),
    }
}

/// The place of the cell to which goes what is given for a place.
fn cell_given(of_type: TypeNo, place: u32) -> u32
    ensures { result ≡ given_to of_type place }
{
    match cell_at(of_type, place) {
        Some(cell) => cell.goes_to,
        None => place,
    }
}

/// The cell that takes what is written: for an Item's `visible` and `enabled` a hidden one.
pub fn cell_to_write<'a>(state: &State<'a>, c: CellNo) -> CellNo
    ensures { result ≡ bodies.cell_to_write (machine_of state.now) c }
{
    CellNo {
        object: c.object,
        place: cell_given(builtin_in(state, c.object), c.place),
    }
}
