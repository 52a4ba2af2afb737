//! How many cells objects have.

ghost use Rattle.std.specs.Prelude.{◌≡◌, ◌+◌, IfOk, length};
ghost use Rattle.std.specs.List.{flat_map};
ghost use Rattle.instance_plans.specs.Numbers.{row_at};
ghost use Rattle.unit_rows.specs.Seen.{all_seen};
ghost use Rattle.unit_rows.specs.declared.names.CellRow.{CellRow as ACell};
ghost use Rattle.instance_contents.specs.Tables.{rows_in, live_in, plan_in};
ghost use Rattle.instance_plans.specs.NamesMade.{count_of_object as count_made};
ghost use Rattle.instance_shapes.specs.Told.{cells_of_documents};

use instance_contents::{Tables, builtin_of, documents_from};
use instancing::{object, type_at};
use qml_base::NoMemory;
use qml_types::cell_count;
use std::alloc::Global;
use unit_rows::Unit;

/// How many cells an object as written declares.
fn declared(units: &[Unit], u: u32, o: u32) -> usize
    ensures { result ≡ length (row_at (all_seen units.now) u o).cells }
{
    match object(units, u, o) {
        Some(row) => row.cells.len(),
        None => 0,
    }
}

/// A sum.
fn sum(a: usize, b: usize) -> Result<usize, NoMemory>
    ensures { IfOk result (λ n. n ≡ a + b) }
{
    match a.checked_add(b) {
        Some(n) => Ok(n),
        None => Err(NoMemory),
    }
}

/// How many cells documents declare.
fn declared_in(units: &[Unit], documents: &[u32]) -> Result<usize, NoMemory>
    ensures { IfOk result (λ n. n ≡ cells_of_documents (all_seen units.now) documents.now) }
{
    let mut cells = 0;
    'documents: for u in documents {
        cells = sum(cells, declared(units, *u, 0))?;
    }
    Ok(cells)
}

/// A number of cells.
fn narrow(cells: usize) -> Result<u32, NoMemory>
    ensures { IfOk result (λ n. n ≡ cells) }
{
    match u32::try_from(cells) {
        Ok(n) => Ok(n),
        Err(_) => Err(NoMemory),
    }
}

/// How many cells an object as written has, with those of so many delegate names.
#[tactic(auto, using(crate::proofs::CountLemmas::counted))]
pub fn count_of_object(
    alloc: Global,
    tables: &Tables,
    u: u32,
    o: u32,
    delegates: usize,
) -> Result<u32, NoMemory>
    ensures { IfOk result (λ n. n ≡ count_made (rows_in tables.now) (live_in tables.now) (plan_in tables.now) u o delegates) }
{
    let of_type = type_at(tables.units, u, o);
    let documents = documents_from(alloc, tables.units, of_type)?;
    let inherited = declared_in(tables.units, documents.as_slice())?;
    let cells = sum(
        cell_count(builtin_of(tables.units, of_type)) as usize,
        inherited,
    )?;
    let cells = sum(cells, declared(tables.units, u, o))?;
    let cells = sum(cells, delegates)?;
    narrow(cells)
}
