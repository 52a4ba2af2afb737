//! The cells to which handed fields go.

ghost use Rattle.std.specs.Prelude.{◌≡◌, ◌++◌, ◌∷◌, [], slice_get, option_copied, IfOk, OnOk};
ghost use Rattle.std.specs.List.{filter_map};
ghost use Rattle.std.specs.Option.{option_map};
ghost use Rattle.unit_rows.specs.Given.{cell_given as given_to};
ghost use Rattle.instance_plans.specs.NamesMade.{names_seen};
ghost use Rattle.instance_plans.specs.Plans.{cell_to_fill, cell_of_field};
ghost use Rattle.instance_contents.specs.Tables.{Stands, rows_in, live_in, plan_in, placed};
ghost use Rattle.handed_fields.specs.Handed as s;

use instance_contents::{Tables, builtin_at};
use instance_plans::PlannedInstance;
use instance_shapes::names_of;
use name_table::NameTable;
use qml_base::{CellNo, Found, NoMemory};
use qml_text::Text;
use qml_types::{TypeNo, cell_at};
use qml_value::Value;
use std::alloc::Global;

/// The place of the cell to which goes what is given for a place.
fn cell_given(of_type: TypeNo, place: u32) -> u32
    ensures { result ≡ given_to of_type place }
{
    match cell_at(of_type, place) {
        Some(cell) => cell.goes_to,
        None => place,
    }
}

/// The cell that takes what is handed for one.
fn to_fill(tables: &Tables, c: CellNo) -> CellNo
    requires { Stands tables.now }
    ensures { result ≡ cell_to_fill (rows_in tables.now) (plan_in tables.now) c }
{
    CellNo {
        object: c.object,
        place: cell_given(builtin_at(tables, c.object.0), c.place),
    }
}

/// The cell that takes what is handed under a name that finds this.
fn cell_behind(tables: &Tables, found: Found) -> Option<CellNo>
    requires { Stands tables.now }
    ensures { result ≡ s.cell_behind tables.now found }
{
    match found {
        Found::Cell(c) => Some(to_fill(tables, c)),
        _ => None,
    }
}

/// The cell that takes what is handed under a name.
fn cell_under(tables: &Tables, names: &NameTable<Found>, name: &Text) -> Option<CellNo>
    requires { Stands tables.now }
    ensures { result ≡ s.cell_under tables.now names.now name.now }
{
    match names.find(name) {
        Some(found) => cell_behind(tables, found),
        None => None,
    }
}

/// A copy of a value.
fn copied(alloc: Global, value: &Value) -> Result<Value, NoMemory>
    ensures { IfOk result (λ copy. copy ≡ value.now) }
{
    match value.copy(alloc) {
        Ok(copy) => Ok(copy),
        Err(_) => Err(NoMemory),
    }
}

/// Puts a field with the cell that takes it, if there is one.
fn put_field(
    alloc: Global,
    tables: &Tables,
    names: &NameTable<Found>,
    field: &(Text, Value),
    handed: &mut Vec<(CellNo, Value)>,
) -> Result<(), NoMemory>
    requires { Stands tables.now }
    ensures { OnOk result (handed.new.items ≡ handed.old.items ++ filter_map (s.handed_under tables.now names.now) (field.now ∷ [])) }
{
    let Some(cell) = cell_under(tables, names, &field.0) else {
        return Ok(());
    };
    let value = copied(alloc, &field.1)?;
    handed.push((cell, value))?;
    Ok(())
}

/// Puts fields with the cells that take them.
fn put_fields(
    alloc: Global,
    tables: &Tables,
    names: &NameTable<Found>,
    fields: &[(Text, Value)],
    handed: &mut Vec<(CellNo, Value)>,
) -> Result<(), NoMemory>
    requires { Stands tables.now }
    ensures { OnOk result (handed.new.items ≡ handed.old.items ++ filter_map (s.handed_under tables.now names.now) fields.now) }
{
    'fields: for field in fields {
        put_field(alloc, tables, names, field, handed)?;
    }
    Ok(())
}

/// The first instance of a plan.
fn root_of(instances: &[PlannedInstance]) -> Option<&PlannedInstance>
    ensures { option_copied result ≡ slice_get instances.now 0 }
{
    instances.get(0)
}

/// The cells that take what is handed to object `r` of a document, the root of the first instance of a plan, with so many delegate
/// names: each field that names a property, with the cell to which it goes. A plan has an instance; for none the answer is as without
/// memory.
#[tactic(auto, using(crate::proofs::HandedLemmas::handed_so))]
pub fn handed_cells(
    alloc: Global,
    tables: &Tables,
    r: u32,
    delegates: usize,
    fields: &[(Text, Value)],
) -> Result<Vec<(CellNo, Value)>, NoMemory>
    requires { Stands tables.now }
    ensures { IfOk result (λ handed. handed.items ≡ filter_map (cell_of_field (rows_in tables.now) (plan_in tables.now) (names_seen (rows_in tables.now) (live_in tables.now) (plan_in tables.now) (placed tables.now 0) (r, tables.now.first) delegates)) fields.now) }
{
    let Some(root) = root_of(tables.instances.as_slice()) else {
        return Err(NoMemory);
    };
    let names = names_of(alloc, tables, 0, root, (r, tables.first), delegates)?;
    let mut handed = Vec::new(alloc);
    put_fields(alloc, tables, &names, fields, &mut handed)?;
    Ok(handed)
}
