//! Handlers for the signals that the objects of a document declare.

ghost use Rattle.std.specs.Prelude.{◌≡◌, [], map, IfOk, OnOk};
ghost use Rattle.program_names.specs.Names.{handler_of};
ghost use Rattle.handler_names.specs.Handlers as s;

use crate::naming::{changes_of, handler_name};
use document_members::Member;
use name_table::NameTable;
use program_tables::{ObjectNames, UnitRow, is_group, is_inside};
use qml_base::NoMemory;
use qml_text::Text;
use std::alloc::Global;

/// Of each object of a document the names of the handlers for the signals that it declares.
#[derive(Drop)]
pub struct UnitHandlers {
    pub objects: Vec<NameTable<bool>>,
}

/// The handlers of a document's objects, where these are what the objects declare and these its rows: one for each declared signal, and
/// one for the signal of each declared property's changes (Qt 5.15, "Signal and Handler Event System"). What stands in a group declares
/// nothing.
#[tactic(auto, using(crate::proofs::RowLemmas::rows_go_on))]
pub fn unit_handlers(
    alloc: Global,
    objects: &[ObjectNames],
    rows: &[UnitRow],
) -> Result<UnitHandlers, NoMemory>
    ensures { IfOk result (λ unit. unit.objects.items ≡ s.handlers_added [] rows.now (map s.no_handlers objects.now)) }
{
    let mut tables = no_handlers(alloc, objects)?;
    let mut grouping = Vec::new(alloc);
    'rows: for row in rows {
        let inside = is_inside(&grouping, row.row.group);
        grouping.push(inside || is_group(&row.member))?;
        add_row(alloc, inside, row, &mut tables)?;
    }
    Ok(UnitHandlers { objects: tables })
}

/// For each object a table without handlers. It takes no memory of its own.
#[tactic(auto, using(crate::proofs::RowLemmas::one_more_table))]
fn no_handlers(alloc: Global, objects: &[ObjectNames]) -> Result<Vec<NameTable<bool>>, NoMemory>
    ensures { IfOk result (λ tables. tables.items ≡ map s.no_handlers objects.now) }
{
    let mut tables = Vec::new(alloc);
    'objects: for _object in objects {
        tables.push(NameTable::new(alloc))?;
    }
    Ok(tables)
}

/// Adds the handler for the signal that a row declares, where it isn't in a group.
fn add_row(
    alloc: Global,
    inside: bool,
    row: &UnitRow,
    tables: &mut Vec<NameTable<bool>>,
) -> Result<(), NoMemory>
    ensures { OnOk result (tables.new.items ≡ s.handler_added inside row.now tables.old.items) }
{
    if inside {
        return Ok(());
    }
    match &row.member {
        Member::Property {
            at: _,
            adjective: _,
            kind: _,
            name,
            name_at: _,
            value: _,
        } => put_changes(alloc, row.row.object, name, tables),
        Member::Signal {
            at: _,
            name,
            name_at: _,
            parameters: _,
        } => put_handler(alloc, row.row.object, name.units(), tables),
        _ => Ok(()),
    }
}

/// Puts the handler for the signal of a property's changes.
fn put_changes(
    alloc: Global,
    object: usize,
    name: &Text,
    tables: &mut Vec<NameTable<bool>>,
) -> Result<(), NoMemory>
    ensures { OnOk result (tables.new.items ≡ s.changes_put tables.old.items object name.now) }
{
    let changes = changes_of(alloc, name.units())?;
    put_handler(alloc, object, &changes, tables)
}

/// Puts the handler for a signal.
fn put_handler(
    alloc: Global,
    object: usize,
    signal: &[u16],
    tables: &mut Vec<NameTable<bool>>,
) -> Result<(), NoMemory>
    ensures { OnOk result (tables.new.items ≡ s.handler_put tables.old.items object (handler_of signal.now)) }
{
    let handler = handler_name(alloc, signal)?;
    put_at(alloc, object, &handler, tables)
}

/// Puts a handler of an object.
#[tactic(auto, using(crate::proofs::RowLemmas::put_here, crate::proofs::RowLemmas::put_nowhere))]
fn put_at(
    alloc: Global,
    object: usize,
    handler: &Text,
    tables: &mut Vec<NameTable<bool>>,
) -> Result<(), NoMemory>
    ensures { OnOk result (tables.new.items ≡ s.handler_put tables.old.items object handler.now) }
{
    if object < tables.len() {
        tables[object].put(alloc, handler, true)?;
        Ok(())
    } else {
        Ok(())
    }
}

/// Whether a name is that of the handler for a signal that an object itself declares.
pub(crate) fn declares(
    units: &[UnitHandlers],
    document: usize,
    object: usize,
    handler: &Text,
) -> bool
    ensures { result ≡ s.declares units.now document object handler.now }
{
    match units.get(document) {
        Some(unit) => has_handler(&unit.objects, object, handler),
        None => false,
    }
}

fn has_handler(tables: &[NameTable<bool>], object: usize, handler: &Text) -> bool
    ensures { result ≡ s.has_handler tables.now object handler.now }
{
    match tables.get(object) {
        Some(table) => table.find(handler).is_some(),
        None => false,
    }
}
