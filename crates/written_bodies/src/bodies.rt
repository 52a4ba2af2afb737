//! Bodies as rows.

ghost use Rattle.std.specs.Prelude.{◌≡◌, ◌++◌, IfOk, OnOk};
ghost use Rattle.std.specs.List.{flat_map};
ghost use Rattle.written_bodies.specs.BodyRows as s;

use crate::parameters::parameters_for;
use document_members::Member;
use document_tables::in_group;
use handled_signals::SignalTables;
use program_tables::UnitRow;
use qml_base::NoMemory;
use std::alloc::Global;
use unit_rows::{BodyRow, Rows};

/// A place as it is kept.
fn kept(number: usize) -> Result<u32, NoMemory>
    ensures { IfOk result (λ n. n ≡ number) }
{
    match u32::try_from(number) {
        Ok(number) => Ok(number),
        Err(_) => Err(NoMemory),
    }
}

/// The body of a member of an object that stands in a group or not: a value, or a function.
fn body_of(
    alloc: Global,
    tables: &SignalTables,
    document: usize,
    object: usize,
    inside: bool,
    member: &Member,
) -> Result<Option<BodyRow>, NoMemory>
    ensures { IfOk result (λ row. row ≡
        s.body_of tables.now.names.now.units.items tables.now.documents.now tables.now.signals.now document object inside member.now) }
{
    match member {
        Member::Property {
            at: _,
            adjective: _,
            kind: _,
            name: _,
            name_at: _,
            value,
        } => match value {
            Some(at) => Ok(Some(BodyRow::Statement {
                at: kept(*at)?,
                parameters: Rows::new(alloc),
            })),
            None => Ok(None),
        },
        Member::Method {
            at: _,
            function,
            name: _,
            name_at: _,
        } => Ok(Some(BodyRow::Function {
            at: kept(*function)?,
        })),
        Member::Given { path, value } => {
            let parameters = parameters_for(alloc, tables, document, object, inside, path)?;
            Ok(Some(BodyRow::Statement {
                at: kept(*value)?,
                parameters,
            }))
        }
        _ => Ok(None),
    }
}

/// The body of the row of a number.
fn body_at(
    alloc: Global,
    tables: &SignalTables,
    document: usize,
    rows: &[UnitRow],
    inside: &[bool],
    number: usize,
) -> Result<Option<BodyRow>, NoMemory>
    ensures { IfOk result (λ row. row ≡
        s.body_at tables.now.names.now.units.items tables.now.documents.now tables.now.signals.now document rows.now inside.now number) }
{
    let Some(row) = rows.get(number) else {
        return Ok(None);
    };
    let body = body_of(
        alloc,
        tables,
        document,
        row.row.object,
        in_group(inside, number),
        &row.member,
    )?;
    Ok(body)
}

/// Puts a body behind others, if there is one.
fn put(body: Option<BodyRow>, bodies: &mut Vec<BodyRow>) -> Result<(), NoMemory>
    ensures { OnOk result (bodies.new.items ≡ bodies.old.items ++ s.one_or_none body) }
{
    match body {
        Some(row) => {
            bodies.push(row)?;
            Ok(())
        }
        None => Ok(()),
    }
}

/// The bodies of the rows of these numbers, which are those of a document that have one: values and functions, a handler's with the
/// parameters of the signals that it is for (Qt 5.15, "Signal and Handler Event System"). It takes time by their number, and for each
/// handler by the layers of its object.
pub fn written_bodies(
    alloc: Global,
    tables: &SignalTables,
    document: usize,
    rows: &[UnitRow],
    inside: &[bool],
    numbers: &[usize],
) -> Result<Vec<BodyRow>, NoMemory>
    ensures { IfOk result (λ bodies. bodies.items ≡
        s.bodies_at tables.now.names.now.units.items tables.now.documents.now tables.now.signals.now document rows.now inside.now numbers.now) }
{
    let mut bodies = Vec::new(alloc);
    'numbers: for number in numbers {
        let body = body_at(alloc, tables, document, rows, inside, *number)?;
        put(body, &mut bodies)?;
    }
    Ok(bodies)
}
