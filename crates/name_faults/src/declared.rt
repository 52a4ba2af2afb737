//! Names that objects declare, as rows.

ghost use Rattle.std.specs.Prelude.{◌≡◌, ◌++◌, ◌∷◌, [], IfOk, OnOk};
ghost use Rattle.name_faults.specs.Names as s;

use crate::taken::{changed_name, is_taken};
use document_members::Member;
use document_tables::in_group;
use load_passes::NameRow;
use program_tables::{Names, UnitRow};
use qml_base::{NoMemory, Place};
use qml_text::Text;
use std::alloc::Global;
use type_uses::copied;

/// The row of a name that an object declares.
fn push_name(
    alloc: Global,
    names: &Names,
    document: usize,
    object: usize,
    name: &Text,
    at: Place,
    found: &mut Vec<NameRow>,
) -> Result<(), NoMemory>
    ensures { OnOk result (found.new.items ≡ found.old.items ++ s.declared_row names.now.units.items document object (name.now, at) ∷ []) }
{
    let taken = is_taken(names, document, object, name)?;
    let name = copied(alloc, name)?;
    found.push(NameRow {
        name,
        owner: object,
        at,
        taken,
    })?;
    Ok(())
}

/// The rows of a property: its name, and that of the signal of its changes.
fn push_property(
    alloc: Global,
    names: &Names,
    document: usize,
    object: usize,
    name: &Text,
    at: Place,
    found: &mut Vec<NameRow>,
) -> Result<(), NoMemory>
    ensures { OnOk result (found.new.items ≡
        found.old.items ++ s.property_rows names.now.units.items document object name.now at) }
{
    let changes = changed_name(alloc, name)?;
    push_name(alloc, names, document, object, name, at, found)?;
    push_name(alloc, names, document, object, &changes, at, found)?;
    Ok(())
}

/// The rows of what a member declares.
fn push_declared(
    alloc: Global,
    names: &Names,
    document: usize,
    inside: bool,
    row: &UnitRow,
    found: &mut Vec<NameRow>,
) -> Result<(), NoMemory>
    ensures { OnOk result (found.new.items ≡ found.old.items ++ s.declared_of names.now.units.items document inside row.now) }
{
    if inside {
        return Ok(());
    }
    let object = row.row.object;
    match &row.member {
        Member::Property {
            at: _,
            adjective: _,
            kind: _,
            name,
            name_at,
            value: _,
        } => push_property(alloc, names, document, object, name, *name_at, found),
        Member::Alias {
            at: _,
            default: _,
            name,
            name_at,
            target: _,
        } => push_name(alloc, names, document, object, name, *name_at, found),
        Member::Signal {
            at: _,
            name,
            name_at,
            parameters: _,
        } => push_name(alloc, names, document, object, name, *name_at, found),
        Member::Method {
            at: _,
            function: _,
            name,
            name_at,
        } => push_name(alloc, names, document, object, name, *name_at, found),
        _ => Ok(()),
    }
}

/// The names that these rows declare.
#[tactic(auto, using(crate::proofs::RowLemmas::go_on, crate::proofs::RowLemmas::none_left))]
pub(crate) fn declared_rows(
    alloc: Global,
    names: &Names,
    document: usize,
    rows: &[UnitRow],
    inside: &[bool],
) -> Result<Vec<NameRow>, NoMemory>
    ensures { IfOk result (λ found. found.items ≡ s.by_rows (s.declared_of names.now.units.items document) rows.now inside.now) }
{
    let mut found = Vec::new(alloc);
    'rows: for (number, row) in rows.iter().enumerate() {
        push_declared(
            alloc,
            names,
            document,
            in_group(inside, number),
            row,
            &mut found,
        )?;
    }
    Ok(found)
}
