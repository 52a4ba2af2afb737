//! Roles of the rows of a ListModel, as rows.

ghost use Rattle.std.specs.Prelude.{◌≡◌, ◌++◌, IfOk, OnOk};
ghost use Rattle.name_faults.specs.Names as s;

use document_members::Member;
use document_tables::in_group;
use load_passes::NameRow;
use program_tables::{Names, UnitRow};
use qml_base::NoMemory;
use qml_types::{TypeNo, TypeRef};
use std::alloc::Global;
use type_uses::copied;

/// The row of a role, if the member gives a value under one name.
fn push_value(
    alloc: Global,
    inside: bool,
    row: &UnitRow,
    found: &mut Vec<NameRow>,
) -> Result<(), NoMemory>
    ensures { OnOk result (found.new.items ≡ found.old.items ++ s.value_of inside row.now) }
{
    if inside {
        return Ok(());
    }
    match &row.member {
        Member::Given { path, value: _ } => {
            if path.rest.is_empty() {
                let name = copied(alloc, &path.first)?;
                found.push(NameRow {
                    name,
                    owner: row.row.object,
                    at: path.at,
                    taken: false,
                })?;
            }
            Ok(())
        }
        _ => Ok(()),
    }
}

/// The row of a role, if the member stands in a ListElement.
fn push_role(
    alloc: Global,
    names: &Names,
    document: usize,
    inside: bool,
    row: &UnitRow,
    found: &mut Vec<NameRow>,
) -> Result<(), NoMemory>
    ensures { OnOk result (found.new.items ≡ found.old.items ++ s.role_of names.now.units.items document inside row.now) }
{
    if !names.is_a(
        document,
        row.row.object,
        TypeRef::Builtin(TypeNo::ListElement),
    ) {
        return Ok(());
    }
    push_value(alloc, inside, row, found)
}

/// The roles of these rows.
#[tactic(auto, using(crate::proofs::RowLemmas::go_on, crate::proofs::RowLemmas::none_left))]
pub(crate) fn role_rows(
    alloc: Global,
    names: &Names,
    document: usize,
    rows: &[UnitRow],
    inside: &[bool],
) -> Result<Vec<NameRow>, NoMemory>
    ensures { IfOk result (λ found. found.items ≡ s.by_rows (s.role_of names.now.units.items document) rows.now inside.now) }
{
    let mut found = Vec::new(alloc);
    'rows: for (number, row) in rows.iter().enumerate() {
        push_role(
            alloc,
            names,
            document,
            in_group(inside, number),
            row,
            &mut found,
        )?;
    }
    Ok(found)
}
