//! Ids of components, as rows.

ghost use Rattle.std.specs.Prelude.{◌≡◌, ◌++◌, IfOk, OnOk};
ghost use Rattle.name_faults.specs.Names.{by_rows};
ghost use Rattle.id_faults.specs.Ids as s;

use alias_tables::root_at;
use document_members::Member;
use document_tables::in_group;
use load_passes::NameRow;
use program_tables::UnitRow;
use qml_base::NoMemory;
use std::alloc::Global;
use type_uses::copied;

/// The row of an id, for the component of its object.
fn push_id(
    alloc: Global,
    roots: &[usize],
    inside: bool,
    row: &UnitRow,
    found: &mut Vec<NameRow>,
) -> Result<(), NoMemory>
    ensures { OnOk result (found.new.items ≡ found.old.items ++ s.id_of roots.now inside row.now) }
{
    if inside {
        return Ok(());
    }
    match &row.member {
        Member::Id { word: _, name, at } => {
            let name = copied(alloc, name)?;
            found.push(NameRow {
                name,
                owner: root_at(roots, row.row.object),
                at: *at,
                taken: false,
            })?;
            Ok(())
        }
        _ => Ok(()),
    }
}

/// The ids of these rows.
#[tactic(auto, using(name_faults::proofs::RowLemmas::go_on, name_faults::proofs::RowLemmas::none_left))]
pub(crate) fn id_rows(
    alloc: Global,
    roots: &[usize],
    rows: &[UnitRow],
    inside: &[bool],
) -> Result<Vec<NameRow>, NoMemory>
    ensures { IfOk result (λ found. found.items ≡ by_rows (s.id_of roots.now) rows.now inside.now) }
{
    let mut found = Vec::new(alloc);
    'rows: for (number, row) in rows.iter().enumerate() {
        push_id(alloc, roots, in_group(inside, number), row, &mut found)?;
    }
    Ok(found)
}
