//! Ids of objects, as rows.

ghost use Rattle.std.specs.Prelude.{◌≡◌, ◌++◌, IfOk, OnOk};
ghost use Rattle.name_faults.specs.Names as s;

use document_members::Member;
use document_tables::in_group;
use load_passes::NameRow;
use program_tables::UnitRow;
use qml_base::NoMemory;
use qml_text::Text;
use std::alloc::Global;

/// The row of an id, at its word: all ids of an object have one name.
fn push_id(inside: bool, row: &UnitRow, found: &mut Vec<NameRow>) -> Result<(), NoMemory>
    ensures { OnOk result (found.new.items ≡ found.old.items ++ s.id_of inside row.now) }
{
    if inside {
        return Ok(());
    }
    match &row.member {
        Member::Id {
            word,
            name: _,
            at: _,
        } => Ok(found.push(NameRow {
            name: Text::new(),
            owner: row.row.object,
            at: *word,
            taken: false,
        })?),
        _ => Ok(()),
    }
}

/// The ids of these rows.
#[tactic(auto, using(crate::proofs::RowLemmas::go_on, crate::proofs::RowLemmas::none_left))]
pub(crate) fn id_rows(
    alloc: Global,
    rows: &[UnitRow],
    inside: &[bool],
) -> Result<Vec<NameRow>, NoMemory>
    ensures { IfOk result (λ found. found.items ≡ s.by_rows s.id_of rows.now inside.now) }
{
    let mut found = Vec::new(alloc);
    'rows: for (number, row) in rows.iter().enumerate() {
        push_id(in_group(inside, number), row, &mut found)?;
    }
    Ok(found)
}
