//! The rows of each object.

ghost use Rattle.std.specs.Prelude.{◌≡◌, [], IfOk, OnOk};
ghost use Rattle.object_members.specs.ByObject as s;

use program_tables::UnitRow;
use qml_base::NoMemory;
use std::alloc::Global;

/// So many empty lists.
#[tactic(auto, using(crate::proofs::ListLemmas::more_empty))]
fn empty_lists(alloc: Global, count: usize) -> Result<Vec<Vec<usize>>, NoMemory>
    ensures { IfOk result (λ lists. s.AreByObject count [] lists.items) }
{
    let mut lists = Vec::new(alloc);
    'lists: for done in 0..count {
        lists.push(Vec::new(alloc))?;
    }
    Ok(lists)
}

/// Puts a number behind those of the list at a place, if there is one there.
#[tactic(auto, using(crate::proofs::ListLemmas::put_here, crate::proofs::ListLemmas::put_nowhere))]
fn put(lists: &mut Vec<Vec<usize>>, at: usize, number: usize) -> Result<(), NoMemory>
    ensures { OnOk result (s.IsPut at number lists.old.items lists.new.items) }
{
    if at < lists.len() {
        lists[at].push(number)?;
    }
    Ok(())
}

/// For each of so many objects the numbers of those of these rows that are its own, in the order of writing. It takes
/// time by the number of rows and objects. Want of memory is the one error.
#[tactic(auto, using(crate::proofs::ListLemmas::row_listed))]
pub fn rows_by_object(
    alloc: Global,
    count: usize,
    rows: &[UnitRow],
) -> Result<Vec<Vec<usize>>, NoMemory>
    ensures { IfOk result (λ lists. s.AreByObject count rows.now lists.items) }
{
    let mut lists = empty_lists(alloc, count)?;
    'rows: for (number, row) in rows.iter().enumerate() {
        put(&mut lists, row.row.object, number)?;
    }
    Ok(lists)
}
