//! The search over a document.

ghost use Rattle.std.specs.Prelude.{◌≡◌, [], OnOk};
ghost use Rattle.program_names.specs.Loaded.{Program};
ghost use Rattle.program_names.specs.Components.{Roots};
ghost use Rattle.load_faults.specs.Faults.{first_from};
ghost use Rattle.load_faults.specs.Duplicates.{duplicate_ids};
ghost use Rattle.alias_tables.specs.Ids.{KnowsRoots};
ghost use Rattle.document_tables.specs.Tables.{TellProgram};
ghost use Rattle.id_faults.specs.Ids as s;

use crate::ids::id_rows;
use document_tables::{ProgramTables, table_at};
use load_passes::{Best, ids_as_rows, tell_repeated};
use program_tables::UnitRow;
use qml_base::{LoadCause, NoMemory};
use std::alloc::Global;

/// Tells the ids of these rows that stand a second time in a component.
fn tell_rows(
    alloc: Global,
    roots: &[usize],
    rows: &[UnitRow],
    inside: &[bool],
    best: &mut Best,
) -> Result<(), NoMemory>
    ensures { OnOk result (best.new.fault ≡ first_from best.old.fault (s.faults_of_rows roots.now rows.now inside.now)) }
{
    let ids = id_rows(alloc, roots, rows, inside)?;
    tell_repeated(alloc, &ids, LoadCause::DuplicateId, best)?;
    Ok(())
}

/// Tells, of the document of a number, each id that stands a second time in its component (Qt 5.15, "The id Attribute"). `roots` says
/// of each object of the document the root of its component. What is kept is the first of these faults and of what was kept before.
/// Want of memory is the one error; some of the faults may be told then.
pub fn tell_duplicate_ids(
    alloc: Global,
    tables: &ProgramTables,
    document: usize,
    roots: &[usize],
    best: &mut Best,
) -> Result<(), NoMemory>
    ensures { (p : Program) (known : Roots) → TellProgram p tables.now → KnowsRoots p known document roots.now →
        OnOk result (best.new.fault ≡ first_from best.old.fault (duplicate_ids p known document)) }
{
    ids_as_rows();
    match table_at(&tables.documents, document) {
        Some(table) => tell_rows(alloc, roots, &table.rows, &table.inside, best),
        None => Ok(()),
    }
}
