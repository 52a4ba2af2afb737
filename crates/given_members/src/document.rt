//! What the members of a document are given for.

ghost use Rattle.std.specs.Prelude.{◌≡◌, Some, slice_get, IfOk};
ghost use Rattle.program_names.specs.Loaded.{Program, unit_at};
ghost use Rattle.program_names.specs.ComponentRoots.{roots_of};
ghost use Rattle.document_tables.specs.declared.program.DocumentTable as t;
ghost use Rattle.document_tables.specs.Tables.{TellProgram};
ghost use Rattle.program_paths.specs.Paths.{ArePaths};
ghost use Rattle.program_meanings.specs.Made.{AreMeanings};
ghost use Rattle.property_faults.specs.Given.{AllGiven};

use crate::rows::for_rows;
use document_tables::{ProgramTables, table_at};
use program_meanings::ProgramMeanings;
use program_paths::ProgramPaths;
use property_faults::GivenFor;
use qml_base::NoMemory;
use std::alloc::Global;
use value_purposes::PathTables;

/// What each member of the document of a number is given for, in the order of its rows (Qt 5.15, "QML Object Attributes"). It takes time by
/// the names of all rows' whole paths, and of each by the types of the object where it is looked for. Want of memory is the one error.
#[tactic(auto, using(crate::proofs::GivenLemmas::given_told))]
pub fn given_of_document(
    alloc: Global,
    tables: &ProgramTables,
    paths: &ProgramPaths,
    meanings: &ProgramMeanings,
    document: usize,
) -> Result<Vec<GivenFor>, NoMemory>
    ensures { (p : Program) (x : t.DocumentTable) → TellProgram p tables.now →
        ArePaths tables.now.names.units.items tables.now.documents.items (Some paths.now) →
        AreMeanings tables.now.names.units.items tables.now.documents.items paths.now.ids.items meanings.now →
        slice_get tables.now.documents.items document ≡ Some x →
        IfOk result (λ given. AllGiven p (roots_of p) document given.items (unit_at p document).rows) }
{
    let looked_up = PathTables {
        names: &tables.names,
        handlers: &meanings.handlers,
        targets: &meanings.targets,
        ends: &paths.ends,
    };
    match table_at(&tables.documents, document) {
        Some(source) => {
            let given = for_rows(alloc, &looked_up, &tables.documents, document, &source.rows)?;
            Ok(given)
        }
        None => Ok(Vec::new(alloc)),
    }
}
