//! The search over a document.

ghost use Rattle.std.specs.Prelude.{◌≡◌, Some, option_copied, slice_get, OnOk};
ghost use Rattle.program_names.specs.Loaded.{Program};
ghost use Rattle.program_names.specs.ComponentRoots.{roots_of};
ghost use Rattle.load_faults.specs.Faults.{first_from};
ghost use Rattle.load_faults.specs.Duplicates.{duplicate_ids};
ghost use Rattle.load_faults.specs.Aliases.{bad_aliases};
ghost use Rattle.document_tables.specs.declared.program.ProgramTables as t;
ghost use Rattle.document_tables.specs.Tables.{TellProgram};
ghost use Rattle.program_paths.specs.Paths.{ArePaths};
ghost use Rattle.program_meanings.specs.Made.{AreMeanings};
ghost use Rattle.document_faults.specs.Told as s;

use crate::given::tell_given;
use alias_faults::tell_bad_aliases;
use document_tables::ProgramTables;
use id_faults::tell_duplicate_ids;
use load_passes::Best;
use name_faults::tell_names;
use path_ends::{UnitAliases, UnitIds};
use program_meanings::ProgramMeanings;
use program_paths::ProgramPaths;
use qml_base::NoMemory;
use std::alloc::Global;

fn ids_at(units: &[UnitIds], document: usize) -> Option<&UnitIds>
    ensures { option_copied result ≡ slice_get units.now document }
{
    units.get(document)
}

fn aliases_at(units: &[UnitAliases], document: usize) -> Option<&UnitAliases>
    ensures { option_copied result ≡ slice_get units.now document }
{
    units.get(document)
}

/// Tells each id that stands a second time in its component.
fn tell_ids(
    alloc: Global,
    tables: &ProgramTables,
    paths: &ProgramPaths,
    document: usize,
    best: &mut Best,
) -> Result<(), NoMemory>
    ensures { (p : Program) → TellProgram p tables.now →
        ArePaths tables.now.names.units.items tables.now.documents.items (Some paths.now) →
        OnOk result (best.new.fault ≡ first_from best.old.fault (duplicate_ids p (roots_of p) document)) }
{
    match ids_at(&paths.ids, document) {
        Some(ids) => tell_duplicate_ids(alloc, tables, document, &ids.roots, best),
        None => Ok(()),
    }
}

/// Tells each alias that ends at nothing.
fn tell_aliases(paths: &ProgramPaths, document: usize, best: &mut Best)
    ensures { (p : Program) (tables : t.ProgramTables) → TellProgram p tables →
        ArePaths tables.names.units.items tables.documents.items (Some paths.now) →
        best.new.fault ≡ first_from best.old.fault (bad_aliases p (roots_of p) document) }
{
    match aliases_at(&paths.aliases, document) {
        Some(unit) => tell_bad_aliases(&paths.ends, document, &unit.rows, best),
        None => {}
    }
}

/// Tells, of the document of a number, each id that stands a second time in its component, each name that is used twice (`tell_names`),
/// each alias that ends at nothing, each value, group and child object for which the object has nothing, each for a property that isn't to
/// be given one, or for a whole object, and each value that has to be a literal and isn't (Qt 5.15, "QML Object Attributes"). What is kept is
/// the first of these faults and of what was kept before. Want of memory is the one error; some of the faults may be told then.
pub fn tell_document(
    alloc: Global,
    tables: &ProgramTables,
    paths: &ProgramPaths,
    meanings: &ProgramMeanings,
    document: usize,
    best: &mut Best,
) -> Result<(), NoMemory>
    ensures { (p : Program) → TellProgram p tables.now →
        ArePaths tables.now.names.units.items tables.now.documents.items (Some paths.now) →
        AreMeanings tables.now.names.units.items tables.now.documents.items paths.now.ids.items meanings.now →
        OnOk result (best.new.fault ≡ first_from best.old.fault (s.faults_told p (roots_of p) document)) }
{
    tell_ids(alloc, tables, paths, document, best)?;
    tell_names(alloc, tables, document, best)?;
    tell_aliases(paths, document, best);
    tell_given(alloc, tables, paths, meanings, document, best)?;
    Ok(())
}
