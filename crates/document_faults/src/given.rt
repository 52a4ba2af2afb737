//! What is given in a document.

ghost use Rattle.std.specs.Prelude.{◌≡◌, Some, slice_get, OnOk};
ghost use Rattle.program_names.specs.Loaded.{Program, unit_at};
ghost use Rattle.program_names.specs.ComponentRoots.{roots_of};
ghost use Rattle.load_faults.specs.Faults.{first_from};
ghost use Rattle.document_tables.specs.declared.program.DocumentTable as t;
ghost use Rattle.document_tables.specs.Tables.{TellProgram, tree_in};
ghost use Rattle.program_paths.specs.Paths.{ArePaths};
ghost use Rattle.program_meanings.specs.Made.{AreMeanings};
ghost use Rattle.property_faults.specs.Given.{AllGiven};
ghost use Rattle.document_faults.specs.Told as s;

use document_tables::{ProgramTables, table_at};
use file_sources::Content;
use given_members::given_of_document;
use load_passes::Best;
use program_meanings::ProgramMeanings;
use program_paths::ProgramPaths;
use property_faults::{GivenFor, tell_read_only, tell_unknown};
use qml_base::NoMemory;
use qml_syntax::Tree;
use std::alloc::Global;

/// Tells the members of the document of this tree, where this is what they are given for.
fn tell_members(
    tables: &ProgramTables,
    document: usize,
    tree: &Tree,
    given: &[GivenFor],
    best: &mut Best,
)
    ensures { (p : Program) (x : t.DocumentTable) → TellProgram p tables.now →
        slice_get tables.now.documents.items document ≡ Some x → tree.now ≡ tree_in x.content.value →
        AllGiven p (roots_of p) document given.now (unit_at p document).rows →
        best.new.fault ≡ first_from best.old.fault (s.faults_of_given p (roots_of p) document) }
{
    tell_unknown(tables, document, tree, given, best);
    tell_read_only(tables, document, tree, given, best);
}

/// Tells what is given in the document of this tree.
fn tell_in_tree(
    alloc: Global,
    tables: &ProgramTables,
    paths: &ProgramPaths,
    meanings: &ProgramMeanings,
    document: usize,
    tree: &Tree,
    best: &mut Best,
) -> Result<(), NoMemory>
    ensures { (p : Program) (x : t.DocumentTable) → TellProgram p tables.now →
        ArePaths tables.now.names.units.items tables.now.documents.items (Some paths.now) →
        AreMeanings tables.now.names.units.items tables.now.documents.items paths.now.ids.items meanings.now →
        slice_get tables.now.documents.items document ≡ Some x → tree.now ≡ tree_in x.content.value →
        OnOk result (best.new.fault ≡ first_from best.old.fault (s.faults_of_given p (roots_of p) document)) }
{
    let given = given_of_document(alloc, tables, paths, meanings, document)?;
    tell_members(tables, document, tree, &given, best);
    Ok(())
}

/// Tells what is given in a file, where it is a document.
fn tell_shown(
    alloc: Global,
    tables: &ProgramTables,
    paths: &ProgramPaths,
    meanings: &ProgramMeanings,
    document: usize,
    content: &Content,
    best: &mut Best,
) -> Result<(), NoMemory>
    ensures { (p : Program) (x : t.DocumentTable) → TellProgram p tables.now →
        ArePaths tables.now.names.units.items tables.now.documents.items (Some paths.now) →
        AreMeanings tables.now.names.units.items tables.now.documents.items paths.now.ids.items meanings.now →
        slice_get tables.now.documents.items document ≡ Some x → content.now ≡ x.content.value →
        OnOk result (best.new.fault ≡ first_from best.old.fault (s.faults_of_given p (roots_of p) document)) }
{
    match content {
        Content::Document(tree) => {
            tell_in_tree(alloc, tables, paths, meanings, document, tree, best)
        }
        Content::Missing => Ok(()),
        Content::TooLarge => Ok(()),
        Content::Unread { at: _, cause: _ } => Ok(()),
        Content::Script(_) => Ok(()),
    }
}

/// Tells, of the document of a number, each value, group and child object for which the object has nothing, and each for a property that
/// isn't to be given one, or for a whole object.
pub(crate) fn tell_given(
    alloc: Global,
    tables: &ProgramTables,
    paths: &ProgramPaths,
    meanings: &ProgramMeanings,
    document: usize,
    best: &mut Best,
) -> Result<(), NoMemory>
    ensures { (p : Program) → TellProgram p tables.now →
        ArePaths tables.now.names.units.items tables.now.documents.items (Some paths.now) →
        AreMeanings tables.now.names.units.items tables.now.documents.items paths.now.ids.items meanings.now →
        OnOk result (best.new.fault ≡ first_from best.old.fault (s.faults_of_given p (roots_of p) document)) }
{
    match table_at(&tables.documents, document) {
        Some(table) => tell_shown(
            alloc,
            tables,
            paths,
            meanings,
            document,
            &table.content,
            best,
        ),
        None => Ok(()),
    }
}
