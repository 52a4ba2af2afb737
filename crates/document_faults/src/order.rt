//! The search over the documents of a program, in reading order.

ghost use Rattle.std.specs.Prelude.{◌≡◌, Some, length, IfOk};
ghost use Rattle.program_names.specs.Loaded.{Program};
ghost use Rattle.document_tables.specs.Tables.{TellProgram};
ghost use Rattle.name_faults.specs.Names.{first_found};
ghost use Rattle.program_paths.specs.Paths.{ArePaths};
ghost use Rattle.program_meanings.specs.Made.{AreMeanings};
ghost use Rattle.document_faults.specs.Told as s;

use crate::document::tell_document;
use document_tables::ProgramTables;
use load_passes::Best;
use program_meanings::ProgramMeanings;
use program_names::Fault;
use program_paths::ProgramPaths;
use qml_base::NoMemory;
use std::alloc::Global;

/// The first of the faults of one document.
fn first_in(
    alloc: Global,
    tables: &ProgramTables,
    paths: &ProgramPaths,
    meanings: &ProgramMeanings,
    document: usize,
) -> Result<Option<Fault>, NoMemory>
    ensures { (p : Program) → TellProgram p tables.now →
        ArePaths tables.now.names.units.items tables.now.documents.items (Some paths.now) →
        AreMeanings tables.now.names.units.items tables.now.documents.items paths.now.ids.items meanings.now →
        IfOk result (λ found. found ≡ s.first_in_document p document) }
{
    let mut best = Best::new();
    tell_document(alloc, tables, paths, meanings, document, &mut best)?;
    Ok(best.fault)
}

/// The first of the faults that `tell_document` tells, over the documents of a program in reading order, with the number of its
/// document. Want of memory is the one error.
#[tactic(auto, using(name_faults::proofs::PassLemmas::found_at_end))]
pub fn first_of_program(
    alloc: Global,
    tables: &ProgramTables,
    paths: &ProgramPaths,
    meanings: &ProgramMeanings,
) -> Result<Option<(usize, Fault)>, NoMemory>
    ensures { (p : Program) → TellProgram p tables.now →
        ArePaths tables.now.names.units.items tables.now.documents.items (Some paths.now) →
        AreMeanings tables.now.names.units.items tables.now.documents.items paths.now.ids.items meanings.now →
        IfOk result (λ found. found ≡ first_found (s.first_in_document p) 0 (length p)) }
{
    let documents = tables.documents.as_slice();
    'documents: for document in 0..documents.len() {
        match first_in(alloc, tables, paths, meanings, document)? {
            Some(fault) => return Ok(Some((document, fault))),
            None => {}
        }
    }
    Ok(None)
}
