//! The search over a document, and over the documents of a program.

ghost use Rattle.std.specs.Prelude.{◌≡◌, length, IfOk, OnOk};
ghost use Rattle.program_names.specs.Loaded.{Program};
ghost use Rattle.load_faults.specs.Faults.{first_from};
ghost use Rattle.document_tables.specs.Tables.{TellProgram};
ghost use Rattle.name_faults.specs.Names as s;

use crate::declared::declared_rows;
use crate::ids::id_rows;
use crate::roles::role_rows;
use document_tables::{ProgramTables, table_at};
use load_passes::{Best, tell_repeated};
use program_names::Fault;
use program_tables::{Names, UnitRow, names_mean_as_in_the_program, types_are_as_in_the_program};
use qml_base::{LoadCause, NoMemory};
use std::alloc::Global;
use written_order::{
    declared_names_in_the_order_of_writing, roles_in_the_order_of_writing,
    second_ids_in_the_order_of_writing,
};

/// Tells the names that these rows of a document use twice.
#[tactic(auto, using(crate::proofs::PassLemmas::told_three))]
fn tell_rows(
    alloc: Global,
    names: &Names,
    document: usize,
    rows: &[UnitRow],
    inside: &[bool],
    best: &mut Best,
) -> Result<(), NoMemory>
    ensures { OnOk result (best.new.fault ≡
        first_from best.old.fault (s.faults_of_rows names.now.units.items document rows.now inside.now)) }
{
    let cause = LoadCause::DuplicateName;
    let declared = declared_rows(alloc, names, document, rows, inside)?;
    tell_repeated(alloc, &declared, cause, best)?;
    let ids = id_rows(alloc, rows, inside)?;
    tell_repeated(alloc, &ids, cause, best)?;
    let roles = role_rows(alloc, names, document, rows, inside)?;
    tell_repeated(alloc, &roles, cause, best)?;
    Ok(())
}

/// Tells, of the document of a number, each name that an object declares again, of its type or of its own, each second id of an
/// object, and each role that a row gives twice (Qt 5.15, "QML Object Attributes"). What is kept is the first of these faults and
/// of what was kept before. Want of memory is the one error; some of the faults may be told then.
pub fn tell_names(
    alloc: Global,
    tables: &ProgramTables,
    document: usize,
    best: &mut Best,
) -> Result<(), NoMemory>
    ensures { (p : Program) → TellProgram p tables.now →
        OnOk result (best.new.fault ≡ first_from best.old.fault (s.faults_by_names p document)) }
{
    names_mean_as_in_the_program();
    types_are_as_in_the_program();
    declared_names_in_the_order_of_writing();
    second_ids_in_the_order_of_writing();
    roles_in_the_order_of_writing();
    match table_at(&tables.documents, document) {
        Some(table) => tell_rows(
            alloc,
            &tables.names,
            document,
            &table.rows,
            &table.inside,
            best,
        ),
        None => Ok(()),
    }
}

/// The first of these faults in one document.
fn first_in(
    alloc: Global,
    tables: &ProgramTables,
    document: usize,
) -> Result<Option<Fault>, NoMemory>
    ensures { (p : Program) → TellProgram p tables.now → IfOk result (λ found. found ≡ s.first_in_document p document) }
{
    let mut best = Best::new();
    tell_names(alloc, tables, document, &mut best)?;
    Ok(best.fault)
}

/// The first of these faults in the documents of a program, in reading order, with the number of its document. Want of memory is
/// the one error.
pub fn first_of_names(
    alloc: Global,
    tables: &ProgramTables,
) -> Result<Option<(usize, Fault)>, NoMemory>
    ensures { (p : Program) → TellProgram p tables.now →
        IfOk result (λ found. found ≡ s.first_found (s.first_in_document p) 0 (length p)) }
{
    let documents = tables.documents.as_slice();
    'documents: for document in 0..documents.len() {
        match first_in(alloc, tables, document)? {
            Some(fault) => return Ok(Some((document, fault))),
            None => {}
        }
    }
    Ok(None)
}
