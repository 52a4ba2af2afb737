//! The tables of a program.

ghost use Rattle.std.specs.Prelude.{◌≡◌, ◌++◌, ◌∷◌, [], option_copied, slice_get, IfOk, OnOk};
ghost use Rattle.program_names.specs.Reading.{Sources};
ghost use Rattle.program_names.specs.Loaded.{program_of};
ghost use Rattle.type_search.specs.Causes.{Causes, Keeps};
ghost use Rattle.type_search.specs.Search.{Knows};
ghost use Rattle.read_order.specs.Order.{file_of};
ghost use Rattle.program_reading.specs.Known.{Holds, AreOf};
ghost use Rattle.document_tables.specs.Tables.{FileMade, AllMade, AreTables};

use crate::document::{UnitTable, file_table};
use document_rows::ObjectRow;
use file_sources::Content;
use program_reading::KnownFiles;
use program_tables::{BuiltInNames, Names, UnitNames, UnitRow, tables_of_rows_stand};
use program_types::ProgramFiles;
use qml_base::NoMemory;
use qml_outside::Files;
use read_order::File;
use std::alloc::Global;
use std::rc::Rc;
use type_search::SearchFault;

/// A file of a program: what it is, the rows of its objects and of its members, and of each of these whether it stands in a group.
#[derive(Drop)]
pub struct DocumentTable {
    pub content: Rc<Content>,
    pub objects: Vec<ObjectRow>,
    pub rows: Vec<UnitRow>,
    pub inside: Vec<bool>,
}

/// The names that the objects of a program have, and its files by their numbers.
#[derive(Drop)]
pub struct ProgramTables {
    pub names: Names,
    pub documents: Vec<DocumentTable>,
}

/// The table of a file with what it is.
fn known_table<F: Files>(
    alloc: Global,
    known: &mut KnownFiles,
    files: &mut F,
    program: &ProgramFiles,
    file: &File,
) -> Result<(UnitNames, DocumentTable), SearchFault>
    ensures told { IfOk result (λ made. (sources : Sources) → Holds known.new sources →
        FileMade program.now sources (file_of file.now) made.0 made.1) }
    ensures steady { Knows (Holds known.old) (Holds known.new) }
    ensures real { Keeps (Holds known.old) (Holds known.new) AreOf (F.told files.old) (F.told files.new) }
    ensures cause { Causes (F.faults files.old) (F.faults files.new) (F.failed files.old) (F.failed files.new) result }
{
    let Ok(same) = file.copy(alloc) else {
        return Err(SearchFault::NoMemory);
    };
    match known.content(alloc, files, same) {
        Ok(content) => match file_table(alloc, program, file, &content) {
            Ok(made) => Ok(split(made, content)),
            Err(NoMemory) => Err(SearchFault::NoMemory),
        },
        Err(fault) => Err(fault),
    }
}

/// A table in its two parts.
fn split(made: UnitTable, content: Rc<Content>) -> (UnitNames, DocumentTable)
    ensures { (result.0 ≡ made.names) × (result.1.content ≡ content) × (result.1.objects ≡ made.objects) × (result.1.rows ≡ made.rows) × (result.1.inside ≡ made.inside) }
{
    (
        made.names,
        DocumentTable {
            content,
            objects: made.objects,
            rows: made.rows,
            inside: made.inside,
        },
    )
}

/// Adds the table of a file to those before.
fn push_table(
    units: &mut Vec<UnitNames>,
    documents: &mut Vec<DocumentTable>,
    made: (UnitNames, DocumentTable),
) -> Result<(), NoMemory>
    ensures { OnOk result ((units.new.items ≡ units.old.items ++ made.0 ∷ []) × (documents.new.items ≡ documents.old.items ++ made.1 ∷ [])) }
{
    units.push(made.0)?;
    documents.push(made.1)?;
    Ok(())
}

/// The tables of all files, in their order.
fn file_tables<F: Files>(
    alloc: Global,
    known: &mut KnownFiles,
    files: &mut F,
    program: &ProgramFiles,
) -> Result<(Vec<UnitNames>, Vec<DocumentTable>), SearchFault>
    ensures told { IfOk result (λ made. (sources : Sources) → Holds known.new sources →
        AllMade program.now sources program.now made.0.items made.1.items) }
    ensures steady { Knows (Holds known.old) (Holds known.new) }
    ensures real { Keeps (Holds known.old) (Holds known.new) AreOf (F.told files.old) (F.told files.new) }
    ensures cause { Causes (F.faults files.old) (F.faults files.new) (F.failed files.old) (F.failed files.new) result }
{
    let mut units = Vec::new(alloc);
    let mut documents = Vec::new(alloc);
    'files: for at in 0..program.len() {
        let Some(file) = program.file(at) else {
            return Ok((units, documents));
        };
        match known_table(alloc, known, files, program, file) {
            Ok(made) => {
                if push_table(&mut units, &mut documents, made).is_err() {
                    return Err(SearchFault::NoMemory);
                }
            }
            Err(fault) => return Err(fault),
        }
    }
    Ok((units, documents))
}

/// The table of the document of a number, if it is there.
pub fn table_at(documents: &[DocumentTable], document: usize) -> Option<&DocumentTable>
    ensures { option_copied result ≡ slice_get documents.now document }
{
    documents.get(document)
}

/// The tables of a program whose files were read, each made once, in reading order. A file that isn't known is read. Failed comes
/// only where the files' count of faults rose in this call, with the path of the file; want of memory is free. What was known stays
/// known.
pub fn tables_of_program<F: Files>(
    alloc: Global,
    known: &mut KnownFiles,
    files: &mut F,
    program: &ProgramFiles,
) -> Result<ProgramTables, SearchFault>
    ensures told { IfOk result (λ tables. (sources : Sources) → Holds known.new sources → AreTables sources program.now tables) }
    ensures steady { Knows (Holds known.old) (Holds known.new) }
    ensures real { Keeps (Holds known.old) (Holds known.new) AreOf (F.told files.old) (F.told files.new) }
    ensures cause { Causes (F.faults files.old) (F.faults files.new) (F.failed files.old) (F.failed files.new) result }
{
    let Ok(built_in) = BuiltInNames::new(alloc) else {
        return Err(SearchFault::NoMemory);
    };
    tables_of_rows_stand();
    match file_tables(alloc, known, files, program) {
        Ok((units, documents)) => Ok(ProgramTables {
            names: Names { built_in, units },
            documents,
        }),
        Err(fault) => Err(fault),
    }
}
