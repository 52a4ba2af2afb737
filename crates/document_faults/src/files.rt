//! The search over a program whose files were read.

ghost use Rattle.std.specs.Prelude.{IfOk};
ghost use Rattle.program_names.specs.Reading.{Sources};
ghost use Rattle.program_names.specs.Loaded.{Program, program_of};
ghost use Rattle.type_search.specs.Causes.{Causes, Keeps};
ghost use Rattle.type_search.specs.Search.{Knows};
ghost use Rattle.program_reading.specs.Known.{Holds, AreOf};
ghost use Rattle.document_tables.specs.Tables.{TellProgram};
ghost use Rattle.document_faults.specs.Found.{IsFound};

use crate::order::first_of_program;
use document_tables::{ProgramTables, tables_of_program};
use program_meanings::program_meanings;
use program_names::Fault;
use program_paths::program_paths;
use program_reading::KnownFiles;
use program_types::ProgramFiles;
use qml_base::NoMemory;
use qml_outside::Files;
use std::alloc::Global;
use type_search::SearchFault;

/// What is found in a program.
#[derive(Clone, Copy, Debug)]
pub enum Found {
    /// Some object doesn't decide by what it is written as whether it begins a component, so nothing is told.
    Undecided,
    /// The first fault, if there is one, with the number of its document.
    First(Option<(usize, Fault)>),
}

/// What is found in the tables of a program.
fn first_of_tables(alloc: Global, tables: &ProgramTables) -> Result<Found, NoMemory>
    ensures { (p : Program) → TellProgram p tables.now → IfOk result (λ found. IsFound p found) }
{
    match program_paths(alloc, &tables.names, &tables.documents)? {
        Some(paths) => {
            let meanings = program_meanings(alloc, tables, &paths)?;
            let first = first_of_program(alloc, tables, &paths, &meanings)?;
            Ok(Found::First(first))
        }
        None => Ok(Found::Undecided),
    }
}

/// The first of the faults that `tell_document` tells, over the documents of a program whose files were read, in reading order. A file
/// that isn't known is read. Failed comes only where the files' count of faults rose in this call, with the path of the file; want of
/// memory is free. What was known stays known.
pub fn first_of_files<F: Files>(
    alloc: Global,
    known: &mut KnownFiles,
    files: &mut F,
    program: &ProgramFiles,
) -> Result<Found, SearchFault>
    ensures told { IfOk result (λ found. (sources : Sources) → Holds known.new sources → IsFound (program_of sources program.now) found) }
    ensures steady { Knows (Holds known.old) (Holds known.new) }
    ensures real { Keeps (Holds known.old) (Holds known.new) AreOf (F.told files.old) (F.told files.new) }
    ensures cause { Causes (F.faults files.old) (F.faults files.new) (F.failed files.old) (F.failed files.new) result }
{
    match tables_of_program(alloc, known, files, program) {
        Ok(tables) => match first_of_tables(alloc, &tables) {
            Ok(found) => Ok(found),
            Err(NoMemory) => Err(SearchFault::NoMemory),
        },
        Err(fault) => Err(fault),
    }
}
