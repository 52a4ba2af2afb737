//! The documents that each document of a program uses.

ghost use Rattle.std.specs.Prelude.{◌≡◌, IfOk, List};
ghost use Rattle.qml_syntax.specs.Tree.{Import, Object as AnObject, document};
ghost use Rattle.qml_syntax.specs.Listed.{listed_document};
ghost use Rattle.program_names.specs.Reading.{Sources, Source, is_document};
ghost use Rattle.program_names.specs.Loaded.{unit_of};
ghost use Rattle.file_sources.specs.Contents.{Shows};
ghost use Rattle.document_rows.specs.Entries.{IsDocument};
ghost use Rattle.type_search.specs.Causes.{Causes, Keeps};
ghost use Rattle.type_search.specs.Search.{Knows};
ghost use Rattle.read_order.specs.Order.{file_of};
ghost use Rattle.program_reading.specs.Known.{Holds, AreOf};
ghost use Rattle.unit_cycles.specs.Uses.{uses_in};
ghost use Rattle.program_passes.specs.UsesOfUnits.{uses_of_unit, uses_of_file, uses_of_files, rows_in};

use document_rows::document_rows;
use file_sources::Content;
use program_reading::KnownFiles;
use program_types::{ProgramFiles, document_uses};
use qml_base::NoMemory;
use qml_outside::Files;
use qml_syntax::Tree;
use read_order::File;
use std::alloc::Global;
use type_search::SearchFault;
use unit_cycles::DocumentUse;

/// Those of a document by its tree.
fn tree_uses(
    alloc: Global,
    program: &ProgramFiles,
    file: &File,
    tree: &Tree,
) -> Result<Vec<DocumentUse>, NoMemory>
    requires { IsDocument tree.now }
    ensures { (imports : List Import) (root : AnObject) → listed_document (document imports root) ≡ tree.now →
        IfOk result (λ uses. uses_in uses ≡ uses_of_unit program.now (unit_of (file_of file.now) (is_document (document imports root)))) }
{
    let rows = document_rows(alloc, tree)?;
    let uses = document_uses(alloc, program, &file.path, tree, &rows)?;
    Ok(uses)
}

/// Those of a file by what it is.
fn shown_uses(
    alloc: Global,
    program: &ProgramFiles,
    file: &File,
    content: &Content,
) -> Result<Vec<DocumentUse>, NoMemory>
    requires { (s : Source) × Shows content.now s }
    ensures { (s : Source) → Shows content.now s → IfOk result (λ uses. uses_in uses ≡ uses_of_unit program.now (unit_of (file_of file.now) s)) }
{
    match content {
        Content::Missing => Ok(Vec::new(alloc)),
        Content::TooLarge => Ok(Vec::new(alloc)),
        Content::Unread { at: _, cause: _ } => Ok(Vec::new(alloc)),
        Content::Script(_) => Ok(Vec::new(alloc)),
        Content::Document(tree) => tree_uses(alloc, program, file, tree),
    }
}

/// Those of a file.
fn file_uses<F: Files>(
    alloc: Global,
    known: &mut KnownFiles,
    files: &mut F,
    program: &ProgramFiles,
    file: &File,
) -> Result<Vec<DocumentUse>, SearchFault>
    ensures told { IfOk result (λ uses. (sources : Sources) → Holds known.new sources → uses_in uses ≡ uses_of_file program.now sources (file_of file.now)) }
    ensures steady { Knows (Holds known.old) (Holds known.new) }
    ensures real { Keeps (Holds known.old) (Holds known.new) AreOf (F.told files.old) (F.told files.new) }
    ensures cause { Causes (F.faults files.old) (F.faults files.new) (F.failed files.old) (F.failed files.new) result }
{
    let Ok(same) = file.copy(alloc) else {
        return Err(SearchFault::NoMemory);
    };
    match known.content(alloc, files, same) {
        Ok(content) => match shown_uses(alloc, program, file, &content) {
            Ok(uses) => Ok(uses),
            Err(NoMemory) => Err(SearchFault::NoMemory),
        },
        Err(fault) => Err(fault),
    }
}

/// The documents that each file of a program uses, in the order of the files.
pub fn uses_of_all<F: Files>(
    alloc: Global,
    known: &mut KnownFiles,
    files: &mut F,
    program: &ProgramFiles,
) -> Result<Vec<Vec<DocumentUse>>, SearchFault>
    ensures told { IfOk result (λ rows. (sources : Sources) → Holds known.new sources → rows_in rows.items ≡ uses_of_files program.now sources program.now) }
    ensures steady { Knows (Holds known.old) (Holds known.new) }
    ensures real { Keeps (Holds known.old) (Holds known.new) AreOf (F.told files.old) (F.told files.new) }
    ensures cause { Causes (F.faults files.old) (F.faults files.new) (F.failed files.old) (F.failed files.new) result }
{
    let mut rows = Vec::new(alloc);
    'files: for at in 0..program.len() {
        let Some(file) = program.file(at) else {
            return Ok(rows);
        };
        match file_uses(alloc, known, files, program, file) {
            Ok(uses) => {
                if rows.push(uses).is_err() {
                    return Err(SearchFault::NoMemory);
                }
            }
            Err(fault) => return Err(fault),
        }
    }
    Ok(rows)
}
