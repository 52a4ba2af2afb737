//! A document's names.

ghost use Rattle.std.specs.Prelude.{◌≡◌, IfOk, List, map};
ghost use Rattle.qml_syntax.specs.Tree.{Import, Object as AnObject, document};
ghost use Rattle.qml_syntax.specs.Listed.{listed_document};
ghost use Rattle.program_names.specs.Paths.{directory_of as directory};
ghost use Rattle.program_names.specs.Types.{type_uses as uses_written};
ghost use Rattle.document_imports.specs.Imports.{row_of, row_values};
ghost use Rattle.document_rows.specs.Entries.{AreRows};
ghost use Rattle.type_uses.specs.Uses.{uses_of};
ghost use Rattle.type_search.specs.Causes.{Causes, Keeps};
ghost use Rattle.type_search.specs.Search.{Knows};
ghost use Rattle.name_reading.specs.NamesRead.{names_read, ReadsAs};

use crate::modules::{module_fault, scripts_of};
use crate::uses::read_uses;
use document_imports::{ImportRow, imports_of};
use document_rows::DocumentRows;
use file_paths::directory_of;
use qml_outside::Files;
use qml_syntax::Tree;
use read_order::FileRead;
use std::alloc::Global;
use type_search::{FileSearch, SearchFault};
use type_uses::{TypeUse, type_uses};

/// Reads rows of imports and uses.
fn read_rows<D: FileSearch, F: Files>(
    alloc: Global,
    known: &mut D,
    files: &mut F,
    here: &[u8],
    rows: &[ImportRow],
    uses: &[TypeUse],
) -> Result<FileRead, SearchFault>
    ensures told { IfOk result (λ how. ReadsAs (D.allows known.new) how (λ exists.
        names_read exists here.now (row_values rows.now) (uses_of uses.now))) }
    ensures steady { Knows (D.allows known.old) (D.allows known.new) }
    ensures real { Keeps (D.allows known.old) (D.allows known.new) D.are_of (F.told files.old) (F.told files.new) }
    ensures cause { Causes (F.faults files.old) (F.faults files.new) (F.failed files.old) (F.failed files.new) result }
{
    match module_fault(alloc, rows) {
        Ok(Some(fault)) => Ok(FileRead::Refused(fault)),
        Ok(None) => match scripts_of(alloc, rows) {
            Ok(scripts) => read_uses(alloc, known, files, here, rows, scripts, uses),
            Err(_) => Err(SearchFault::NoMemory),
        },
        Err(_) => Err(SearchFault::NoMemory),
    }
}

/// Reads the names of the document of a path, from its tree and the rows of it. It is refused at the first import of a module
/// that isn't there, else at the first use of a type that is nowhere; else it mentions the scripts that it imports and the
/// documents of the types that it uses, in the order of writing. Files are asked for in the order of the uses, and none behind
/// the first fault. Failed comes only where the count of faults rose in this call; want of memory is free.
pub fn read_names<D: FileSearch, F: Files>(
    alloc: Global,
    known: &mut D,
    files: &mut F,
    path: &[u8],
    tree: &Tree,
    rows: &DocumentRows,
) -> Result<FileRead, SearchFault>
    requires { AreRows tree.now rows.now.objects.items rows.now.members.items }
    ensures told { (imports : List Import) (root : AnObject) → listed_document (document imports root) ≡ tree.now →
        IfOk result (λ how. ReadsAs (D.allows known.new) how (λ exists.
        names_read exists (directory path.now) (map (row_of (directory path.now)) imports) (uses_written root))) }
    ensures steady { Knows (D.allows known.old) (D.allows known.new) }
    ensures real { Keeps (D.allows known.old) (D.allows known.new) D.are_of (F.told files.old) (F.told files.new) }
    ensures cause { Causes (F.faults files.old) (F.faults files.new) (F.failed files.old) (F.failed files.new) result }
{
    let here = directory_of(path);
    let Ok(imports) = imports_of(alloc, tree, here) else {
        return Err(SearchFault::NoMemory);
    };
    let Ok(uses) = type_uses(alloc, tree, rows) else {
        return Err(SearchFault::NoMemory);
    };
    read_rows(alloc, known, files, here, &imports, &uses)
}
