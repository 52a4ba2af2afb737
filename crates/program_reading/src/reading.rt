//! Reading files in their order.

ghost use Rattle.std.specs.Prelude.{◌≡◌, false, IfOk, List};
ghost use Rattle.qml_syntax.specs.Tree.{Import, Object as AnObject, document};
ghost use Rattle.qml_syntax.specs.Listed.{listed_document};
ghost use Rattle.program_names.specs.Reading.{Sources, Source, is_document, read_by, refused_by, fault};
ghost use Rattle.file_sources.specs.Contents.{Shows};
ghost use Rattle.document_rows.specs.Entries.{IsDocument};
ghost use Rattle.type_search.specs.Causes.{Causes, Keeps};
ghost use Rattle.type_search.specs.Search.{Knows};
ghost use Rattle.read_order.specs.Order.{IsEnd, file_of, read_of};
ghost use Rattle.program_reading.specs.Known.{Holds, AreOf};

use crate::known::KnownFiles;
use document_counts::has_too_many;
use document_rows::document_rows;
use file_sources::Content;
use name_reading::read_names;
use program_names::Fault;
use qml_base::{LoadCause, Place};
use qml_outside::Files;
use qml_syntax::Tree;
use read_order::{Ended, File, FileRead, Reader, read_all};
use std::alloc::Global;
use type_search::SearchFault;

/// The start of a file, where it is told that it is missing or has too much.
const START: Place = Place { line: 1, column: 1 };

fn refused(at: Place, cause: LoadCause) -> FileRead
    ensures { read_of result ≡ refused_by (fault at cause) }
{
    FileRead::Refused(Fault { at, cause })
}

/// Reads a document by its tree.
fn read_document<F: Files>(
    alloc: Global,
    known: &mut KnownFiles,
    files: &mut F,
    file: &File,
    tree: &Tree,
) -> Result<FileRead, SearchFault>
    requires { IsDocument tree.now }
    ensures told { (imports : List Import) (root : AnObject) → listed_document (document imports root) ≡ tree.now →
        IfOk result (λ how. (sources : Sources) → Holds known.new sources → sources (file_of file.now) ≡ is_document (document imports root) →
        read_of how ≡ read_by sources (file_of file.now)) }
    ensures steady { Knows (Holds known.old) (Holds known.new) }
    ensures real { Keeps (Holds known.old) (Holds known.new) AreOf (F.told files.old) (F.told files.new) }
    ensures cause { Causes (F.faults files.old) (F.faults files.new) (F.failed files.old) (F.failed files.new) result }
{
    let Ok(rows) = document_rows(alloc, tree) else {
        return Err(SearchFault::NoMemory);
    };
    if has_too_many(tree, &rows) {
        return Ok(refused(START, LoadCause::TooMany));
    }
    read_names(alloc, known, files, &file.path, tree, &rows)
}

/// Reads a file by what it is.
#[tactic(auto, using(crate::proofs::ReadLemmas::read_missing, crate::proofs::ReadLemmas::read_large, crate::proofs::ReadLemmas::read_unread, crate::proofs::ReadLemmas::read_script, crate::proofs::ReadLemmas::document_shown, crate::proofs::ReadLemmas::is_document_of))]
fn read_shown<F: Files>(
    alloc: Global,
    known: &mut KnownFiles,
    files: &mut F,
    file: &File,
    content: &Content,
) -> Result<FileRead, SearchFault>
    requires { (s : Source) × Shows content.now s }
    ensures told { IfOk result (λ how. (sources : Sources) → Holds known.new sources → Shows content.now (sources (file_of file.now)) →
        read_of how ≡ read_by sources (file_of file.now)) }
    ensures steady { Knows (Holds known.old) (Holds known.new) }
    ensures real { Keeps (Holds known.old) (Holds known.new) AreOf (F.told files.old) (F.told files.new) }
    ensures cause { Causes (F.faults files.old) (F.faults files.new) (F.failed files.old) (F.failed files.new) result }
{
    match content {
        Content::Missing => Ok(refused(START, LoadCause::Missing)),
        Content::TooLarge => Ok(refused(START, LoadCause::TooMany)),
        Content::Unread { at, cause } => Ok(refused(*at, *cause)),
        Content::Script(_) => Ok(FileRead::Mentioning(Vec::new(alloc))),
        Content::Document(tree) => read_document(alloc, known, files, file, tree),
    }
}

impl Reader for KnownFiles {
    ghost use Rattle.program_reading.specs.Known.{Holds, AreOf};

    ghost allows = { Holds };

    ghost are_of = { AreOf };

    fn read_file<F: Files>(
        &mut self,
        alloc: Global,
        files: &mut F,
        file: &File,
    ) -> Result<FileRead, SearchFault> {
        let Ok(same) = file.copy(alloc) else {
            return Err(SearchFault::NoMemory);
        };
        match self.content(alloc, files, same) {
            Ok(content) => read_shown(alloc, self, files, file, &content),
            Err(fault) => Err(fault),
        }
    }
}

/// Reads the document of a path and all documents and scripts that it mentions, through others too, in the order of first mention, up
/// to the first that is refused. A file that is known isn't read again. Failed comes only where the files' count of faults rose in
/// this call, with the path of the file; want of memory is free. What was known stays known.
pub fn read_program<F: Files>(
    alloc: Global,
    known: &mut KnownFiles,
    files: &mut F,
    path: &[u8],
) -> Result<Ended, SearchFault>
    ensures told { IfOk result (λ end. (sources : Sources) → Holds known.new sources → IsEnd sources (record { is_script = false; path = path.now }) end) }
    ensures steady { Knows (Holds known.old) (Holds known.new) }
    ensures real { Keeps (Holds known.old) (Holds known.new) AreOf (F.told files.old) (F.told files.new) }
    ensures cause { Causes (F.faults files.old) (F.faults files.new) (F.failed files.old) (F.failed files.new) result }
{
    let Ok(path) = Vec::from_slice(alloc, path) else {
        return Err(SearchFault::NoMemory);
    };
    let root = File {
        is_script: false,
        path,
    };
    read_all(alloc, known, files, root)
}
