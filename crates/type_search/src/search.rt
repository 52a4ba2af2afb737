//! Finding a type.

ghost use Rattle.std.specs.Prelude.{◌≡◌, IfOk, map, reverse};
ghost use Rattle.std.specs.Option.{option_map};
ghost use Rattle.qml_types.specs.Table.{offered, offers};
ghost use Rattle.program_names.specs.Types.{built_in};
ghost use Rattle.document_imports.specs.Imports.{row_value, row_values};
ghost use Rattle.type_search.specs.Causes.{Causes, Keeps};
ghost use Rattle.type_search.specs.Search.{Finds, Knows, found_value, same_qualifier as is_same_qualifier, file_in as file_by, row_type as row_by, rows_type as rows_by, own_type as own_by, searched};

use crate::files::{FileSearch, SearchFault};
use document_imports::{ImportRow, ImportSource};
use file_paths::{ascii_name, path_of_type};
use qml_base::NoMemory;
use qml_outside::Files;
use qml_text::Text;
use qml_types::{TypeNo, lookup};
use std::alloc::Global;

/// What a type's name finds: a type that is built in, or the file of a document.
#[derive(Debug, Drop)]
pub enum TypeFound {
    BuiltIn(TypeNo),
    InFile(Vec<u8>),
}

fn same_qualifier(wanted: &Option<Text>, own: &Option<Text>) -> bool
    ensures { result ≡ is_same_qualifier wanted.now own.now }
{
    match wanted {
        None => own.is_none(),
        Some(wanted) => match own {
            None => false,
            Some(own) => wanted.units() == own.units(),
        },
    }
}

/// The file of a type in a directory, if it is there.
fn file_in<D: FileSearch, F: Files>(
    alloc: Global,
    known: &mut D,
    files: &mut F,
    directory: &[u8],
    name: &Text,
) -> Result<Option<TypeFound>, SearchFault>
    ensures told { IfOk result (λ f. Finds (D.allows known.new) f (λ exists. file_by exists directory.now name.now)) }
    ensures steady { Knows (D.allows known.old) (D.allows known.new) }
    ensures real { Keeps (D.allows known.old) (D.allows known.new) D.are_of (F.told files.old) (F.told files.new) }
    ensures cause { Causes (F.faults files.old) (F.faults files.new) (F.failed files.old) (F.failed files.new) result }
{
    let Ok(path) = path_of_type(alloc, directory, name) else {
        return Err(SearchFault::NoMemory);
    };
    match known.is_file(alloc, files, &path) {
        Ok(true) => Ok(Some(TypeFound::InFile(path))),
        Ok(false) => Ok(None),
        Err(fault) => Err(fault),
    }
}

/// The type that a module offers under a name.
fn module_type(alloc: Global, from: &Text, name: &Text) -> Result<Option<TypeFound>, NoMemory>
    ensures { IfOk result (λ f. option_map found_value f ≡ option_map built_in (offered offers from.now name.now)) }
{
    let Some(own) = ascii_name(alloc, from)? else {
        return Ok(None);
    };
    let Some(name) = ascii_name(alloc, name)? else {
        return Ok(None);
    };
    match lookup(&own, &name) {
        Some(no) => Ok(Some(TypeFound::BuiltIn(no))),
        None => Ok(None),
    }
}

/// The type that one import has under a name.
fn row_type<D: FileSearch, F: Files>(
    alloc: Global,
    known: &mut D,
    files: &mut F,
    row: &ImportRow,
    wanted: &Option<Text>,
    name: &Text,
) -> Result<Option<TypeFound>, SearchFault>
    ensures told { IfOk result (λ f. Finds (D.allows known.new) f (λ exists. row_by exists wanted.now name.now (row_value row.now))) }
    ensures steady { Knows (D.allows known.old) (D.allows known.new) }
    ensures real { Keeps (D.allows known.old) (D.allows known.new) D.are_of (F.told files.old) (F.told files.new) }
    ensures cause { Causes (F.faults files.old) (F.faults files.new) (F.failed files.old) (F.failed files.new) result }
{
    if !same_qualifier(wanted, &row.qualifier) {
        return Ok(None);
    }
    match &row.source {
        ImportSource::Module(module) => match module_type(alloc, module, name) {
            Ok(found) => Ok(found),
            Err(NoMemory) => Err(SearchFault::NoMemory),
        },
        ImportSource::Directory(directory) => file_in(alloc, known, files, directory, name),
        ImportSource::Script(_) => Ok(None),
    }
}

/// The type that the last of these imports that has one has under a name.
fn rows_type<D: FileSearch, F: Files>(
    alloc: Global,
    known: &mut D,
    files: &mut F,
    rows: &[ImportRow],
    wanted: &Option<Text>,
    name: &Text,
) -> Result<Option<TypeFound>, SearchFault>
    ensures told { IfOk result (λ f. Finds (D.allows known.new) f (λ exists. rows_by exists wanted.now name.now (reverse (row_values rows.now)))) }
    ensures steady { Knows (D.allows known.old) (D.allows known.new) }
    ensures real { Keeps (D.allows known.old) (D.allows known.new) D.are_of (F.told files.old) (F.told files.new) }
    ensures cause { Causes (F.faults files.old) (F.faults files.new) (F.failed files.old) (F.failed files.new) result }
{
    let mut rest = rows;
    'rows: while let Some((row, front)) = rest.split_last() {
        match row_type(alloc, known, files, row, wanted, name) {
            Ok(None) => {}
            answer => return answer,
        }
        rest = front;
    }
    Ok(None)
}

/// The type in a document's own directory, which has no qualifier.
fn own_type<D: FileSearch, F: Files>(
    alloc: Global,
    known: &mut D,
    files: &mut F,
    here: &[u8],
    wanted: &Option<Text>,
    name: &Text,
) -> Result<Option<TypeFound>, SearchFault>
    ensures told { IfOk result (λ f. Finds (D.allows known.new) f (λ exists. own_by exists here.now wanted.now name.now)) }
    ensures steady { Knows (D.allows known.old) (D.allows known.new) }
    ensures real { Keeps (D.allows known.old) (D.allows known.new) D.are_of (F.told files.old) (F.told files.new) }
    ensures cause { Causes (F.faults files.old) (F.faults files.new) (F.failed files.old) (F.failed files.new) result }
{
    if wanted.is_some() {
        return Ok(None);
    }
    file_in(alloc, known, files, here, name)
}

/// The type that a name finds in a document of a directory, with a qualifier or none. For all files that agree with what
/// the trait has told, it is that of the definition. Files are asked for one after another, and no further than the first
/// that is found.
pub fn find_type<D: FileSearch, F: Files>(
    alloc: Global,
    known: &mut D,
    files: &mut F,
    here: &[u8],
    rows: &[ImportRow],
    wanted: &Option<Text>,
    name: &Text,
) -> Result<Option<TypeFound>, SearchFault>
    ensures told { IfOk result (λ f. Finds (D.allows known.new) f (λ exists. searched exists here.now (row_values rows.now) wanted.now name.now)) }
    ensures steady { Knows (D.allows known.old) (D.allows known.new) }
    ensures real { Keeps (D.allows known.old) (D.allows known.new) D.are_of (F.told files.old) (F.told files.new) }
    ensures cause { Causes (F.faults files.old) (F.faults files.new) (F.failed files.old) (F.failed files.new) result }
{
    match rows_type(alloc, known, files, rows, wanted, name) {
        Ok(None) => own_type(alloc, known, files, here, wanted, name),
        answer => answer,
    }
}
