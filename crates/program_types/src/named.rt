//! The types that names find.

ghost use Rattle.std.specs.Prelude.{◌≡◌, IfOk};
ghost use Rattle.std.specs.Option.{option_map};
ghost use Rattle.document_imports.specs.Imports.{row_values};
ghost use Rattle.program_types.specs.Numbers.{document_in, document_type as type_of_number, type_in, type_of_found};
ghost use Rattle.type_search.specs.Search.{found_value};

use crate::files::ProgramFiles;
use document_imports::ImportRow;
use qml_base::{NoMemory, UnitNo};
use qml_outside::{Files, SureFiles};
use qml_text::Text;
use qml_types::TypeRef;
use read_order::File;
use std::alloc::Global;
use type_search::{FileSearch, SearchFault, TypeFound, find_type};

/// The documents of a program as the files that are there.
#[derive(Drop)]
struct Documents<'a> {
    program: &'a ProgramFiles,
}

/// The number of the document of a path.
fn document(alloc: Global, program: &ProgramFiles, path: &[u8]) -> Result<Option<usize>, NoMemory>
    ensures { IfOk result (λ n. n ≡ document_in program.now path.now) }
{
    let file = File {
        is_script: false,
        path: Vec::from_slice(alloc, path)?,
    };
    Ok(program.number(&file))
}

impl<'a> FileSearch for Documents<'a> {
    ghost use Rattle.std.specs.Prelude.{◌≡◌, ⊤};
    ghost use Rattle.program_names.specs.Paths.{Path};
    ghost use Rattle.type_search.specs.Search.{is_file};
    ghost use Rattle.program_types.specs.Numbers.{is_document_in};

    ghost allows = { λ documents sources. (path : Path) → is_file sources path ≡ is_document_in documents.program.now path };

    ghost are_of = { λ folder sources. ⊤ };

    fn is_file<F: Files>(
        &mut self,
        alloc: Global,
        files: &mut F,
        path: &[u8],
    ) -> Result<bool, SearchFault> {
        match document(alloc, self.program, path) {
            Ok(number) => Ok(number.is_some()),
            Err(NoMemory) => Err(SearchFault::NoMemory),
        }
    }
}

/// The type of the document of a number. Past 4,294,967,295 there is no memory.
fn document_type(number: usize) -> Result<TypeRef, NoMemory>
    ensures { IfOk result (λ t. t ≡ type_of_number number) }
{
    match u32::try_from(number) {
        Ok(number) => Ok(TypeRef::Document(UnitNo(number))),
        Err(_) => Err(NoMemory),
    }
}

/// The type that was found.
fn type_found(
    alloc: Global,
    program: &ProgramFiles,
    found: &TypeFound,
) -> Result<Option<TypeRef>, NoMemory>
    ensures { IfOk result (λ t. t ≡ type_of_found program.now (found_value found.now)) }
{
    match found {
        TypeFound::BuiltIn(no) => Ok(Some(TypeRef::Builtin(*no))),
        TypeFound::InFile(path) => match document(alloc, program, path)? {
            Some(number) => Ok(Some(document_type(number)?)),
            None => Ok(None),
        },
    }
}

/// The type that a name finds in a document of a directory with these imports: a built-in type, or a document of the program by its
/// number. Want of memory is the one other answer.
pub fn type_named(
    alloc: Global,
    program: &ProgramFiles,
    here: &[u8],
    rows: &[ImportRow],
    qualifier: &Option<Text>,
    name: &Text,
) -> Result<Option<TypeRef>, NoMemory>
    ensures { IfOk result (λ t. t ≡ type_in program.now here.now (row_values rows.now) qualifier.now name.now) }
{
    let mut nothing = SureFiles::new(Vec::new(alloc));
    let mut documents = Documents { program };
    match find_type(
        alloc,
        &mut documents,
        &mut nothing,
        here,
        rows,
        qualifier,
        name,
    ) {
        Ok(Some(found)) => type_found(alloc, program, &found),
        Ok(None) => Ok(None),
        Err(_) => Err(NoMemory),
    }
}
