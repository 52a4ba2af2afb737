//! The documents that a document uses.

ghost use Rattle.std.specs.Prelude.{◌≡◌, ◌++◌, IfOk, OnOk, List, map};
ghost use Rattle.std.specs.Option.{option_map, option_to_list};
ghost use Rattle.qml_syntax.specs.Tree.{Import, Object as AnObject, document};
ghost use Rattle.qml_syntax.specs.Listed.{listed_document};
ghost use Rattle.program_names.specs.Paths.{directory_of as directory};
ghost use Rattle.program_names.specs.Types.{type_uses as uses_written};
ghost use Rattle.document_imports.specs.Imports.{row_of, row_values};
ghost use Rattle.document_rows.specs.Entries.{AreRows};
ghost use Rattle.type_uses.specs.Uses.{use_of, uses_of};
ghost use Rattle.unit_cycles.specs.Uses.{use_of as use_value};
ghost use Rattle.program_types.specs.UsesNamed.{used_by, use_in, uses_named};

use crate::files::ProgramFiles;
use crate::named::type_named;
use document_imports::{ImportRow, imports_of};
use document_rows::DocumentRows;
use file_paths::directory_of;
use qml_base::{NoMemory, Place};
use qml_syntax::Tree;
use qml_types::TypeRef;
use std::alloc::Global;
use type_uses::{TypeUse, type_uses};
use unit_cycles::DocumentUse;

fn use_of_type(at: Place, found: Option<TypeRef>) -> Option<DocumentUse>
    ensures { option_map use_value result ≡ used_by at found }
{
    match found {
        Some(TypeRef::Document(unit)) => Some(DocumentUse {
            at,
            document: unit.0 as usize,
        }),
        Some(TypeRef::Builtin(_)) => None,
        None => None,
    }
}

fn document_use(
    alloc: Global,
    program: &ProgramFiles,
    here: &[u8],
    rows: &[ImportRow],
    u: &TypeUse,
) -> Result<Option<DocumentUse>, NoMemory>
    ensures { IfOk result (λ found. option_map use_value found ≡ use_in program.now here.now (row_values rows.now) (use_of u.now)) }
{
    match u {
        TypeUse::Named {
            at,
            qualifier,
            name,
        } => Ok(use_of_type(
            *at,
            type_named(alloc, program, here, rows, qualifier, name)?,
        )),
        TypeUse::Misnamed { at: _ } => Ok(None),
    }
}

fn push_use(uses: &mut Vec<DocumentUse>, found: Option<DocumentUse>) -> Result<(), NoMemory>
    ensures { OnOk result (map use_value uses.new.items ≡ map use_value uses.old.items ++ option_to_list (option_map use_value found)) }
{
    if let Some(found) = found {
        uses.push(found)?;
    }
    Ok(())
}

fn uses_in_rows(
    alloc: Global,
    program: &ProgramFiles,
    here: &[u8],
    rows: &[ImportRow],
    written: &[TypeUse],
) -> Result<Vec<DocumentUse>, NoMemory>
    ensures { IfOk result (λ uses. map use_value uses.items ≡ uses_named program.now here.now (row_values rows.now) (uses_of written.now)) }
{
    let mut uses = Vec::new(alloc);
    'written: for u in written {
        let found = document_use(alloc, program, here, rows, u)?;
        push_use(&mut uses, found)?;
    }
    Ok(uses)
}

/// The documents that the document of a path uses as types, in the order of writing, from its tree and the rows of it. Want of memory
/// is the one other answer.
pub fn document_uses(
    alloc: Global,
    program: &ProgramFiles,
    path: &[u8],
    tree: &Tree,
    rows: &DocumentRows,
) -> Result<Vec<DocumentUse>, NoMemory>
    requires { AreRows tree.now rows.now.objects.items rows.now.members.items }
    ensures { (imports : List Import) (root : AnObject) → listed_document (document imports root) ≡ tree.now →
        IfOk result (λ uses. map use_value uses.items ≡
        uses_named program.now (directory path.now) (map (row_of (directory path.now)) imports) (uses_written root)) }
{
    let here = directory_of(path);
    let imports = imports_of(alloc, tree, here)?;
    let written = type_uses(alloc, tree, rows)?;
    uses_in_rows(alloc, program, here, &imports, &written)
}
