//! The rows of a document with their members and kinds, and the types of its objects.

ghost use Rattle.std.specs.Prelude.{◌≡◌, map, IfOk};
ghost use Rattle.document_imports.specs.Imports.{row_values};
ghost use Rattle.document_rows.specs.declared.rows.ObjectRow.{ObjectRow as AnObjectRow};
ghost use Rattle.document_tables.specs.Finding.{object_type as type_of_node};
ghost use Rattle.document_tables.specs.Making.{MakesRow, MakesRows};

use crate::kinds::member_kind;
use crate::types::object_type;
use document_imports::ImportRow;
use document_members::read_member;
use document_rows::{MemberRow, ObjectRow};
use program_tables::UnitRow;
use program_types::ProgramFiles;
use qml_base::NoMemory;
use qml_syntax::Tree;
use qml_types::TypeRef;
use std::alloc::Global;

/// The types of objects.
pub(crate) fn object_types(
    alloc: Global,
    program: &ProgramFiles,
    here: &[u8],
    imports: &[ImportRow],
    tree: &Tree,
    objects: &[ObjectRow],
) -> Result<Vec<TypeRef>, NoMemory>
    ensures { IfOk result (λ types. types.items ≡
        map (λ (o : AnObjectRow). type_of_node program.now here.now (row_values imports.now) tree.now o.node) objects.now) }
{
    let mut types = Vec::new(alloc);
    'objects: for object in objects {
        types.push(object_type(alloc, program, here, imports, tree, object.node)?)?;
    }
    Ok(types)
}

/// A row with its member and the kind that it declares; what `parts` holds is lost.
fn unit_row(
    alloc: Global,
    program: &ProgramFiles,
    here: &[u8],
    imports: &[ImportRow],
    tree: &Tree,
    row: MemberRow,
    parts: &mut Vec<usize>,
) -> Result<UnitRow, NoMemory>
    ensures { IfOk result (λ made. MakesRow program.now here.now (row_values imports.now) tree.now row made) }
{
    let member = read_member(alloc, tree, row.node, parts)?;
    let kind = member_kind(alloc, program, here, imports, tree, &member)?;
    Ok(UnitRow { row, member, kind })
}

/// The rows of members.
pub(crate) fn unit_rows(
    alloc: Global,
    program: &ProgramFiles,
    here: &[u8],
    imports: &[ImportRow],
    tree: &Tree,
    rows: &[MemberRow],
) -> Result<Vec<UnitRow>, NoMemory>
    ensures { IfOk result (λ made. MakesRows program.now here.now (row_values imports.now) tree.now rows.now made.items) }
{
    let mut parts = Vec::new(alloc);
    let mut made = Vec::new(alloc);
    'rows: for row in rows {
        let one = unit_row(alloc, program, here, imports, tree, *row, &mut parts)?;
        made.push(one)?;
    }
    Ok(made)
}
