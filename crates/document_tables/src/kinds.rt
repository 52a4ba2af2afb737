//! The kinds that properties are declared with.

ghost use Rattle.std.specs.Prelude.{◌≡◌, ◌∷◌, IfOk};
ghost use Rattle.qml_syntax.specs.Places.{behind};
ghost use Rattle.qml_types.specs.Kinds.{basic_kind as basic};
ghost use Rattle.type_uses.specs.Uses.{nodes_at};
ghost use Rattle.document_imports.specs.Imports.{row_values};
ghost use Rattle.document_tables.specs.Finding as s;

use crate::types::dot_behind;
use document_imports::ImportRow;
use document_members::Member;
use file_paths::ascii_name;
use program_types::{ProgramFiles, type_named};
use qml_base::NoMemory;
use qml_syntax::{Node, Tree};
use qml_text::Text;
use qml_types::{PropKind, TypeRef, basic_kind};
use std::alloc::Global;
use type_uses::{Name, name_at};

fn type_or_var(found: Option<TypeRef>) -> PropKind
    ensures { result ≡ s.type_or_var found }
{
    match found {
        Some(found) => found.kind(),
        None => PropKind::Var,
    }
}

fn list_or_var(found: Option<TypeRef>) -> PropKind
    ensures { result ≡ s.list_or_var found }
{
    match found {
        Some(found) => PropKind::List(found),
        None => PropKind::Var,
    }
}

/// The kind of a name that is no type.
fn basic_kind_of(alloc: Global, name: &Text) -> Result<Option<PropKind>, NoMemory>
    ensures { IfOk result (λ kind. kind ≡ basic name.now) }
{
    match ascii_name(alloc, name)? {
        Some(ascii) => Ok(basic_kind(&ascii)),
        None => Ok(None),
    }
}

/// The kind of one name.
fn single_kind(
    alloc: Global,
    program: &ProgramFiles,
    here: &[u8],
    imports: &[ImportRow],
    name: &Text,
) -> Result<PropKind, NoMemory>
    ensures { IfOk result (λ kind. kind ≡ s.single_kind program.now here.now (row_values imports.now) name.now) }
{
    match basic_kind_of(alloc, name)? {
        Some(kind) => Ok(kind),
        None => Ok(type_or_var(type_named(alloc, program, here, imports, &None, name)?)),
    }
}

/// The kind of a name, or of the name behind its dot with it as qualifier.
fn path_kind(
    alloc: Global,
    program: &ProgramFiles,
    here: &[u8],
    imports: &[ImportRow],
    first: Name,
    behind: Option<Text>,
) -> Result<PropKind, NoMemory>
    ensures { IfOk result (λ kind. kind ≡ s.path_kind program.now here.now (row_values imports.now) first behind) }
{
    match behind {
        None => single_kind(alloc, program, here, imports, &first.text),
        Some(name) => Ok(type_or_var(type_named(
            alloc,
            program,
            here,
            imports,
            &Some(first.text),
            &name,
        )?)),
    }
}

/// The kind whose first name is this part.
fn named_kind(
    alloc: Global,
    program: &ProgramFiles,
    here: &[u8],
    imports: &[ImportRow],
    tree: &Tree,
    part: usize,
) -> Result<PropKind, NoMemory>
    ensures { IfOk result (λ kind. kind ≡
        s.kind_of_nodes program.now here.now (row_values imports.now) (nodes_at tree.now (part ∷ behind tree.now part))) }
{
    let first = name_at(alloc, tree, part)?;
    let behind = dot_behind(alloc, tree, part)?;
    path_kind(alloc, program, here, imports, first, behind)
}

/// The kind at a place; one that names no type counts as `var`.
pub(crate) fn kind_at(
    alloc: Global,
    program: &ProgramFiles,
    here: &[u8],
    imports: &[ImportRow],
    tree: &Tree,
    at: usize,
) -> Result<PropKind, NoMemory>
    ensures { IfOk result (λ kind. kind ≡ s.kind_at program.now here.now (row_values imports.now) tree.now at) }
{
    match tree.node(at) {
        Some(Node::KindList(name, _)) => Ok(list_or_var(type_named(
            alloc, program, here, imports, &None, name,
        )?)),
        Some(Node::KindName) => match tree.first(at) {
            Some(part) => named_kind(alloc, program, here, imports, tree, part),
            None => Ok(PropKind::Var),
        },
        _ => Ok(PropKind::Var),
    }
}

/// The kind that a member declares; of one that is no property `var`.
pub(crate) fn member_kind(
    alloc: Global,
    program: &ProgramFiles,
    here: &[u8],
    imports: &[ImportRow],
    tree: &Tree,
    member: &Member,
) -> Result<PropKind, NoMemory>
    ensures { IfOk result (λ kind. kind ≡ s.member_kind program.now here.now (row_values imports.now) tree.now member.now) }
{
    match member {
        Member::Property {
            at: _,
            adjective: _,
            kind,
            name: _,
            name_at: _,
            value: _,
        } => kind_at(alloc, program, here, imports, tree, *kind),
        _ => Ok(PropKind::Var),
    }
}
