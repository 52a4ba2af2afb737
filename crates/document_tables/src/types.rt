//! The types that objects name.

ghost use Rattle.std.specs.Prelude.{◌≡◌, IfOk};
ghost use Rattle.qml_syntax.specs.Places.{behind};
ghost use Rattle.type_uses.specs.Uses.{node_at, nodes_at, dot_in, first_dot, named_use};
ghost use Rattle.document_imports.specs.Imports.{row_values};
ghost use Rattle.document_tables.specs.Finding as s;

use document_imports::ImportRow;
use program_types::{ProgramFiles, type_named};
use qml_base::NoMemory;
use qml_syntax::{Node, Tree};
use qml_text::Text;
use qml_types::{TypeNo, TypeRef};
use std::alloc::Global;
use type_uses::{Name, copied, name_at};

/// The name of a node behind a dot.
fn dot_at(alloc: Global, tree: &Tree, at: usize) -> Result<Option<Text>, NoMemory>
    ensures { IfOk result (λ name. name ≡ dot_in (node_at tree.now at)) }
{
    match tree.node(at) {
        Some(Node::Dot(text)) => Ok(Some(copied(alloc, text)?)),
        _ => Ok(None),
    }
}

/// The name behind the dot behind a part, if there is one.
pub(crate) fn dot_behind(alloc: Global, tree: &Tree, part: usize) -> Result<Option<Text>, NoMemory>
    ensures { IfOk result (λ name. name ≡ first_dot (nodes_at tree.now (behind tree.now part))) }
{
    match tree.next(part) {
        Some(next) => dot_at(alloc, tree, next),
        None => Ok(None),
    }
}

/// The type that a name finds, or the name behind its dot with it as qualifier.
fn found_type(
    alloc: Global,
    program: &ProgramFiles,
    here: &[u8],
    imports: &[ImportRow],
    first: Name,
    behind: Option<Text>,
) -> Result<Option<TypeRef>, NoMemory>
    ensures { IfOk result (λ t. t ≡ s.type_by program.now here.now (row_values imports.now) (named_use first behind)) }
{
    match behind {
        None => type_named(alloc, program, here, imports, &None, &first.text),
        Some(name) => type_named(alloc, program, here, imports, &Some(first.text), &name),
    }
}

/// The type; QtObject where none is found.
fn or_object(found: Option<TypeRef>) -> TypeRef
    ensures { result ≡ s.or_object found }
{
    match found {
        Some(found) => found,
        None => TypeRef::Builtin(TypeNo::QtObject),
    }
}

/// The type of the object at a place.
pub(crate) fn object_type(
    alloc: Global,
    program: &ProgramFiles,
    here: &[u8],
    imports: &[ImportRow],
    tree: &Tree,
    at: usize,
) -> Result<TypeRef, NoMemory>
    ensures { IfOk result (λ t. t ≡ s.object_type program.now here.now (row_values imports.now) tree.now at) }
{
    match tree.first(at) {
        None => Ok(or_object(None)),
        Some(part) => {
            let first = name_at(alloc, tree, part)?;
            let behind = dot_behind(alloc, tree, part)?;
            Ok(or_object(found_type(alloc, program, here, imports, first, behind)?))
        }
    }
}

/// The type of an object that has no name of a type.
pub(crate) fn nameless_type(
    alloc: Global,
    program: &ProgramFiles,
    here: &[u8],
) -> Result<TypeRef, NoMemory>
    ensures { IfOk result (λ t. t ≡ s.nameless_type program.now here.now) }
{
    let none = Vec::new(alloc);
    Ok(or_object(type_named(alloc, program, here, &none, &None, &Text::new())?))
}
