//! Types that are used.

ghost use Rattle.std.specs.Prelude.{◌≡◌, [], ◌∷◌, ◌++◌, map, IfOk, OnOk, List};
ghost use Rattle.std.specs.Option.{option_map, option_to_list};
ghost use Rattle.qml_syntax.specs.Places.{behind};
ghost use Rattle.qml_syntax.specs.Tree.{Import, Object as AnObject, document};
ghost use Rattle.qml_syntax.specs.Listed.{listed_document};
ghost use Rattle.program_names.specs.Types.{type_uses as uses_written};
ghost use Rattle.document_rows.specs.declared.rows.ObjectRow.{ObjectRow as AnObjectRow};
ghost use Rattle.document_rows.specs.Entries.{AreRows};
ghost use Rattle.type_uses.specs.Uses.{use_of, uses_of, node_at, nodes_at, named_use as use_by_name, use_of_nodes, object_use as use_of_object, paths_use, path_use as path_use_of, kind_use as use_of_kind, has_kind as is_of_kind, first_kind, member_use as use_of_member, uses_in_rows};

use crate::names::{NOWHERE, Name, copied, dot_behind, dot_name_at, is_basic_kind, name_at};
use document_rows::{DocumentRows, ObjectRow};
use qml_base::{NoMemory, Place};
use qml_syntax::{Node, Tree};
use qml_text::Text;
use std::alloc::Global;

/// A type's name in a document.
#[derive(Debug, Drop)]
pub enum TypeUse {
    /// A name, behind a qualifier or not; the place of its first token.
    Named {
        at: Place,
        qualifier: Option<Text>,
        name: Text,
    },
    /// A kind of three names or more, which names no type; the place of its first token.
    Misnamed {
        at: Place,
    },
}

/// A use by a name and the one behind its dot, if there is one.
fn named_use(first: Name, behind: Option<Text>) -> TypeUse
    ensures { use_of result ≡ use_by_name first behind }
{
    match behind {
        None => TypeUse::Named {
            at: first.at,
            qualifier: None,
            name: first.text,
        },
        Some(name) => TypeUse::Named {
            at: first.at,
            qualifier: Some(first.text),
            name,
        },
    }
}

/// The use of an object's type.
fn object_use(alloc: Global, tree: &Tree, at: usize) -> Result<TypeUse, NoMemory>
    ensures { IfOk result (λ u. use_of u ≡ use_of_object tree.now at) }
{
    match tree.first(at) {
        None => Ok(TypeUse::Misnamed { at: NOWHERE }),
        Some(part) => {
            let first = name_at(alloc, tree, part)?;
            let behind = dot_behind(alloc, tree, part)?;
            Ok(named_use(first, behind))
        }
    }
}

/// The use of a kind of one name.
fn single_use(alloc: Global, first: Name) -> Result<Option<TypeUse>, NoMemory>
    ensures { IfOk result (λ u. option_map use_of u ≡ path_use_of first []) }
{
    if is_basic_kind(alloc, &first.text)? {
        return Ok(None);
    }
    Ok(Some(TypeUse::Named {
        at: first.at,
        qualifier: None,
        name: first.text,
    }))
}

/// The use of a kind's path, whose first name is this part.
fn path_use(alloc: Global, tree: &Tree, part: usize) -> Result<Option<TypeUse>, NoMemory>
    ensures { IfOk result (λ u. option_map use_of u ≡ paths_use (nodes_at tree.now (part ∷ behind tree.now part))) }
{
    let first = name_at(alloc, tree, part)?;
    match tree.next(part) {
        None => single_use(alloc, first),
        Some(second) => match tree.next(second) {
            None => Ok(Some(TypeUse::Named {
                at: first.at,
                qualifier: Some(first.text),
                name: dot_name_at(alloc, tree, second)?,
            })),
            Some(_) => Ok(Some(TypeUse::Misnamed { at: first.at })),
        },
    }
}

/// The use of a kind.
fn kind_use(alloc: Global, tree: &Tree, at: usize) -> Result<Option<TypeUse>, NoMemory>
    ensures { IfOk result (λ u. option_map use_of u ≡ use_of_kind tree.now at) }
{
    match tree.node(at) {
        Some(Node::KindList(name, place)) => Ok(Some(TypeUse::Named {
            at: *place,
            qualifier: None,
            name: copied(alloc, name)?,
        })),
        Some(Node::KindName) => match tree.first(at) {
            Some(part) => path_use(alloc, tree, part),
            None => Ok(None),
        },
        _ => Ok(None),
    }
}

/// Whether a member is a property, with a kind.
fn has_kind(tree: &Tree, at: usize) -> bool
    ensures { result ≡ is_of_kind (node_at tree.now at) }
{
    match tree.node(at) {
        Some(Node::Property(_, _)) => true,
        Some(Node::Bare(_, _, _)) => true,
        _ => false,
    }
}

/// The use of a member's kind, if it has one.
fn member_use(alloc: Global, tree: &Tree, at: usize) -> Result<Option<TypeUse>, NoMemory>
    ensures { IfOk result (λ u. option_map use_of u ≡ use_of_member tree.now at) }
{
    if !has_kind(tree, at) {
        return Ok(None);
    }
    match tree.first(at) {
        Some(part) => kind_use(alloc, tree, part),
        None => Ok(None),
    }
}

fn push_objects(
    alloc: Global,
    tree: &Tree,
    objects: &[ObjectRow],
    uses: &mut Vec<TypeUse>,
) -> Result<(), NoMemory>
    ensures { OnOk result (uses_of uses.new.items ≡
        uses_of uses.old.items ++ map (λ (o : AnObjectRow). use_of_object tree.now o.node) objects.now) }
{
    'objects: for object in objects {
        uses.push(object_use(alloc, tree, object.node)?)?;
    }
    Ok(())
}

fn push_member(
    alloc: Global,
    tree: &Tree,
    at: usize,
    uses: &mut Vec<TypeUse>,
) -> Result<(), NoMemory>
    ensures { OnOk result (uses_of uses.new.items ≡ uses_of uses.old.items ++ option_to_list (use_of_member tree.now at)) }
{
    if let Some(found) = member_use(alloc, tree, at)? {
        uses.push(found)?;
    }
    Ok(())
}

/// The uses of rows: before each member the objects that are written before it.
fn uses_of_rows(alloc: Global, tree: &Tree, rows: &DocumentRows) -> Result<Vec<TypeUse>, NoMemory>
    ensures { IfOk result (λ uses. uses_of uses.items ≡ uses_in_rows tree.now 0 rows.now.objects.items rows.now.members.items) }
{
    let mut uses = Vec::new(alloc);
    let mut rest = rows.objects.as_slice();
    let mut done = 0;
    'members: for member in &rows.members {
        let count = member.first.saturating_sub(done).min(rest.len());
        let (before, behind) = rest.split_at(count);
        push_objects(alloc, tree, before, &mut uses)?;
        push_member(alloc, tree, member.node, &mut uses)?;
        rest = behind;
        done = member.first;
    }
    push_objects(alloc, tree, rest, &mut uses)?;
    Ok(uses)
}

/// The types that a document uses, in the order of writing: those of its objects and the kinds of its properties. The rows are
/// those of its tree. It takes time by their number.
pub fn type_uses(alloc: Global, tree: &Tree, rows: &DocumentRows) -> Result<Vec<TypeUse>, NoMemory>
    requires { AreRows tree.now rows.now.objects.items rows.now.members.items }
    ensures { (imports : List Import) (root : AnObject) → listed_document (document imports root) ≡ tree.now →
        IfOk result (λ uses. uses_of uses.items ≡ uses_written root) }
{
    uses_of_rows(alloc, tree, rows)
}
