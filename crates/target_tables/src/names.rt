//! The object that a value names.

ghost use Rattle.std.specs.Prelude.{◌≡◌, IfOk};
ghost use Rattle.qml_syntax.specs.Places.{part_at};
ghost use Rattle.type_uses.specs.Uses.{node_at};
ghost use Rattle.alias_faults.specs.Targets.{seen_by};
ghost use Rattle.target_tables.specs.Names as s;

use alias_faults::target_seen;
use path_ends::UnitIds;
use program_tables::Names;
use qml_base::NoMemory;
use qml_syntax::{Node, Tree};

/// Whether the node is that of an expression as a statement.
fn is_expression(tree: &Tree, at: usize) -> bool
    ensures { result ≡ s.is_expression (node_at tree.now at) }
{
    match tree.node(at) {
        Some(Node::Expression(_)) => true,
        _ => false,
    }
}

/// The object that a node names, if it is a name.
fn named_by(
    names: &Names,
    ids: &UnitIds,
    owners: &[Option<usize>],
    document: usize,
    object: usize,
    node: &Node,
) -> Result<Option<usize>, NoMemory>
    ensures { IfOk result (λ o. o ≡ seen_by names.now.units.items ids.now owners.now document object (s.name_by node.now)) }
{
    match node {
        Node::Name(name, _) => {
            let found = target_seen(names, ids, owners, document, object, name)?;
            Ok(found)
        }
        _ => Ok(None),
    }
}

fn named_at(
    names: &Names,
    ids: &UnitIds,
    owners: &[Option<usize>],
    document: usize,
    object: usize,
    tree: &Tree,
    at: usize,
) -> Result<Option<usize>, NoMemory>
    ensures { IfOk result (λ o. o ≡ seen_by names.now.units.items ids.now owners.now document object (s.name_by (node_at tree.now at))) }
{
    match tree.node(at) {
        Some(node) => {
            let found = named_by(names, ids, owners, document, object, node)?;
            Ok(found)
        }
        None => Ok(None),
    }
}

/// The object that the first part of a node names.
fn named_by_first(
    names: &Names,
    ids: &UnitIds,
    owners: &[Option<usize>],
    document: usize,
    object: usize,
    tree: &Tree,
    at: usize,
) -> Result<Option<usize>, NoMemory>
    ensures { IfOk result (λ o. o ≡ seen_by names.now.units.items ids.now owners.now document object (s.first_name tree.now at)) }
{
    match tree.first(at) {
        Some(part) => {
            let found = named_at(names, ids, owners, document, object, tree, part)?;
            Ok(found)
        }
        None => Ok(None),
    }
}

/// The object that the value at a place names by an id alone, as the object of a number sees it.
#[tactic(auto, using(crate::proofs::NameLemmas::name_told, crate::proofs::NameLemmas::no_name_told))]
pub(crate) fn named_by_value(
    names: &Names,
    ids: &UnitIds,
    owners: &[Option<usize>],
    document: usize,
    object: usize,
    tree: &Tree,
    at: usize,
) -> Result<Option<usize>, NoMemory>
    ensures { IfOk result (λ o. o ≡ seen_by names.now.units.items ids.now owners.now document object (s.name_in (part_at tree.now at))) }
{
    let _root = tree.root();
    if is_expression(tree, at) {
        let found = named_by_first(names, ids, owners, document, object, tree, at)?;
        return Ok(found);
    }
    Ok(None)
}
