//! Ids by components.

ghost use Rattle.std.specs.Prelude.{◌≡◌, [], length, map, IfOk, OnOk};
ghost use Rattle.alias_tables.specs.Ids as s;

use crate::components::root_at;
use document_members::Member;
use name_table::NameTable;
use program_tables::{UnitRow, is_group, is_inside};
use qml_base::NoMemory;
use qml_text::Text;
use std::alloc::Global;

/// The ids of a document's components, under the number of a component's root: of each id its object, and of several objects
/// with one id the first in the order of writing (Qt 5.15, "The id Attribute"). `roots` says of each object the root of its component.
/// What stands in a group gives no id.
#[tactic(auto, using(crate::proofs::IdLemmas::rows_go_on))]
pub fn component_ids(
    alloc: Global,
    rows: &[UnitRow],
    roots: &[usize],
) -> Result<Vec<NameTable<usize>>, NoMemory>
    ensures { IfOk result (λ tables. tables.items ≡ s.ids_added roots.now [] rows.now (map s.no_ids roots.now)) }
{
    let mut tables = no_ids(alloc, roots)?;
    let mut grouping = Vec::new(alloc);
    'rows: for row in rows {
        let inside = is_inside(&grouping, row.row.group);
        grouping.push(inside || is_group(&row.member))?;
        add_id(alloc, inside, row, roots, &mut tables)?;
    }
    Ok(tables)
}

/// For each object a table without ids. It takes no memory of its own.
#[tactic(auto, using(crate::proofs::IdLemmas::one_more_table))]
fn no_ids(alloc: Global, roots: &[usize]) -> Result<Vec<NameTable<usize>>, NoMemory>
    ensures { IfOk result (λ tables. tables.items ≡ map s.no_ids roots.now) }
{
    let mut tables = Vec::new(alloc);
    'roots: for _root in roots {
        tables.push(NameTable::new(alloc))?;
    }
    Ok(tables)
}

/// Adds the id that a row gives, where it isn't in a group.
fn add_id(
    alloc: Global,
    inside: bool,
    row: &UnitRow,
    roots: &[usize],
    tables: &mut Vec<NameTable<usize>>,
) -> Result<(), NoMemory>
    ensures { OnOk result (tables.new.items ≡ s.id_added roots.now inside row.now tables.old.items) }
{
    if inside {
        return Ok(());
    }
    let object = row.row.object;
    match &row.member {
        Member::Id {
            word: _,
            name,
            at: _,
        } => put_id(alloc, root_at(roots, object), name, object, tables),
        _ => Ok(()),
    }
}

/// Puts an id of a component.
#[tactic(auto, using(crate::proofs::IdLemmas::put_here, crate::proofs::IdLemmas::put_nowhere))]
fn put_id(
    alloc: Global,
    component: usize,
    name: &Text,
    object: usize,
    tables: &mut Vec<NameTable<usize>>,
) -> Result<(), NoMemory>
    ensures { OnOk result (tables.new.items ≡ s.id_put tables.old.items component name.now object) }
{
    if component < tables.len() {
        tables[component].put(alloc, name, object)?;
        Ok(())
    } else {
        Ok(())
    }
}

/// The object of an id of the component with this root. It takes constant time on average.
pub fn object_of_id(tables: &[NameTable<usize>], component: usize, name: &Text) -> Option<usize>
    ensures { result ≡ s.id_found tables.now component name.now }
{
    match tables.get(component) {
        Some(ids) => ids.find(name),
        None => None,
    }
}
