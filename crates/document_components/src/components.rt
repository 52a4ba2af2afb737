//! Roots and ids of the components of a document.

ghost use Rattle.std.specs.Prelude.{◌≡◌, IfOk};
ghost use Rattle.document_components.specs.Made as s;

use alias_tables::{component_ids, component_roots};
use component_roots::decided_roots;
use document_rows::ObjectRow;
use path_ends::UnitIds;
use program_tables::{Names, UnitRow};
use qml_base::NoMemory;
use std::alloc::Global;

/// Of each object of a document the root of its component, and the ids of each component. None where some object doesn't decide by
/// what it is written as whether it begins one, as `decided_roots` says. It takes time by the number of objects and rows.
pub fn document_ids(
    alloc: Global,
    names: &Names,
    document: usize,
    objects: &[ObjectRow],
    rows: &[UnitRow],
) -> Result<Option<UnitIds>, NoMemory>
    ensures { IfOk result (λ made. s.AreIds names.now.units.items document rows.now objects.now made) }
{
    let found = decided_roots(alloc, names, document, objects, rows)?;
    match found {
        Some(begins) => {
            let ids = ids_by(alloc, objects, rows, &begins)?;
            Ok(Some(ids))
        }
        None => Ok(None),
    }
}

/// The roots and the ids, where these objects begin components.
#[tactic(auto, using(crate::proofs::MadeLemmas::are_made))]
fn ids_by(
    alloc: Global,
    objects: &[ObjectRow],
    rows: &[UnitRow],
    begins: &[bool],
) -> Result<UnitIds, NoMemory>
    ensures { IfOk result (λ ids. s.IsMade rows.now objects.now begins.now ids) }
{
    let owners = owners_of(alloc, objects, rows)?;
    let roots = component_roots(alloc, &owners, begins)?;
    let ids = component_ids(alloc, rows, &roots)?;
    Ok(UnitIds { roots, ids })
}

/// In which object each is written.
fn owners_of(
    alloc: Global,
    objects: &[ObjectRow],
    rows: &[UnitRow],
) -> Result<Vec<Option<usize>>, NoMemory>
    ensures { IfOk result (λ owners. owners.items ≡ s.owners_of rows.now objects.now) }
{
    let mut owners = Vec::new(alloc);
    'objects: for object in objects {
        owners.push(owner_in(rows, object.row))?;
    }
    Ok(owners)
}

fn owner_in(rows: &[UnitRow], row: Option<usize>) -> Option<usize>
    ensures { result ≡ s.owner_in rows.now row }
{
    let Some(number) = row else {
        return None;
    };
    match rows.get(number) {
        Some(row) => Some(row.row.object),
        None => None,
    }
}
