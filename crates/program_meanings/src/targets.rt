//! The targets of all documents.

ghost use Rattle.std.specs.Prelude.{◌≡◌, map, slice_get, IfOk};
ghost use Rattle.document_components.specs.Made.{owner_in as owner_in_rows, owners_of as owners_by_rows};
ghost use Rattle.program_meanings.specs.Made as s;

use change_targets::UnitTargets;
use document_rows::ObjectRow;
use document_tables::DocumentTable;
use file_sources::Content;
use path_ends::UnitIds;
use program_tables::{Names, UnitRow};
use qml_base::NoMemory;
use qml_syntax::Tree;
use std::alloc::Global;
use target_tables::{first_targets, unit_targets};

/// Of each object of a document the one in which it is written: that of its row.
#[tactic(auto, using(crate::proofs::EachLemmas::one_owner))]
pub fn owners_of(
    alloc: Global,
    objects: &[ObjectRow],
    rows: &[UnitRow],
) -> Result<Vec<Option<usize>>, NoMemory>
    ensures { IfOk result (λ owners. owners.items ≡ owners_by_rows rows.now objects.now) }
{
    let mut owners = Vec::new(alloc);
    'objects: for object in objects {
        owners.push(owner_in(rows, object.row))?;
    }
    Ok(owners)
}

fn owner_in(rows: &[UnitRow], row: Option<usize>) -> Option<usize>
    ensures { result ≡ owner_in_rows rows.now row }
{
    let Some(number) = row else {
        return None;
    };
    match rows.get(number) {
        Some(row) => Some(row.row.object),
        None => None,
    }
}

/// The targets of a document's objects.
fn targets_by(
    alloc: Global,
    names: &Names,
    document: usize,
    source: &DocumentTable,
    own: &UnitIds,
    tree: &Tree,
) -> Result<UnitTargets, NoMemory>
    ensures { IfOk result (λ unit. s.targets_in unit ≡ s.targets_by names.now.units.items document source.now own.now tree.now) }
{
    let owners = owners_of(alloc, &source.objects, &source.rows)?;
    let firsts = first_targets(alloc, &owners, &source.rows)?;
    let made = unit_targets(alloc, names, own, &owners, document, tree, &firsts)?;
    Ok(made)
}

fn targets_with(
    alloc: Global,
    names: &Names,
    ids: &[UnitIds],
    document: usize,
    source: &DocumentTable,
    tree: &Tree,
) -> Result<UnitTargets, NoMemory>
    ensures { IfOk result (λ unit. s.targets_in unit ≡
        s.targets_with names.now.units.items document source.now (slice_get ids.now document) tree.now) }
{
    match ids.get(document) {
        Some(own) => {
            let made = targets_by(alloc, names, document, source, own, tree)?;
            Ok(made)
        }
        None => Ok(UnitTargets {
            objects: Vec::new(alloc),
        }),
    }
}

fn targets_shown(
    alloc: Global,
    names: &Names,
    ids: &[UnitIds],
    document: usize,
    source: &DocumentTable,
    content: &Content,
) -> Result<UnitTargets, NoMemory>
    ensures { IfOk result (λ unit. s.targets_in unit ≡
        s.targets_shown names.now.units.items ids.now document source.now content.now) }
{
    match content {
        Content::Document(tree) => {
            let made = targets_with(alloc, names, ids, document, source, tree)?;
            Ok(made)
        }
        _ => Ok(UnitTargets {
            objects: Vec::new(alloc),
        }),
    }
}

fn targets_of(
    alloc: Global,
    names: &Names,
    ids: &[UnitIds],
    document: usize,
    source: &DocumentTable,
) -> Result<UnitTargets, NoMemory>
    ensures { IfOk result (λ unit. s.targets_in unit ≡ s.targets_of names.now.units.items ids.now document source.now) }
{
    let made = targets_shown(alloc, names, ids, document, source, &source.content)?;
    Ok(made)
}

/// The targets of the objects of all documents.
#[tactic(auto, using(crate::proofs::EachLemmas::goes_on, crate::proofs::EachLemmas::none_left))]
pub(crate) fn all_targets(
    alloc: Global,
    names: &Names,
    ids: &[UnitIds],
    documents: &[DocumentTable],
) -> Result<Vec<UnitTargets>, NoMemory>
    ensures { IfOk result (λ all. map s.targets_in all.items ≡
        s.each_from (s.targets_of names.now.units.items ids.now) 0 documents.now) }
{
    let mut all = Vec::new(alloc);
    'documents: for (document, source) in documents.iter().enumerate() {
        let made = targets_of(alloc, names, ids, document, source)?;
        all.push(made)?;
    }
    Ok(all)
}
