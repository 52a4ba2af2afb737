//! The handlers of all documents.

ghost use Rattle.std.specs.Prelude.{◌≡◌, map, slice_get, IfOk};
ghost use Rattle.program_meanings.specs.Made as s;

use document_tables::DocumentTable;
use handler_names::{UnitHandlers, unit_handlers};
use program_tables::{ObjectNames, UnitNames};
use qml_base::NoMemory;
use std::alloc::Global;

/// What the objects of a document declare.
fn objects_named(units: &[UnitNames], document: usize) -> &[ObjectNames]
    ensures { result.now ≡ s.objects_named (slice_get units.now document) }
{
    match units.get(document) {
        Some(unit) => unit.objects.as_slice(),
        None => &[],
    }
}

fn handlers_of(
    alloc: Global,
    units: &[UnitNames],
    document: usize,
    source: &DocumentTable,
) -> Result<UnitHandlers, NoMemory>
    ensures { IfOk result (λ unit. s.handlers_in unit ≡ s.handlers_of units.now document source.now) }
{
    let objects = objects_named(units, document);
    let made = unit_handlers(alloc, objects, &source.rows)?;
    Ok(made)
}

/// The handlers of the objects of all documents.
#[tactic(auto, using(crate::proofs::EachLemmas::goes_on, crate::proofs::EachLemmas::none_left))]
pub(crate) fn all_handlers(
    alloc: Global,
    units: &[UnitNames],
    documents: &[DocumentTable],
) -> Result<Vec<UnitHandlers>, NoMemory>
    ensures { IfOk result (λ all. map s.handlers_in all.items ≡ s.each_from (s.handlers_of units.now) 0 documents.now) }
{
    let mut all = Vec::new(alloc);
    'documents: for (document, source) in documents.iter().enumerate() {
        let made = handlers_of(alloc, units, document, source)?;
        all.push(made)?;
    }
    Ok(all)
}
