//! Document after document.

ghost use Rattle.std.specs.Prelude.{◌≡◌, length, slice_get, IfOk};
ghost use Rattle.program_signals.specs.Made as s;

use declared_signals::{UnitSignals, unit_signals};
use document_tables::{DocumentTable, ProgramTables};
use program_tables::UnitNames;
use qml_base::NoMemory;
use std::alloc::Global;

/// How many objects a document has.
fn object_count(units: &[UnitNames], document: usize) -> usize
    ensures { result ≡ s.object_count (slice_get units.now document) }
{
    match units.get(document) {
        Some(unit) => unit.objects.as_slice().len(),
        None => 0,
    }
}

fn signals_of(
    alloc: Global,
    units: &[UnitNames],
    document: usize,
    source: &DocumentTable,
) -> Result<UnitSignals, NoMemory>
    ensures { IfOk result (λ unit. s.SignalsOf units.now document source.now unit) }
{
    let count = object_count(units, document);
    let made = unit_signals(alloc, count, source.rows.as_slice())?;
    Ok(made)
}

#[tactic(auto, using(crate::proofs::EachLemmas::goes_begin, crate::proofs::EachLemmas::goes_on, crate::proofs::EachLemmas::none_left))]
fn all_signals(
    alloc: Global,
    units: &[UnitNames],
    documents: &[DocumentTable],
) -> Result<Vec<UnitSignals>, NoMemory>
    ensures { IfOk result (λ all. s.AreSignals units.now 0 documents.now all.items) }
{
    let mut all = Vec::new(alloc);
    'documents: for (document, source) in documents.iter().enumerate() {
        let made = signals_of(alloc, units, document, source)?;
        all.push(made)?;
    }
    Ok(all)
}

/// The signals of the objects of each document, in the order of the documents. It takes time by the number of objects and rows. Want of
/// memory is the one error.
pub fn program_signals(alloc: Global, tables: &ProgramTables) -> Result<Vec<UnitSignals>, NoMemory>
    ensures { IfOk result (λ all. s.AreSignals tables.now.names.units.items 0 tables.now.documents.items all.items) }
{
    let all = all_signals(
        alloc,
        tables.names.units.as_slice(),
        tables.documents.as_slice(),
    )?;
    Ok(all)
}
