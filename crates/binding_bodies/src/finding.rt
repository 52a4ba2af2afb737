//! The `Qt.binding`s in bodies.

ghost use Rattle.std.specs.Prelude.{IfOk};
ghost use Rattle.js_locals.specs.Laid.{laid};
ghost use Rattle.binding_bodies.specs.Behind as s;

use binding_places::binding_places;
use qml_base::Place;
use qml_syntax::Tree;
use qml_text::NoMemory;
use std::alloc::Global;
use unit_rows::BodyRow;

/// Where the calls of `Qt.binding` in a written body stand.
fn calls_in_body(alloc: Global, tree: &Tree, row: &BodyRow) -> Result<Vec<(Place, usize)>, NoMemory>
    ensures { IfOk result (λ calls. s.AreCallsIn (laid tree.now) row.now calls.items) }
{
    match row {
        BodyRow::Statement { at, .. } => {
            let calls = binding_places(alloc, tree, *at as usize)?;
            Ok(calls)
        }
        BodyRow::Function { at } => {
            let calls = binding_places(alloc, tree, *at as usize)?;
            Ok(calls)
        }
        BodyRow::Statements { .. } => Ok(Vec::new(alloc)),
    }
}

/// Where the calls of `Qt.binding` in all of these bodies stand, in the order of the bodies.
#[tactic(auto, using(crate::proofs::FindingLemmas::calls_on))]
pub(crate) fn calls_in(
    alloc: Global,
    tree: &Tree,
    rows: &[BodyRow],
) -> Result<Vec<(Place, usize)>, NoMemory>
    ensures { IfOk result (λ calls. s.AreCalls (laid tree.now) rows.now calls.items) }
{
    let mut calls = Vec::new(alloc);
    'rows: for row in rows {
        let more = calls_in_body(alloc, tree, row)?;
        calls.extend_from_slice(more.as_slice())?;
    }
    Ok(calls)
}
