//! The functions of `Qt.binding`s behind the written bodies.

ghost use Rattle.std.specs.Prelude.{◌≡◌, ◌++◌, length, map, IfOk, OnOk};
ghost use Rattle.binding_bodies.specs.Behind as s;

use crate::finding::calls_in;
use qml_base::Place;
use qml_syntax::Tree;
use qml_text::NoMemory;
use std::alloc::Global;
use unit_rows::{BodiesFault, BodyRow, UnitBodies};

/// A number as it is kept.
fn kept(number: usize) -> Result<u32, NoMemory>
    ensures { IfOk result (λ n. n ≡ number) }
{
    match u32::try_from(number) {
        Ok(number) => Ok(number),
        Err(_) => Err(NoMemory),
    }
}

/// Puts the function of a `Qt.binding` behind the other bodies, and the place of its call behind the other places.
fn put_behind(
    call: (Place, usize),
    rows: &mut Vec<BodyRow>,
    bindings: &mut Vec<(Place, u32)>,
) -> Result<(), NoMemory>
    ensures { OnOk result (s.IsPut call rows.old.items rows.new.items bindings.old.items bindings.new.items) }
{
    let number = kept(rows.len())?;
    let at = kept(call.1)?;
    rows.push(BodyRow::Statements { at })?;
    bindings.push((call.0, number))?;
    Ok(())
}

/// Puts the functions of these calls behind the written bodies. The answer has the places of the calls with the numbers of
/// these bodies.
#[tactic(auto, using(crate::proofs::PutLemmas::put_on))]
fn all_behind(
    alloc: Global,
    calls: &[(Place, usize)],
    rows: &mut Vec<BodyRow>,
) -> Result<Vec<(Place, u32)>, NoMemory>
    ensures { IfOk result (λ bindings. s.ArePut calls.now rows.old.items rows.new.items bindings.items) }
{
    let mut bindings = Vec::new(alloc);
    'calls: for call in calls {
        put_behind(*call, rows, &mut bindings)?;
    }
    Ok(bindings)
}

/// The bodies of a unit in its tree, where these are the written ones: behind them the functions of the `Qt.binding`s in
/// them, which are bodies of their own (Qt 5.15, "Property Binding": `Qt.binding()`). It takes time by the nodes of the
/// bodies. `NotThere` tells that at the place of a body stands no part of its sort.
#[tactic(auto, using(crate::proofs::WholeLemmas::made_bodies))]
pub fn unit_bodies(
    alloc: Global,
    tree: Tree,
    written: Vec<BodyRow>,
) -> Result<UnitBodies, BodiesFault>
    ensures { IfOk result (λ made. s.AreBodies tree written.items made) }
{
    let mut rows = written;
    let calls = calls_in(alloc, &tree, rows.as_slice())?;
    let bindings = all_behind(alloc, calls.as_slice(), &mut rows)?;
    let bodies = UnitBodies::new(alloc, tree, rows, bindings)?;
    Ok(bodies)
}
