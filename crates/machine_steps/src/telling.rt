//! What is told of a settling, and what `print` shows.

ghost use Rattle.std.specs.Prelude.{◌≡◌, ◌++◌, ◌∷◌, [], IfOk, OnOk};
ghost use Rattle.std.specs.Option.{option_map};
ghost use Rattle.trace_print.specs.declared.entry.Entry.TheVariants as entry;
ghost use Rattle.machine_model.specs.Showing.{named_cell as named, report_entry as report_of, print_entry as printed};
ghost use Rattle.machine_model.specs.State.{Machine};
ghost use Rattle.machine_steps.specs.Telling as s;
ghost use Rattle.machine_steps.specs.Telling.{change_of, changes_of, onto, TellsSettled};

use crate::naming::{named_cell, shown_cell};
use live_tree::{Changed, LiveTree};
use qml_base::{CellNo, NoMemory};
use qml_scope::Shapes;
use qml_value::Value;
use std::alloc::Global;
use trace_print::{Entry, Site};
use tree_model::{Cell, Report};

/// A copy of a value.
pub(crate) fn copied(alloc: Global, value: &Value) -> Result<Value, NoMemory>
    ensures { IfOk result (λ copy. copy ≡ value.now) }
{
    match value.copy(alloc) {
        Ok(copy) => Ok(copy),
        Err(_) => Err(NoMemory),
    }
}

/// That a cell holds a value now; none of a hidden cell.
pub fn change_entry(
    alloc: Global,
    shapes: &Shapes,
    c: CellNo,
    held: &Value,
) -> Result<Option<Entry>, NoMemory>
    ensures { IfOk result (λ told. told ≡ option_map (λ n. entry.Change n held.now) (named shapes.now.known c)) }
{
    match named_cell(alloc, shapes, c)? {
        Some(cell) => Ok(Some(Entry::Change {
            cell,
            value: copied(alloc, held)?,
        })),
        None => Ok(None),
    }
}

/// That a cell became a loop, or threw.
pub fn report_entry(alloc: Global, shapes: &Shapes, report: Report) -> Result<Entry, NoMemory>
    ensures { IfOk result (λ told. told ≡ report_of shapes.now.known report.cell report.cause) }
{
    let cell = shown_cell(alloc, shapes, report.cell)?;
    match report.cause {
        Some(cause) => Ok(Entry::ThrewReport {
            site: Site::Cell(cell),
            cause,
        }),
        None => Ok(Entry::LoopReport(cell)),
    }
}

/// What a `print` line shows of a cell; none of a hidden one.
pub fn print_entry(alloc: Global, shapes: &Shapes, cell: &Cell) -> Result<Option<Entry>, NoMemory>
    ensures { IfOk result (λ told. told ≡ printed shapes.now.known cell.now) }
{
    match named_cell(alloc, shapes, cell.no)? {
        Some(name) => Ok(Some(Entry::PrintCell {
            cell: name,
            value: copied(alloc, &cell.held)?,
        })),
        None => Ok(None),
    }
}

/// That a cell of the tree holds what it holds now; none of a hidden cell.
#[tactic(auto, using(crate::proofs::WriteLemmas::held_is, crate::proofs::WriteLemmas::nothing_held))]
fn change_told(alloc: Global, tree: &LiveTree, c: CellNo) -> Result<Option<Entry>, NoMemory>
    ensures { IfOk result (λ told. told ≡ change_of tree.now c) }
{
    if tree.has_cell(c) {
        change_entry(alloc, tree.shapes(), c, tree.read(c))
    } else {
        change_entry(alloc, tree.shapes(), c, &Value::Undefined)
    }
}

/// Puts the entries of changes behind the trace.
fn push_changes(
    alloc: Global,
    tree: &LiveTree,
    cells: &[CellNo],
    trace: &mut Vec<Entry>,
) -> Result<(), NoMemory>
    ensures { OnOk result (trace.new.items ≡ trace.old.items ++ changes_of tree.now cells.now) }
{
    'cells: for c in cells {
        let told = change_told(alloc, tree, *c)?;
        push_told(trace, told)?;
    }
    Ok(())
}

/// Puts an entry behind the trace, if there is one.
fn push_told(trace: &mut Vec<Entry>, told: Option<Entry>) -> Result<(), NoMemory>
    ensures { OnOk result (trace.new.items ≡ trace.old.items ++ onto told []) }
{
    match told {
        Some(entry) => push_entry(trace, entry),
        None => Ok(()),
    }
}

/// Puts an entry behind the trace.
fn push_entry(trace: &mut Vec<Entry>, entry: Entry) -> Result<(), NoMemory>
    ensures { OnOk result (trace.new.items ≡ trace.old.items ++ entry ∷ []) }
{
    trace.push(entry)?;
    Ok(())
}

/// Puts the entries of reports behind the trace.
fn push_reports(
    alloc: Global,
    tree: &LiveTree,
    reports: &[Report],
    trace: &mut Vec<Entry>,
) -> Result<(), NoMemory>
    ensures { OnOk result (trace.new.items ≡ trace.old.items ++ s.reports_of tree.now reports.now) }
{
    'reports: for report in reports {
        let told = report_entry(alloc, tree.shapes(), *report)?;
        push_entry(trace, told)?;
    }
    Ok(())
}

/// Tells a settling: the cells that hold another value, and then the reports, exactly as the machine whose tree and trace these
/// are tells it. Without memory a front of it may have been told.
pub fn tell_settled(
    alloc: Global,
    tree: &LiveTree,
    changed: &Changed,
    trace: &mut Vec<Entry>,
) -> Result<(), NoMemory>
    ensures { OnOk result ((m : Machine) → TellsSettled m tree.now changed.now trace.old.items trace.new.items) }
{
    push_changes(alloc, tree, changed.cells.as_slice(), trace)?;
    push_reports(alloc, tree, changed.reports.as_slice(), trace)?;
    Ok(())
}
