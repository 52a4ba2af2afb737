//! The cells take what they came to.
ghost use Rattle.std.specs.Prelude.{◌≡◌, ◌≢◌, ◌<◌, ◌⊎◌, ℕ, length, true, false, Some, None, if◌then◌else◌, IfOk, IfSome, IfNone};
ghost use Rattle.qml_value.specs.declared.value.Value.{Value};
ghost use Rattle.tree_model.specs.Settling.{taking, outcome_by as outcome_of, held_by, spare_of, IsLowestPast, NonePast};
ghost use Rattle.tree_model.specs.Telling.{Changes, Reports};
ghost use Rattle.tree_settling.specs.Tables.{read_in, entry_came, taken, is_past as past_entry, own_value as own, Ready, Tells, spare_needed, spares_needed};

use crate::evaluate::own_value;
use evaluation::Came;
use qml_base::{CellNo, NoMemory};
use qml_value::Value;
use std::alloc::{AllocError, Global};
use tree_model::{Cell, Content, Outcome, Report};

fn is_past(entry: &Option<Came>) -> bool
    ensures { result ≡ past_entry entry.now }
{
    match entry {
        Some(came) => matches!(came, Came::Past),
        None => false,
    }
}

/// The lowest cell past the limit.
pub fn lowest_past(cells: &[Cell], table: &[Option<Came>]) -> Option<CellNo>
    requires { length table.now ≡ length cells.now }
    ensures none { IfNone result (NonePast (read_in cells.now table.now) cells.now) }
    ensures some { IfSome result (λ c. IsLowestPast (read_in cells.now table.now) cells.now c) }
{
    for (i, entry) in table.iter().enumerate() {
        if is_past(entry) {
            return Some(cells[i].no);
        }
    }
    None
}

/// Whether the cell will hold another value, or held one before objects were removed.
fn differs(cell: &Cell, entry: &Option<Came>) -> bool
    ensures no { result ≡ false → (cell.now.noted ≡ false) × (cell.now.held ≡ (taking cell.now (entry_came cell.now entry.now)).held) }
    ensures yes { result ≡ true → (cell.now.noted ≡ true) ⊎ (cell.now.held ≢ (taking cell.now (entry_came cell.now entry.now)).held) }
{
    if cell.noted {
        return true;
    }
    held_differs(cell, entry)
}

fn held_differs(cell: &Cell, entry: &Option<Came>) -> bool
    ensures no { result ≡ false → cell.now.held ≡ (taking cell.now (entry_came cell.now entry.now)).held }
    ensures yes { result ≡ true → cell.now.held ≢ (taking cell.now (entry_came cell.now entry.now)).held }
{
    match entry {
        None => !cell.held.same(own_value(cell)),
        Some(came) => differs_by(cell, came),
    }
}

fn differs_by(cell: &Cell, came: &Came) -> bool
    ensures no { result ≡ false → cell.now.held ≡ (taking cell.now came.now).held }
    ensures yes { result ≡ true → cell.now.held ≢ (taking cell.now came.now).held }
{
    match came {
        Came::Value(v) => !cell.held.same(v),
        Came::Threw(_) | Came::Loop | Came::Past => false,
    }
}

/// The cells that will hold another value.
pub fn changed(
    alloc: Global,
    cells: &[Cell],
    table: &[Option<Came>],
) -> Result<Vec<CellNo>, AllocError>
    requires { length table.now ≡ length cells.now }
    ensures { IfOk result (λ changed. Changes cells.now (taken cells.now table.now) changed.items) }
{
    let mut changed = Vec::new(alloc);
    for (i, cell) in cells.iter().enumerate() {
        if differs(cell, &table[i]) {
            changed.push(cell.no)?;
        }
    }
    Ok(changed)
}

/// What a cell shows once it came to this.
fn outcome(came: &Came) -> Outcome
    ensures { result ≡ outcome_of came.now }
{
    match came {
        Came::Value(_) => Outcome::Value,
        Came::Threw(why) => Outcome::Threw(*why),
        Came::Loop => Outcome::Loop,
        Came::Past => Outcome::Past,
    }
}

/// What is told of a cell that came to this.
fn report_of(cell: &Cell, entry: &Option<Came>) -> Option<Report>
    ensures { Tells cell.now (entry_came cell.now entry.now) result }
{
    match entry {
        None => None,
        Some(came) => told_of_came(cell, came),
    }
}

fn told_of_came(cell: &Cell, came: &Came) -> Option<Report>
    ensures { Tells cell.now came.now result }
{
    if cell.outcome == outcome(came) {
        return None;
    }
    match came {
        Came::Value(_) | Came::Past => None,
        Came::Threw(why) => Some(Report {
            cell: cell.no,
            cause: Some(*why),
        }),
        Came::Loop => Some(Report {
            cell: cell.no,
            cause: None,
        }),
    }
}

/// The reports of the cells that became a loop or threw.
pub fn reports(
    alloc: Global,
    cells: &[Cell],
    table: &[Option<Came>],
) -> Result<Vec<Report>, AllocError>
    requires { length table.now ≡ length cells.now }
    ensures { IfOk result (λ reports. Reports cells.now (taken cells.now table.now) reports.items) }
{
    let mut reports = Vec::new(alloc);
    for (i, cell) in cells.iter().enumerate() {
        if let Some(report) = report_of(cell, &table[i]) {
            reports.push(report)?;
        }
    }
    Ok(reports)
}

/// What the cell will hold.
fn held_after<'a>(cell: &'a Cell, entry: &'a Option<Came>) -> &'a Value
    ensures { result.now ≡ held_by (entry_came cell.now entry.now) cell.now.held }
{
    match entry {
        None => own_value(cell),
        Some(Came::Value(v)) => v,
        Some(_) => &cell.held,
    }
}

/// The spare that the cell needs once it takes what its entry says.
fn spare(alloc: Global, cell: &Cell, entry: &Option<Came>) -> Result<Option<Value>, NoMemory>
    ensures { IfOk result (λ spare. spare ≡ spare_needed cell.now entry.now) }
{
    if is_bound_elsewhere(cell) {
        let held = held_after(cell, entry).copy(alloc)?;
        Ok(Some(held))
    } else {
        Ok(None)
    }
}

/// Whether a text of another object binds the cell.
fn is_bound_elsewhere(cell: &Cell) -> bool
    ensures { (v : Value) → spare_of cell.now.no cell.now.content v ≡ (if result then Some v else None) }
{
    match &cell.content {
        Content::Plain(_) => false,
        Content::Bound(binding) => binding.author != cell.no.object,
    }
}

/// The spares that the cells need once they take what the table says.
pub fn spares(
    alloc: Global,
    cells: &[Cell],
    table: &[Option<Came>],
) -> Result<Vec<Option<Value>>, NoMemory>
    requires { length table.now ≡ length cells.now }
    ensures { IfOk result (λ spares. spares.items ≡ spares_needed cells.now table.now) }
{
    let mut spares = Vec::new(alloc);
    for (i, cell) in cells.iter().enumerate() {
        let spare = spare(alloc, cell, &table[i])?;
        if spares.push(spare).is_err() {
            return Err(NoMemory);
        }
    }
    Ok(spares)
}

/// The cell takes what its entry says.
fn take_entry(cell: &mut Cell, entry: Option<Came>, spare: Option<Value>)
    requires ready { entry ≡ None → own cell.old.content cell.old.held ≡ cell.old.held }
    requires spare { spare ≡ spare_needed cell.old entry }
    ensures { cell.new ≡ taking cell.old (entry_came cell.old entry) }
{
    cell.spare = spare;
    cell.noted = false;
    match entry {
        None => cell.outcome = Outcome::Value,
        Some(came) => take_came(cell, came),
    }
}

/// The cell takes what came to its outcome, and a value to what it holds.
fn take_came(cell: &mut Cell, came: Came)
    ensures { cell.new ≡ record { no = cell.old.no; kind = cell.old.kind; content = cell.old.content; held = held_by came cell.old.held; spare = cell.old.spare; outcome = outcome_of came; noted = cell.old.noted } }
{
    cell.outcome = outcome(&came);
    if let Came::Value(v) = came {
        cell.held = v;
    }
}

/// All cells take what the table says, with their spares.
pub fn take_all(cells: &mut [Cell], table: &mut [Option<Came>], spares: &mut [Option<Value>])
    requires long { length table.old ≡ length cells.old }
    requires ready { Ready cells.old table.old }
    requires spares { spares.old ≡ spares_needed cells.old table.old }
    ensures { cells.new ≡ taken cells.old table.old }
{
    for i in 0..cells.len() {
        let entry = table[i].take();
        let spare = spares[i].take();
        take_entry(&mut cells[i], entry, spare);
    }
}
