//! Sweeps over the table, until one comes to nothing new.
ghost use Rattle.std.specs.Prelude.{◌≡◌, ◌<◌, ◌≤◌, ◌+◌, ℕ, List, Some, None, if◌then◌else◌, IfOk, length};
ghost use Rattle.evaluation.specs.declared.came.Came.TheVariants as came;
ghost use Rattle.tree_model.specs.declared.cells.Object.{Object};
ghost use Rattle.tree_model.specs.Settling.{fresh as fresh_of, is_active as active_in};
ghost use Rattle.tree_settling.specs.Tables.{BegunContent, BegunPlain, AllBegun, Ready, is_loop, loops_in, read_in, IsRight, Visits, Swept, turn_of, world_of, tree_of};
ghost use Rattle.tree_settling.specs.Steps.{loops_at, sum_to};
ghost use Rattle.property_store.specs.Lying.{IsPlaced};

use crate::evaluate::evaluate;
use evaluation::{Came, Rules};
use object_tree::Tree;
use qml_base::{CellNo, NoMemory, Steps};
use qml_value::Value;
use std::alloc::Global;
use std::sync::ledger::Ledger;
use tree_model::{Binding, Cell, Content, Lookup};

fn is_active(objects: &Tree, cell: CellNo, binding: Binding) -> bool
    ensures { result ≡ active_in objects.now.objects cell binding }
{
    objects.stands(cell.object) && objects.stands(binding.author)
}

/// What the table says of a cell at depth 0.
fn entry(alloc: Global, objects: &Tree, cell: &Cell) -> Result<Option<Came>, NoMemory>
    ensures { IfOk result (λ entry. BegunContent objects.now.objects cell.now cell.now.content entry) }
{
    match &cell.content {
        Content::Plain(v) => plain_entry(alloc, v, &cell.held),
        Content::Bound(binding) => Ok(bound_entry(objects, cell.no, *binding)),
    }
}

fn plain_entry(alloc: Global, v: &Value, held: &Value) -> Result<Option<Came>, NoMemory>
    ensures { IfOk result (λ entry. BegunPlain v.now held.now entry) }
{
    if v.same(held) {
        return Ok(None);
    }
    Ok(Some(Came::Value(v.copy(alloc)?)))
}

fn bound_entry(objects: &Tree, cell: CellNo, binding: Binding) -> Option<Came>
    ensures { result ≡ (if active_in objects.now.objects cell binding then Some came.Loop else None) }
{
    if is_active(objects, cell, binding) {
        Some(Came::Loop)
    } else {
        None
    }
}

/// The table at depth 0.
pub fn begin(alloc: Global, objects: &Tree, cells: &[Cell]) -> Result<Vec<Option<Came>>, NoMemory>
    ensures begun { IfOk result (λ table. AllBegun objects.now.objects cells.now table.items) }
    ensures long { IfOk result (λ table. length table.items ≡ length cells.now) }
{
    let mut table = Vec::new(alloc);
    for cell in cells {
        let entry = entry(alloc, objects, cell)?;
        if table.push(entry).is_err() {
            return Err(NoMemory);
        }
    }
    Ok(table)
}

fn loops(came: &Came) -> bool
    ensures { result ≡ is_loop (Some came.now) }
{
    match came {
        Came::Loop => true,
        Came::Value(_) | Came::Threw(_) | Came::Past => false,
    }
}

/// Evaluates one cell, if it still loops, in one step. Says whether it came to something.
fn visit<L: Ledger, R: Rules<L>, N: Lookup>(
    alloc: Global,
    rules: &mut R,
    lookup: &N,
    starts: &[u32],
    cells: &[Cell],
    table: &mut [Option<Came>],
    at: usize,
    reads: &mut Vec<CellNo>,
    steps: &mut Steps<L>,
) -> Result<bool, NoMemory>
    requires placed { IsPlaced starts.now cells.now }
    requires there { at < length cells.now }
    requires long { length table.old ≡ length cells.now }
    ensures visits { IfOk result (λ came. Visits (world_of (N.names lookup.now) (N.types lookup.now) (R.asks rules.old)) cells.now table.old at came table.new) }
    ensures same { R.asks rules.new ≡ R.asks rules.old }
    ensures steps { steps.old ≤ steps.new }
    ensures few { steps.new ≤ steps.old + loops_at table.old at }
{
    let Some(Came::Loop) = &table[at] else {
        return Ok(false);
    };
    let cell = &cells[at];
    let Content::Bound(binding) = &cell.content else {
        return Ok(false);
    };
    let came = evaluate(
        alloc, rules, lookup, starts, cells, table, cell, *binding, reads, steps,
    )?;
    reads.clear();
    if loops(&came) {
        return Ok(false);
    }
    table[at] = Some(came);
    Ok(true)
}

/// The place of the k-th visit: from the first cell on, or from the last one back.
fn turn(up: bool, many: usize, k: usize) -> usize
    requires { k < many }
    ensures place { result ≡ turn_of up many k }
    ensures inside { result < many }
{
    if up { k } else { many - 1 - k }
}

/// Visits all cells once, in one direction. Says whether one came to something.
fn sweep<L: Ledger, R: Rules<L>, N: Lookup>(
    alloc: Global,
    rules: &mut R,
    lookup: &N,
    starts: &[u32],
    cells: &[Cell],
    table: &mut [Option<Came>],
    reads: &mut Vec<CellNo>,
    steps: &mut Steps<L>,
    up: bool,
) -> Result<bool, NoMemory>
    requires placed { IsPlaced starts.now cells.now }
    requires long { length table.old ≡ length cells.now }
    ensures sweeps { IfOk result (λ came. Swept (world_of (N.names lookup.now) (N.types lookup.now) (R.asks rules.old)) cells.now table.old up (length cells.now) came table.new) }
    ensures right { (objects : List Object) → IsRight (world_of (N.names lookup.now) (N.types lookup.now) (R.asks rules.old)) (tree_of objects cells.now) table.old → IfOk result (λ came. IsRight (world_of (N.names lookup.now) (N.types lookup.now) (R.asks rules.old)) (tree_of objects cells.now) table.new) }
    ensures same { R.asks rules.new ≡ R.asks rules.old }
    ensures steps { steps.old ≤ steps.new }
    ensures few { steps.new ≤ steps.old + loops_in table.old }
{
    let mut progress = false;
    for k in 0..cells.len() {
        let at = turn(up, cells.len(), k);
        if visit(alloc, rules, lookup, starts, cells, table, at, reads, steps)? {
            progress = true;
        }
    }
    Ok(progress)
}

/// Fills a table at depth 0 with what is fresh.
pub fn refresh<L: Ledger, R: Rules<L>, N: Lookup>(
    alloc: Global,
    rules: &mut R,
    lookup: &N,
    starts: &[u32],
    cells: &[Cell],
    table: &mut [Option<Came>],
    steps: &mut Steps<L>,
) -> Result<(), NoMemory>
    requires placed { IsPlaced starts.now cells.now }
    requires long { length table.old ≡ length cells.now }
    ensures fresh { (objects : List Object) → AllBegun objects cells.now table.old → IfOk result (λ done. (i : ℕ) → read_in cells.now table.new i ≡ fresh_of (world_of (N.names lookup.now) (N.types lookup.now) (R.asks rules.old)) (tree_of objects cells.now) i) }
    ensures ready { (objects : List Object) → AllBegun objects cells.now table.old → IfOk result (λ done. Ready cells.now table.new) }
    ensures same { R.asks rules.new ≡ R.asks rules.old }
    ensures steps { steps.old ≤ steps.new }
    ensures few { steps.new ≤ steps.old + sum_to (loops_in table.old) }
{
    let mut reads = Vec::new(alloc);
    let mut up = true;
    'sweeping: loop {
        if !sweep(
            alloc, rules, lookup, starts, cells, table, &mut reads, steps, up,
        )? {
            return Ok(());
        }
        up = !up;
    }
}
