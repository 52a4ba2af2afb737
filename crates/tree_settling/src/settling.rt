//! Settling all cells at once.
ghost use Rattle.std.specs.Prelude.{◌≡◌, ◌≤◌, ◌+◌, length};
ghost use Rattle.tree_settling.specs.Tables.{AllBegun, loops_in, world_of, tree_of};
ghost use Rattle.tree_settling.specs.Steps.{most_steps, sum_to};
ghost use Rattle.tree_settling.specs.Settles.{Settles};
ghost use Rattle.property_store.specs.Lying.{IsPlaced};

use crate::sweeps::{begin, refresh};
use crate::taking::{changed, lowest_past, reports, spares, take_all};
use evaluation::{Came, Rules};
use object_tree::Tree;
use qml_base::{CellNo, NoMemory, Steps};
use std::alloc::{AllocError, Global};
use std::sync::ledger::Ledger;
use tree_model::{Cell, Lookup, Report};

/// What a settling told: the cells that hold another value, and what became a loop or threw, each in the order of cells.
#[derive(Debug, Drop)]
pub struct Changed {
    pub cells: Vec<CellNo>,
    pub reports: Vec<Report>,
}

/// Why the cells did not settle.
#[derive(Clone, Copy, Debug, PartialEq, Eq)]
pub enum SettleFault {
    /// The lowest cell whose evaluation comes to a number past the limit.
    Past { cell: CellNo },
    /// There was no memory.
    NoMemory,
}

impl From<AllocError> for SettleFault {
    ghost use Rattle.std.specs.Prelude.{◌≡◌};
    ghost use Rattle.tree_settling.specs.declared.settling.SettleFault.TheVariants as fault;

    ghost from_gives = { λ _ e. e ≡ fault.NoMemory };

    fn from(_e: AllocError) -> SettleFault {
        SettleFault::NoMemory
    }
}

impl From<NoMemory> for SettleFault {
    ghost use Rattle.std.specs.Prelude.{◌≡◌};
    ghost use Rattle.tree_settling.specs.declared.settling.SettleFault.TheVariants as fault;

    ghost from_gives = { λ _ e. e ≡ fault.NoMemory };

    fn from(_e: NoMemory) -> SettleFault {
        SettleFault::NoMemory
    }
}

/// Settles all cells at once: each active binding is evaluated afresh, and the cells take what came. A number past the limit
/// names the lowest such cell; then, and without memory, the cells stay as they were. Each evaluation is a step.
pub fn settle<L: Ledger, R: Rules<L>, N: Lookup>(
    alloc: Global,
    rules: &mut R,
    lookup: &N,
    objects: &Tree,
    starts: &[u32],
    cells: &mut [Cell],
    steps: &mut Steps<L>,
) -> Result<Changed, SettleFault>
    requires { IsPlaced starts.now cells.old }
    ensures settles { Settles (world_of (N.names lookup.now) (N.types lookup.now) (R.asks rules.old)) (tree_of objects.now.objects cells.old) result cells.new }
    ensures same { R.asks rules.new ≡ R.asks rules.old }
    ensures steps { steps.old ≤ steps.new }
    ensures few { steps.new ≤ steps.old + most_steps (tree_of objects.now.objects cells.old) }
{
    let mut table = begin(alloc, objects, cells)?;
    settle_by(
        alloc,
        rules,
        lookup,
        objects,
        starts,
        cells,
        table.as_mut_slice(),
        steps,
    )
}

/// The same by a table at depth 0.
fn settle_by<L: Ledger, R: Rules<L>, N: Lookup>(
    alloc: Global,
    rules: &mut R,
    lookup: &N,
    _objects: &Tree,
    starts: &[u32],
    cells: &mut [Cell],
    table: &mut [Option<Came>],
    steps: &mut Steps<L>,
) -> Result<Changed, SettleFault>
    requires placed { IsPlaced starts.now cells.old }
    requires begun { AllBegun _objects.now.objects cells.old table.old }
    requires long { length table.old ≡ length cells.old }
    ensures settles { Settles (world_of (N.names lookup.now) (N.types lookup.now) (R.asks rules.old)) (tree_of _objects.now.objects cells.old) result cells.new }
    ensures same { R.asks rules.new ≡ R.asks rules.old }
    ensures steps { steps.old ≤ steps.new }
    ensures few { steps.new ≤ steps.old + sum_to (loops_in table.old) }
{
    refresh(alloc, rules, lookup, starts, cells, table, steps)?;
    if let Some(cell) = lowest_past(cells, table) {
        return Err(SettleFault::Past { cell });
    }
    let changed = changed(alloc, cells, table)?;
    let reports = reports(alloc, cells, table)?;
    let mut spares = spares(alloc, cells, table)?;
    take_all(cells, table, spares.as_mut_slice());
    Ok(Changed {
        cells: changed,
        reports,
    })
}
