//! The machine's settling.

ghost use Rattle.std.specs.Prelude.{◌≡◌, OnOk};
ghost use Rattle.live_tree.specs.Live.{Knows};
ghost use Rattle.evaluation.specs.Ask.{Ask};
ghost use Rattle.machine_model.specs.State.{Machine};
ghost use Rattle.machine_steps.specs.Settles.{SettlesAs, StopsAt};

use crate::fault::Fault;
use crate::naming::shown_cell;
use evaluation::Rules;
use live_tree::{Changed, LiveTree, SettleFault};
use machine_model::Stop;
use qml_base::{NoMemory, Steps};
use qml_scope::Shapes;
use std::alloc::Global;
use std::sync::ledger::Ledger;
use trace_print::Site;

/// Why the run doesn't go on where the cells did not settle.
fn unsettled(alloc: Global, shapes: &Shapes, fault: SettleFault) -> Fault
    ensures { StopsAt shapes.now.known fault result }
{
    match fault {
        SettleFault::Past { cell } => match shown_cell(alloc, shapes, cell) {
            Ok(name) => Fault::Stopped(Stop::Past(Site::Cell(name))),
            Err(NoMemory) => Fault::NoMemory,
        },
        SettleFault::NoMemory => Fault::NoMemory,
    }
}

/// All cells settle at once, each binding evaluated afresh: exactly the settling of the machine whose tree and names these are
/// and whose texts the rules evaluate. It answers the cells that hold another value and the reports, or stops at the lowest
/// cell past the limit of numbers, and then the tree is as before. It tells nothing.
pub fn settle<L: Ledger, R: Rules<L>>(
    alloc: Global,
    tree: &mut LiveTree,
    rules: &mut R,
    steps: &mut Steps<L>,
) -> Result<Changed, Fault>
    requires { Knows (R.asks rules.old) tree.old }
    ensures settles { (m : Machine) → SettlesAs m (R.asks rules.old) tree.old tree.new result }
    ensures given { tree.new.given ≡ tree.old.given }
    ensures known { tree.new.known ≡ tree.old.known }
    ensures knows { OnOk result (Knows (R.asks rules.old) tree.new) }
    ensures same { R.asks rules.new ≡ R.asks rules.old }
{
    match tree.settle(alloc, rules, steps) {
        Ok(changed) => Ok(changed),
        Err(fault) => Err(unsettled(alloc, tree.shapes(), fault)),
    }
}
