//! Contents in place of others, and what cells hold.

ghost use Rattle.std.specs.Prelude.{◌≡◌, IfOk};
ghost use Rattle.tree_model.specs.Settling.{held_at, place_of};
ghost use Rattle.qml_base.specs.declared.numbers.ExprNo.{ExprNo};
ghost use Rattle.qml_base.specs.declared.names.Home.{Home};
ghost use Rattle.evaluation.specs.Ask.{Ask};
ghost use Rattle.live_tree.specs.Live.{HasCell, Knows};
ghost use Rattle.machine_model.specs.State.{Machine};
ghost use Rattle.machine_steps.specs.Writing.{PutsIn};

use crate::telling::copied;
use live_tree::LiveTree;
use qml_base::{CellNo, NoMemory};
use qml_value::Value;
use std::alloc::Global;
use tree_model::Content;

/// Puts a content in place of the cell's: exactly what the machine whose tree this is does. It settles and tells nothing, and
/// takes no memory.
#[tactic(auto, using(crate::proofs::WriteLemmas::puts_in))]
pub fn put(tree: &mut LiveTree, c: CellNo, content: Content)
    requires { HasCell tree.old.tree c }
    ensures puts { (m : Machine) → PutsIn m tree.old tree.new c content }
    ensures given { tree.new.given ≡ tree.old.given }
    ensures known { tree.new.known ≡ tree.old.known }
    ensures knows { (asks : ExprNo → Home → Ask) → Knows asks tree.old → Knows asks tree.new }
{
    tree.put(c, content);
}

/// A copy of what the cell holds; undefined where there is no such cell.
#[tactic(auto, using(crate::proofs::WriteLemmas::read_is, crate::proofs::WriteLemmas::nothing_read))]
pub fn held_copy(alloc: Global, tree: &LiveTree, c: CellNo) -> Result<Value, NoMemory>
    ensures { IfOk result (λ v. v ≡ held_at tree.now.tree.cells (place_of tree.now.tree.cells c)) }
{
    if tree.has_cell(c) {
        copied(alloc, tree.read(c))
    } else {
        Ok(Value::Undefined)
    }
}
