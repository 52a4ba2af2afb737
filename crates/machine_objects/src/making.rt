//! An object is made, up to what is delivered.

ghost use Rattle.std.specs.Prelude.{◌≡◌, OnOk};
ghost use Rattle.machine_model.specs.Emission.{Below};
ghost use Rattle.machine_model.specs.Making.{make_alone as makes};
ghost use Rattle.machine_state.specs.Keeping.{machine_of, Ready};
ghost use Rattle.machine_state.specs.Leading.{Leads};
ghost use Rattle.machine_objects.specs.Making.{left_of};

use crate::adding::add_alone;
use evaluation::Rules;
use machine_state::State;
use machine_steps::Fault;
use machine_writes::settle_and_tell_older;
use qml_base::{CellNo, ObjNo, Steps};
use std::alloc::Global;
use std::sync::ledger::Ledger;

/// What is to be delivered once an object was made.
#[derive(Drop)]
pub struct Made {
    /// The cells of older objects that hold another value.
    pub changed: Vec<CellNo>,
    /// The new objects that have a start.
    pub starting: Vec<ObjNo>,
    /// How many numbers were given before, and now: those between are the new objects.
    pub before: u32,
    pub now: u32,
}

/// Makes an object of a document, with no instance around it and no owner: all that is made with it is added and told, all cells
/// settle, and that is told, of older objects alone. What is left is to emit the signals of these changes, then the starts and the
/// completions of the new objects. It stops where no room is left for the objects, with nothing changed, or at the lowest cell past
/// the limit of numbers. Without memory the machine may have changed in part.
#[tactic(auto, using(crate::proofs::MakingLemmas::made_alone, crate::proofs::MakingLemmas::unsettled, crate::proofs::MakingLemmas::refused))]
pub fn make_alone<'a, L: Ledger, R: Rules<L>>(
    alloc: Global,
    state: &mut State<'a>,
    unit: u32,
    object: u32,
    rules: &mut R,
    steps: &mut Steps<L>,
) -> Result<Made, Fault>
    requires { Ready (R.asks rules.old) state.old }
    ensures makes { (below : Below) → Leads (makes below unit object (machine_of state.old) (machine_of state.old)) result (left_of below) (machine_of state.new) }
    ensures ready { OnOk result (Ready (R.asks rules.old) state.new) }
    ensures same { R.asks rules.new ≡ R.asks rules.old }
{
    let before = state.tree.given();
    let mut starting = Vec::new(alloc);
    add_alone(alloc, state, unit, object, &mut starting)?;
    let now = state.tree.given();
    let changed = settle_and_tell_older(alloc, state, before, rules, steps)?;
    Ok(Made {
        changed: changed.cells,
        starting,
        before,
        now,
    })
}
