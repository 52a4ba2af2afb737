//! The beginning of an event.

ghost use Rattle.std.specs.Prelude.{◌≡◌, ℕ, List, OnOk};
ghost use Rattle.qml_base.specs.declared.numbers.ExprNo.{ExprNo as AText};
ghost use Rattle.qml_base.specs.declared.names.Home.{Home as AHome};
ghost use Rattle.qml_value.specs.declared.value.Value.{Value as AValue};
ghost use Rattle.evaluation.specs.Ask.{Ask};
ghost use Rattle.machine_model.specs.Lines.{begun_event};
ghost use Rattle.machine_state.specs.Keeping.{machine_of};
ghost use Rattle.machine_deliveries.specs.Fitting.{Fits};

use machine_state::State;
use qml_base::NoMemory;
use qml_text::Text;
use trace_print::Entry;

/// Tells an event, and gives it so many deliveries.
#[tactic(auto, using(machine_deliveries::proofs::FitLemmas::still_fits))]
pub fn begin_event<'a>(state: &mut State<'a>, most: u32, shown: Text) -> Result<(), NoMemory>
    ensures begun { OnOk result (machine_of state.new ≡ begun_event most shown (machine_of state.old)) }
    ensures fits { (asks : AText → AHome → Ask) (bodies : AText → AHome → List (List ℕ) → List AValue → Ask) → Fits asks bodies state.old → Fits asks bodies state.new }
{
    state.tell(Entry::Line { shown })?;
    state.turns = most;
    Ok(())
}
