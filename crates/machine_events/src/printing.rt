//! What `print` shows.

ghost use Rattle.std.specs.Prelude.{◌≡◌, ◌++◌, ℕ, [], List, IfOk, OnOk};
ghost use Rattle.qml_base.specs.declared.numbers.ExprNo.{ExprNo as AText};
ghost use Rattle.qml_base.specs.declared.names.Home.{Home as AHome};
ghost use Rattle.qml_value.specs.declared.value.Value.{Value as AValue};
ghost use Rattle.evaluation.specs.Ask.{Ask};
ghost use Rattle.evaluation.specs.Evaluating.{Evaluation};
ghost use Rattle.evaluation.specs.Hearing.{Answers, in_full};
ghost use Rattle.live_tree.specs.Live.{held_in};
ghost use Rattle.machine_steps.specs.Telling.{onto};
ghost use Rattle.qml_base.specs.declared.numbers.CellNo.{CellNo as ACell};
ghost use Rattle.machine_model.specs.Acts.{goes};
ghost use Rattle.machine_model.specs.Showing as showing;
ghost use Rattle.machine_model.specs.Lines as lines;
ghost use Rattle.machine_model.specs.Lines.{print_path};
ghost use Rattle.machine_state.specs.Keeping.{machine_of};
ghost use Rattle.machine_deliveries.specs.Fitting.{Fits};
ghost use Rattle.machine_deliveries.specs.Doing.{Does};
ghost use Rattle.machine_events.specs.Shown.{cells_told};

use crate::holding::Holding;
use crate::lines::line_home;
use evaluation::{Came, Evaluated, Rules};
use live_tree::LiveTree;
use machine_bodies::Bodies;
use machine_deliveries::Engine;
use machine_state::State;
use machine_steps::{Fault, print_entry};
use qml_base::{ExprNo, NoMemory};
use qml_scope::Shapes;
use qml_text::Text;
use qml_value::Value;
use std::alloc::Global;
use std::sync::ledger::Ledger;
use trace_print::{Entry, Site};
use tree_model::Cell;

/// Puts an entry behind the trace, if there is one.
fn push_told(trace: &mut Vec<Entry>, told: Option<Entry>) -> Result<(), NoMemory>
    ensures { OnOk result (trace.new.items ≡ trace.old.items ++ onto told []) }
{
    match told {
        Some(entry) => {
            trace.push(entry)?;
            Ok(())
        }
        None => Ok(()),
    }
}

/// Puts an entry behind the trace for each cell that has a name.
fn push_cells(
    alloc: Global,
    shapes: &Shapes,
    cells: &[Cell],
    trace: &mut Vec<Entry>,
) -> Result<(), NoMemory>
    ensures { OnOk result (trace.new.items ≡ trace.old.items ++ cells_told shapes.now.known (held_in cells.now)) }
{
    'cells: for cell in cells {
        let told = print_entry(alloc, shapes, cell)?;
        push_told(trace, told)?;
    }
    Ok(())
}

/// Puts an entry behind the trace for each cell of a tree that has a name.
fn push_all(alloc: Global, tree: &LiveTree, trace: &mut Vec<Entry>) -> Result<(), NoMemory>
    ensures { OnOk result (trace.new.items ≡ trace.old.items ++ cells_told tree.now.known (held_in tree.now.tree.cells)) }
{
    push_cells(alloc, tree.shapes(), tree.cells(), trace)
}

/// Shows all cells that have names, by number and place.
#[tactic(auto, using(machine_deliveries::proofs::FitLemmas::still_fits))]
pub fn show_all<'a>(alloc: Global, state: &mut State<'a>) -> Result<(), Fault>
    ensures does { Does result (machine_of state.new) (showing.show_all (machine_of state.old)) }
    ensures fits { (asks : AText → AHome → Ask) (bodies : AText → AHome → List (List ℕ) → List AValue → Ask) → Fits asks bodies state.old → Fits asks bodies state.new }
{
    push_all(alloc, &state.tree, &mut state.trace)?;
    Ok(())
}

/// What an evaluation came to that was heard in full.
fn came_of(answer: Evaluated) -> Result<Came, NoMemory>
    ensures { (e : Evaluation) (old new : List ACell) → Answers (in_full e) old new answer → IfOk result (λ came. came ≡ e.came) }
{
    match answer {
        Evaluated::Value(v) => Ok(Came::Value(v)),
        Evaluated::Threw(why) => Ok(Came::Threw(why)),
        Evaluated::Loop => Ok(Came::Loop),
        Evaluated::Past => Ok(Came::Past),
        Evaluated::Need(_) | Evaluated::NoMemory => Err(NoMemory),
    }
}

/// What a text of the root comes to by what cells hold.
fn path_came<'a, L: Ledger, R: Rules<L> + Drop, B: Bodies<L> + Drop>(
    alloc: Global,
    engine: &mut Engine<L, R, B>,
    state: &State<'a>,
    root: u32,
    text: ExprNo,
) -> Result<Came, NoMemory>
    requires { Fits (R.asks engine.old.rules) (B.asks engine.old.bodies) state.now }
    ensures came { IfOk result (λ came. came ≡ lines.path_came root text (machine_of state.now)) }
    ensures fits { Fits (R.asks engine.new.rules) (B.asks engine.new.bodies) state.now }
{
    let mut reads = Vec::new(alloc);
    let nothing = Value::Undefined;
    let view = Holding {
        tree: &state.tree,
        nothing: &nothing,
    };
    let answer = engine.rules.eval(
        alloc,
        &view,
        line_home(root),
        text,
        &mut reads,
        &mut engine.steps,
    );
    came_of(answer)
}

/// Shows a path with what it came to.
#[tactic(auto, using(machine_deliveries::proofs::FitLemmas::still_fits))]
fn show<'a>(state: &mut State<'a>, path: Text, came: Came) -> Result<(), NoMemory>
    ensures shows { OnOk result (lines.show path came (machine_of state.old) ≡ goes tt (machine_of state.new)) }
    ensures fits { (asks : AText → AHome → Ask) (bodies : AText → AHome → List (List ℕ) → List AValue → Ask) → Fits asks bodies state.old → Fits asks bodies state.new }
{
    match came {
        Came::Value(value) => state.tell(Entry::PrintPath { path, value }),
        Came::Threw(cause) => state.tell(Entry::ThrewReport {
            site: Site::Print,
            cause,
        }),
        Came::Loop => Ok(()),
        Came::Past => Ok(()),
    }
}

/// Shows what a path comes to, read in the root's scope by what cells hold.
pub fn show_path<'a, L: Ledger, R: Rules<L> + Drop, B: Bodies<L> + Drop>(
    alloc: Global,
    engine: &mut Engine<L, R, B>,
    state: &mut State<'a>,
    root: u32,
    path: Text,
    text: ExprNo,
) -> Result<(), Fault>
    requires { Fits (R.asks engine.old.rules) (B.asks engine.old.bodies) state.old }
    ensures does { Does result (machine_of state.new) (lines.do_event root (print_path path text) (machine_of state.old)) }
    ensures fits { OnOk result (Fits (R.asks engine.new.rules) (B.asks engine.new.bodies) state.new) }
{
    let came = path_came(alloc, engine, state, root, text)?;
    show(state, path, came)?;
    Ok(())
}
