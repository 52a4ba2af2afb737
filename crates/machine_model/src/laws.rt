//! Laws of the definitions, each the `ensures` of a function that does nothing.

ghost use Rattle.std.specs.Prelude.{◌≡◌, ℕ, List, Ok, Err};
ghost use Rattle.qml_base.specs.declared.numbers.CellNo.{CellNo};
ghost use Rattle.qml_syntax.specs.Tree.{Units};
ghost use Rattle.tree_model.specs.declared.cells.Report.{Report};
ghost use Rattle.tree_model.specs.Rules.{World};
ghost use Rattle.tree_model.specs.Settling.{Tree, fresh, settled, NonePast, IsLowestPast};
ghost use Rattle.tree_model.specs.Telling.{Changes, Reports};
ghost use Rattle.instance_plans.specs.Numbers.{AllRows};
ghost use Rattle.machine_model.specs.State.{Machine};
ghost use Rattle.evaluation.specs.Ask.{Ask};
ghost use Rattle.js_meaning.specs.Resuming.{next_action};
ghost use Rattle.trace_print.specs.declared.entry.Site.{Site};
ghost use Rattle.machine_model.specs.Emission.{Below};
ghost use Rattle.machine_model.specs.Bodies.{exec, exec_next, sight};
ghost use Rattle.machine_model.specs.Settling.{settled_of};
ghost use Rattle.machine_model.specs.Lines.{Event, event};
ghost use Rattle.machine_model.specs.Runs.{ShownEvent, begun, run_from};
ghost use Rattle.machine_model.specs.Keeping.{After, IsFresh, FreshAfter, FreshAtEnd, AtMost, Begins};

/// Settling as a function gives what the relations of the tree say of a settling: the settled cells with what is told, where
/// no cell is past the limit, and else the lowest cell past it.
#[tactic(auto, using(crate::proofs::SettlingLemmas::settles_so))]
pub fn settling_is_a_function()
    ensures settles { (world : World) (tree : Tree) (cs : List CellNo) (rs : List Report) →
        NonePast (fresh world tree) tree.cells → Changes tree.cells (settled world tree) cs → Reports tree.cells (settled world tree) rs →
        settled_of world tree ≡ Ok (record { cells = settled world tree; changed = cs; reports = rs }) }
    ensures stops { (world : World) (tree : Tree) (c : CellNo) → IsLowestPast (fresh world tree) tree.cells c → settled_of world tree ≡ Err c }
{}

/// An event of a fresh tree that comes to its end leaves a fresh tree, however its bodies write, bind and call one another:
/// each active binding then shows what it comes to when it is evaluated afresh.
#[tactic(auto, using(crate::proofs::FreshLemmas::event_leaves_fresh))]
pub fn events_leave_a_fresh_tree()
    ensures { (root most : ℕ) (shown : Units) (e : Event) (m : Machine) → IsFresh m → FreshAfter (event root most shown e m) }
{}

/// A run begins with a fresh tree, and where it comes to its end, it ends with one.
#[tactic(auto, using(crate::proofs::FreshLemmas::begun_fresh, crate::proofs::FreshLemmas::run_fresh))]
pub fn runs_end_with_a_fresh_tree()
    ensures begins { (units : AllRows) → IsFresh (begun units) }
    ensures ends { (root most : ℕ) (events : List ShownEvent) (m : Machine) → IsFresh m → FreshAtEnd (run_from root most events m) }
{}

/// Whatever an event does, no more turns are left afterwards than it was given, whether it comes to its end or stops.
#[tactic(auto, using(crate::proofs::TraceLemmas::turns_fall))]
pub fn turns_never_rise()
    ensures { (root most : ℕ) (shown : Units) (e : Event) (m : Machine) → After (AtMost most) (AtMost most) (event root most shown e m) }
{}

/// What was told stays told: the trace after an event begins with the trace before it.
#[tactic(auto, using(crate::proofs::TraceLemmas::trace_grows))]
pub fn the_trace_only_grows()
    ensures { (root most : ℕ) (shown : Units) (e : Event) (m : Machine) → After (Begins m.trace) (Begins m.trace) (event root most shown e m) }
{}

/// A body is run step by step as its next action says: what it sees of the machine takes it to its next effect or its end,
/// and the effect's answer goes to the rest.
#[tactic(auto, using(crate::proofs::BodyLemmas::goes_by_action))]
pub fn bodies_go_by_their_next_action()
    ensures { (below : Below) (at : Site) (ask : Ask) (m : Machine) → exec below at ask m ≡ exec_next below at (next_action (sight m) ask) m }
{}
