//! Laws of the definitions, each as the contract of a call that does nothing.

ghost use Rattle.std.specs.Prelude.{◌≡◌, ◌≢◌, Some};
ghost use Rattle.qml_base.specs.declared.numbers.CellNo.{CellNo};
ghost use Rattle.evaluation.specs.declared.came.Came.TheVariants as came;
ghost use Rattle.evaluation.specs.Ask.{Ask, Names};
ghost use Rattle.evaluation.specs.Evaluating.{Reading, evaluated, AgreeOn, NoneLoops, LastLoops};
ghost use Rattle.evaluation.specs.Hearing.{Views, heard, Completes, Hears, in_full};

/// Two readings that agree on the cells that are read give the same outcome and the same reads, whatever is evaluated.
#[tactic(auto, using(crate::proofs::EvaluatingLemmas::same_where_agreed))]
pub fn depends_only_on_what_it_read()
    ensures { (n : Names) (r s : Reading) (ask : Ask) → AgreeOn (evaluated n r ask).reads r s → evaluated n s ask ≡ evaluated n r ask }
{}

/// An evaluation goes on behind no cell that loops, and loops only by the last cell that it read.
#[tactic(auto, using(crate::proofs::EvaluatingLemmas::goes_on, crate::proofs::EvaluatingLemmas::looped_last))]
pub fn loops_by_the_last_cell_read()
    ensures goes_on { (n : Names) (r : Reading) (ask : Ask) → (evaluated n r ask).came ≢ came.Loop → NoneLoops (evaluated n r ask).reads r }
    ensures last { (n : Names) (r : Reading) (ask : Ask) → (evaluated n r ask).came ≡ came.Loop → LastLoops (evaluated n r ask).reads r }
{}

/// What is heard by a view is the evaluation by each reading that gives the same where the view is ready, where each cell
/// that it reads is ready; else the first cell read that isn't is needed, and is the last that is heard.
#[tactic(auto, using(crate::proofs::HearingLemmas::hears_in_full))]
pub fn ready_cells_are_enough()
    ensures first { (n : Names) (view : Views) (r : Reading) (ask : Ask) → Completes view r → Hears view (evaluated n r ask) (heard n view ask) }
    ensures all { (n : Names) (r : Reading) (ask : Ask) → heard n (λ c. Some (r c)) ask ≡ in_full (evaluated n r ask) }
{}
