//! Laws of the definitions, each as the contract of a call that does nothing.

ghost use Rattle.std.specs.Prelude.{◌≡◌, ◌↔◌, IsTrue};
ghost use Rattle.qml_value.specs.declared.value.Value.{Value};
ghost use Rattle.qml_value.specs.Sameness.{Same};
ghost use Rattle.qml_value.specs.Truth.{CountsAsTrue};
ghost use Rattle.js_meaning.specs.Operate.{counts, same_values};

/// The test by which a condition is decided is what counts as true.
#[tactic(auto, using(crate::proofs::NumberLemmas::counts_is))]
pub fn conditions_go_by_truth()
    ensures { (v : Value) → IsTrue (counts v) ↔ CountsAsTrue v }
{}

/// The test by which `===` is decided is sameness.
#[tactic(auto, using(crate::proofs::SameLemmas::same_is))]
pub fn strict_equality_is_sameness()
    ensures { (v w : Value) → IsTrue (same_values v w) ↔ Same v w }
{}
