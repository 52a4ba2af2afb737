//! Laws.

ghost use Rattle.std.specs.Prelude.{◌≡◌};
ghost use Rattle.qml_syntax.specs.Tree.{Stmts};
ghost use Rattle.load_faults.specs.NamesInCode.{Standpoint};
ghost use Rattle.load_faults.specs.Code.{deeds_of_stmts};
ghost use Rattle.code_deeds.specs.Deeds as s;

/// The deeds, part by part, are those of the definition.
#[tactic(auto, using(crate::proofs::ToldLemmas::same_stmts))]
pub fn deeds_are_those_told()
    ensures { (h : Standpoint) (ss : Stmts) → deeds_of_stmts h ss ≡ s.deeds_of_stmts h ss }
{}
