//! Laws.

ghost use Rattle.qml_types.specs.declared.kind.TypeNo.{TypeNo};
ghost use Rattle.instance_names.specs.Names.{AreNames};

/// What is told of a built-in type are the names of the definition.
#[tactic(auto, using(crate::proofs::TypeLemmas::are_names))]
pub fn names_of_types_are_the_definitions()
    ensures { (t : TypeNo) → AreNames t }
{}
