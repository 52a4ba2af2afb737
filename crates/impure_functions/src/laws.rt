//! Laws of the impure functions.

ghost use Rattle.std.specs.Prelude.{List};
ghost use Rattle.program_names.specs.Loaded.{Program};
ghost use Rattle.program_names.specs.Components.{Roots};
ghost use Rattle.load_faults.specs.Effects.{Declared};
ghost use Rattle.impure_functions.specs.Least.{AreWhole, AreLeast};

/// Of functions that call none but each other, no more than the program has and no two of a document at one place, the impure ones are
/// the least set of those that have an effect of their own or call one of it.
pub fn impure_functions_are_the_least()
    ensures { (p : Program) (roots : Roots) (functions : List Declared) →
        AreWhole p roots functions → AreLeast p roots functions }
{}
