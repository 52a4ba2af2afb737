//! What is marked, in the words of a program.

ghost use Rattle.std.specs.Prelude.{◌≡◌, ℕ, Bool as B, List, Some, slice_get};
ghost use Rattle.program_names.specs.Loaded.{Program};
ghost use Rattle.program_names.specs.Components.{Roots};
ghost use Rattle.load_faults.specs.Effects.{Declared, is_impure};
ghost use Rattle.impure_functions.specs.Least.{AreWhole};
ghost use Rattle.effect_search.specs.declared.search.Call as c;
ghost use Rattle.effect_search.specs.Marks.{AreMarked, AreNumbered};

/// Where functions that call none but each other are numbered, with their own effects and their calls, those that are
/// marked are the
/// impure ones.
pub fn marked_functions_are_impure()
    ensures { (p : Program) (roots : Roots) (functions : List Declared) (acts marks : List B) (calls : List c.Call) →
        AreWhole p roots functions → AreNumbered p roots functions acts calls → AreMarked acts calls marks →
        (k : ℕ) (f : Declared) → slice_get functions k ≡ Some f → slice_get marks k ≡ Some (is_impure p roots f) }
{}
