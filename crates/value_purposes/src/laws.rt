//! What values and groups are given for, in the words of a program.

ghost use Rattle.std.specs.Prelude.{◌≡◌, ℕ, true, List, ◌∷◌, ◌++◌};
ghost use Rattle.program_names.specs.Loaded.{Program};
ghost use Rattle.program_names.specs.Components.{Roots};
ghost use Rattle.program_names.specs.ComponentRoots.{meaning_given as given_in_program};
ghost use Rattle.load_faults.specs.Faults.{purpose_of as purpose_in_program};
ghost use Rattle.program_tables.specs.declared.names.UnitNames as n;
ghost use Rattle.program_tables.specs.Stands.{is_there};
ghost use Rattle.path_ends.specs.declared.aliases.UnitEnds as e;
ghost use Rattle.handler_names.specs.declared.declared.UnitHandlers as h;
ghost use Rattle.change_targets.specs.declared.walking.UnitTargets as t;
ghost use Rattle.path_meanings.specs.Bare.{bare};
ghost use Rattle.value_purposes.specs.Given.{given_at};
ghost use Rattle.value_purposes.specs.Purposes.{purpose_at};
ghost use Rattle.value_purposes.specs.Bare.{bare_purpose, TellsPaths};

/// Where the tables are those of a program, what is given under a path in an object is what its whole path means there.
pub fn meanings_are_those_of_the_program()
    ensures { (p : Program) (roots : Roots) (names : List n.UnitNames) (handlers : List h.UnitHandlers) (ends : List e.UnitEnds)
        (targets : List t.UnitTargets) → TellsPaths p roots names handlers ends targets → (d o : ℕ) → is_there names d o ≡ true →
        (before : List (List ℕ)) (first : List ℕ) (rest : List (List ℕ)) →
        given_at names handlers ends targets d o before first rest ≡ bare (given_in_program p roots d o (before ++ first ∷ rest)) }
{}

/// And what a value is given for is what it is given for there.
pub fn purposes_are_those_of_the_program()
    ensures { (p : Program) (roots : Roots) (names : List n.UnitNames) (handlers : List h.UnitHandlers) (ends : List e.UnitEnds)
        (targets : List t.UnitTargets) → TellsPaths p roots names handlers ends targets → (d o : ℕ) → is_there names d o ≡ true →
        (before : List (List ℕ)) (first : List ℕ) (rest : List (List ℕ)) →
        purpose_at names handlers ends targets d o before first rest ≡
        bare_purpose (purpose_in_program p roots d o (before ++ first ∷ rest)) }
{}
