//! What the targets are in the words of a program.

ghost use Rattle.std.specs.Prelude.{◌≡◌, ◌+◌, ℕ, true, List, length};
ghost use Rattle.std.specs.Option.{option_map};
ghost use Rattle.program_names.specs.Loaded.{Program};
ghost use Rattle.program_names.specs.Components.{Roots};
ghost use Rattle.program_names.specs.ComponentRoots.{target_of};
ghost use Rattle.program_tables.specs.declared.names.UnitNames as n;
ghost use Rattle.program_tables.specs.Stands.{Stands, is_there};
ghost use Rattle.change_targets.specs.declared.walking.UnitTargets as t;
ghost use Rattle.change_targets.specs.Targets.{target_at};
ghost use Rattle.change_targets.specs.Told.{TargetsTold, IsThere, place_of};

/// Where the tables and what is kept of targets are those of a program, the target of each object is the one that it has there; and that
/// is in the tables.
pub fn targets_are_those_of_the_program()
    ensures { (p : Program) (roots : Roots) (names : List n.UnitNames) (targets : List t.UnitTargets) → Stands p names →
        TargetsTold p roots names targets → (d o : ℕ) → is_there names d o ≡ true →
        (target_at (length names + 1) names targets d o ≡ option_map place_of (target_of p roots d o)) ×
        IsThere names (target_at (length names + 1) names targets d o) }
{}
