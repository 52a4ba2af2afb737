//! What the targets are in the words of a program.

ghost use Rattle.std.specs.Prelude.{◌≡◌, ℕ, Some, List, slice_get};
ghost use Rattle.program_names.specs.Loaded.{Program};
ghost use Rattle.program_names.specs.Components.{Roots};
ghost use Rattle.program_tables.specs.declared.names.UnitNames as n;
ghost use Rattle.program_tables.specs.Stands.{Stands};
ghost use Rattle.change_targets.specs.declared.walking.UnitTargets as t;
ghost use Rattle.change_targets.specs.Told.{TargetsTold};
ghost use Rattle.target_tables.specs.Seen.{SaysTargets};

/// Names and targets that are made from the same rows of all documents tell, of each object, the target that it names.
pub fn targets_of_rows_are_told()
    ensures { (p : Program) (roots : Roots) (names : List n.UnitNames) (targets : List t.UnitTargets) → Stands p names →
        ((d : ℕ) (unit : n.UnitNames) → slice_get names d ≡ Some unit → SaysTargets p roots names targets d unit) →
        TargetsTold p roots names targets }
{}
