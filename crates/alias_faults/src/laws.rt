//! What is told, in the words of a program.

ghost use Rattle.std.specs.Prelude.{◌≡◌, ℕ, Some, Option, List, [], map, slice_get};
ghost use Rattle.qml_syntax.specs.Nodes.{Table};
ghost use Rattle.program_names.specs.Loaded.{Program, unit_at};
ghost use Rattle.program_names.specs.Components.{Roots};
ghost use Rattle.program_tables.specs.declared.names.UnitNames as n;
ghost use Rattle.program_tables.specs.declared.building.UnitRow as r;
ghost use Rattle.program_tables.specs.RowsSay.{RowsSay};
ghost use Rattle.path_ends.specs.declared.aliases.UnitAliases as u;
ghost use Rattle.path_ends.specs.declared.aliases.UnitIds as i;
ghost use Rattle.path_ends.specs.declared.aliases.UnitEnds as e;
ghost use Rattle.path_ends.specs.Said.{said, aliases_told};
ghost use Rattle.path_ends.specs.Known.{KnowsAll, Tells};
ghost use Rattle.program_tables.specs.Stands.{Stands};
ghost use Rattle.load_faults.specs.Aliases.{bad_targets};
ghost use Rattle.alias_faults.specs.Targets.{SaysComponents, ObjectsThere, bad_targets_of, target_rows};
ghost use Rattle.alias_faults.specs.BadAliases.{bad_rows, bad_written, AreThere};

/// Where the tables are those of a program, and the rows say the members of a document, the faults of its aliases are those of
/// its members in the order of writing.
pub fn bad_aliases_as_written()
    ensures { (p : Program) (roots : Roots) (names : List n.UnitNames) (ids : List i.UnitIds) (aliases : List u.UnitAliases)
        (known : List e.UnitEnds) → Tells p roots names ids aliases → KnowsAll names ids aliases known →
        (d : ℕ) (unit : u.UnitAliases) (t : Table) (rows : List r.UnitRow) → slice_get aliases d ≡ Some unit →
        RowsSay p d t [] rows (unit_at p d).rows → map said unit.rows.items ≡ aliases_told [] rows → AreThere p names d →
        bad_rows known d 0 unit.rows.items ≡ bad_written p roots d }
{}

/// Where the tables say the components of a document, the faults of its rows of targets are those of its targets.
pub fn bad_targets_as_rows()
    ensures { (p : Program) (roots : Roots) (names : List n.UnitNames) (ids : i.UnitIds) (owners : List (Option ℕ)) (d : ℕ) →
        Stands p names → SaysComponents p roots names ids owners d → ObjectsThere p names d →
        bad_targets_of names ids owners d (target_rows p d) ≡ bad_targets p roots d }
{}
