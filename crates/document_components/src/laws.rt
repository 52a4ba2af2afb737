//! What the components are in the words of a program.

ghost use Rattle.std.specs.Prelude.{◌≡◌, ◌<◌, ℕ, Some, List, [], length, slice_get};
ghost use Rattle.qml_syntax.specs.Nodes.{Table};
ghost use Rattle.program_names.specs.Written.{OwnedMember};
ghost use Rattle.program_names.specs.Reading.{File, Source};
ghost use Rattle.program_names.specs.Loaded.{Program, unit_at, unit_of};
ghost use Rattle.program_names.specs.ComponentRoots.{roots_of};
ghost use Rattle.document_rows.specs.declared.rows.ObjectRow as o;
ghost use Rattle.program_tables.specs.declared.names.UnitNames as n;
ghost use Rattle.program_tables.specs.declared.building.UnitRow as r;
ghost use Rattle.program_tables.specs.RowsSay.{RowsSay};
ghost use Rattle.program_tables.specs.Stands.{Stands};
ghost use Rattle.path_ends.specs.declared.aliases.UnitIds as i;
ghost use Rattle.path_ends.specs.Known.{SaysIds};
ghost use Rattle.component_roots.specs.Deciding.{ObjectsSay};
ghost use Rattle.document_components.specs.Made.{AreIds};

/// Where the tables are those of a program, and the rows say the members of a document and what its objects are written as, the
/// roots and ids that are made are those of the program.
pub fn components_are_those_of_the_program()
    ensures { (p : Program) (names : List n.UnitNames) (ids : List i.UnitIds) (d : ℕ) (unit : n.UnitNames) (made : i.UnitIds)
        (t : Table) (rows : List r.UnitRow) (objects : List o.ObjectRow) (file : File) (source : Source) →
        Stands p names → unit_at p d ≡ unit_of file source → RowsSay p d t [] rows (unit_at p d).rows →
        ObjectsSay p names d rows objects → length objects ≡ length unit.objects.items →
        ((k : ℕ) (w : OwnedMember) → slice_get (unit_at p d).rows k ≡ Some w → w.object < length (unit_at p d).objects) →
        slice_get ids d ≡ Some made → AreIds names d rows objects (Some made) →
        SaysIds p (roots_of p) names ids d unit }
{}
