//! What is made, in the words of a program.

ghost use Rattle.std.specs.Prelude.{◌≡◌, ℕ, Some, slice_get};
ghost use Rattle.program_names.specs.Loaded.{Program};
ghost use Rattle.program_names.specs.ComponentRoots.{roots_of};
ghost use Rattle.alias_tables.specs.Ids.{KnowsRoots};
ghost use Rattle.document_tables.specs.declared.program.ProgramTables as t;
ghost use Rattle.document_tables.specs.Tables.{TellProgram};
ghost use Rattle.path_ends.specs.declared.aliases.UnitIds as i;
ghost use Rattle.path_ends.specs.Known.{Tells};
ghost use Rattle.program_paths.specs.declared.paths.ProgramPaths as m;
ghost use Rattle.program_paths.specs.Paths.{ArePaths};

/// Where the tables are those of a program, ids and aliases are those of the program; so by `paths_end_as_in_the_program` paths end
/// where the program's do.
pub fn paths_are_those_of_the_program()
    ensures { (p : Program) (tables : t.ProgramTables) (made : m.ProgramPaths) → TellProgram p tables →
        ArePaths tables.names.units.items tables.documents.items (Some made) →
        Tells p (roots_of p) tables.names.units.items made.ids.items made.aliases.items }
{}

/// And the roots that are kept of each document are those of the components of its objects.
pub fn roots_are_those_of_components()
    ensures { (p : Program) (tables : t.ProgramTables) (made : m.ProgramPaths) (d : ℕ) (own : i.UnitIds) → TellProgram p tables →
        ArePaths tables.names.units.items tables.documents.items (Some made) → slice_get made.ids.items d ≡ Some own →
        KnowsRoots p (roots_of p) d own.roots.items }
{}
