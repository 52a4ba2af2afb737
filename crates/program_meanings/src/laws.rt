//! What is made, in the words of a program.

ghost use Rattle.std.specs.Prelude.{Some};
ghost use Rattle.program_names.specs.Loaded.{Program};
ghost use Rattle.program_names.specs.ComponentRoots.{roots_of};
ghost use Rattle.document_tables.specs.declared.program.ProgramTables as t;
ghost use Rattle.document_tables.specs.Tables.{TellProgram};
ghost use Rattle.program_paths.specs.declared.paths.ProgramPaths as m;
ghost use Rattle.program_paths.specs.Paths.{ArePaths};
ghost use Rattle.value_purposes.specs.Bare.{TellsPaths};
ghost use Rattle.program_meanings.specs.declared.made.ProgramMeanings as g;
ghost use Rattle.program_meanings.specs.Made.{AreMeanings};

/// Where the tables and paths are those of a program, the handlers and targets that are made of them are those of the program too; so by
/// `purposes_are_those_of_the_program` values are given for what they are given for there.
pub fn meanings_tell_the_program()
    ensures { (p : Program) (tables : t.ProgramTables) (paths : m.ProgramPaths) (made : g.ProgramMeanings) → TellProgram p tables →
        ArePaths tables.names.units.items tables.documents.items (Some paths) →
        AreMeanings tables.names.units.items tables.documents.items paths.ids.items made →
        TellsPaths p (roots_of p) tables.names.units.items made.handlers.items paths.ends.items made.targets.items }
{}
