//! What is found, in the words of a program.

ghost use Rattle.std.specs.Prelude.{◌≡◌, ℕ, map, Option};
ghost use Rattle.qml_syntax.specs.Tree.{Units};
ghost use Rattle.program_names.specs.Paths.{directory_of};
ghost use Rattle.program_names.specs.Loaded.{Program, unit_at, type_named};
ghost use Rattle.load_faults.specs.Cycles.{uses_of};
ghost use Rattle.document_imports.specs.Imports.{row_of};
ghost use Rattle.program_types.specs.Numbers.{files_in, type_in};
ghost use Rattle.program_types.specs.UsesNamed.{uses_named};

/// Over the files of a program and the rows of a document's imports a name finds the type that it finds in the program.
#[tactic(auto, using(crate::proofs::ProgramLemmas::type_alike))]
pub fn types_are_found_as_in_the_program()
    ensures { (p : Program) (d : ℕ) (qualifier : Option Units) (name : Units) →
        type_in (files_in p) (directory_of (unit_at p d).file.path) (map (row_of (directory_of (unit_at p d).file.path)) (unit_at p d).imports) qualifier name ≡
        type_named p d qualifier name }
{}

/// So the documents that a document uses are those of the program.
#[tactic(auto, using(crate::proofs::ProgramLemmas::uses_alike))]
pub fn uses_are_those_of_the_program()
    ensures { (p : Program) (d : ℕ) →
        uses_named (files_in p) (directory_of (unit_at p d).file.path) (map (row_of (directory_of (unit_at p d).file.path)) (unit_at p d).imports) (unit_at p d).uses ≡
        uses_of p d }
{}
