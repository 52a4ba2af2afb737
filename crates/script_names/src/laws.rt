//! What is found, in the words of a program.

ghost use Rattle.std.specs.Prelude.{◌≡◌, ℕ, List, map};
ghost use Rattle.program_names.specs.Paths.{directory_of};
ghost use Rattle.program_names.specs.Loaded.{Program, unit_at};
ghost use Rattle.load_faults.specs.NamesInCode.{script_of};
ghost use Rattle.document_imports.specs.Imports.{row_of};
ghost use Rattle.program_types.specs.Numbers.{files_in};
ghost use Rattle.script_names.specs.Scripts.{script_in};

/// Where the imports are those of a document of a program, and the files those of the program, a qualifier finds the script that it finds in the program.
pub fn scripts_are_those_of_the_program()
    ensures { (p : Program) (d : ℕ) (name : List ℕ) →
        script_in (files_in p) (map (row_of (directory_of (unit_at p d).file.path)) (unit_at p d).imports) name ≡
        script_of p d name (unit_at p d).imports }
{}
