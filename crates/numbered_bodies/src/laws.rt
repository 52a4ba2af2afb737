//! What the numbers are of a program.

ghost use Rattle.std.specs.Prelude.{◌≡◌, ℕ, Bool as B, List, length};
ghost use Rattle.qml_syntax.specs.Nodes.{Table};
ghost use Rattle.program_names.specs.Loaded.{Program, unit_at};
ghost use Rattle.program_tables.specs.declared.building.UnitRow as r;
ghost use Rattle.program_tables.specs.declared.names.UnitNames as n;
ghost use Rattle.document_tables.specs.Tables.{Tells};
ghost use Rattle.object_members.specs.ByObject.{Numbers, AreByObject};
ghost use Rattle.numbered_bodies.specs.NumberedRows.{OwnRows, AreAllNumbered, NumberBodies};

/// Where a document's table tells it, the rows of each object with their numbers are its members with the numbers of
/// their bodies.
pub fn numbers_are_those_of_the_program()
    ensures { (p : Program) (d : ℕ) (t : Table) (names : n.UnitNames) (rows : List r.UnitRow) (inside : List B)
        (lists : List Numbers) (objects : List OwnRows) (bodies : List ℕ) → Tells p d t names rows inside →
        AreByObject (length (unit_at p d).objects) rows lists → AreAllNumbered t rows inside lists objects bodies →
        NumberBodies p d objects }
{}
