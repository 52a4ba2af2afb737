//! What the bodies are in the words of a program.

ghost use Rattle.std.specs.Prelude.{◌≡◌, ℕ, Bool as B, Some, List, [], length, map, slice_get};
ghost use Rattle.qml_syntax.specs.Nodes.{Table};
ghost use Rattle.js_locals.specs.Laid.{laid};
ghost use Rattle.program_names.specs.Loaded.{Program, unit_at};
ghost use Rattle.program_tables.specs.declared.building.UnitRow as r;
ghost use Rattle.program_tables.specs.declared.names.UnitNames as n;
ghost use Rattle.program_tables.specs.Stands.{Stands};
ghost use Rattle.document_tables.specs.declared.program.DocumentTable as t;
ghost use Rattle.document_tables.specs.Tables.{Tells};
ghost use Rattle.object_members.specs.ByObject.{Numbers, AreByObject};
ghost use Rattle.numbered_bodies.specs.NumberedRows.{OwnRows, AreAllNumbered};
ghost use Rattle.unit_rows.specs.Bodies.{written_bodies};
ghost use Rattle.unit_rows.specs.Placed.{body_in};
ghost use Rattle.declared_signals.specs.declared.declaring.UnitSignals as d;
ghost use Rattle.handled_signals.specs.Meant.{SignalsTold};
ghost use Rattle.written_bodies.specs.BodyRows.{bodies_at};

/// Where a document's table tells it, and the tables and signals are those of the program, the bodies of the rows that have one, in the
/// order of their numbers, are those that are written in the document.
pub fn bodies_are_those_of_the_program()
    ensures { (p : Program) (units : List n.UnitNames) (documents : List t.DocumentTable) (signals : List d.UnitSignals) → Stands p units →
        SignalsTold p units documents signals → (u : ℕ) (tree : Table) (names : n.UnitNames) (rows : List r.UnitRow) (inside : List B)
        (lists : List Numbers) (objects : List OwnRows) (numbers : List ℕ) → slice_get units u ≡ Some names → Tells p u tree names rows inside →
        AreByObject (length (unit_at p u).objects) rows lists → AreAllNumbered tree rows inside lists objects numbers →
        (unit_at p u).functions ≡ [] →
        map (body_in (laid tree)) (bodies_at units documents signals u rows inside numbers) ≡ written_bodies p u }
{}
