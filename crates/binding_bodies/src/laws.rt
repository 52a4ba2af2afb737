//! What the bodies are of a program.

ghost use Rattle.std.specs.Prelude.{◌≡◌, ℕ, List, map};
ghost use Rattle.qml_syntax.specs.Nodes.{Table};
ghost use Rattle.js_locals.specs.Laid.{laid};
ghost use Rattle.program_names.specs.Loaded.{Program};
ghost use Rattle.unit_rows.specs.declared.body.BodyRow.{BodyRow};
ghost use Rattle.unit_rows.specs.Bodies.{written_bodies};
ghost use Rattle.unit_rows.specs.Placed.{UnitTexts, body_in};
ghost use Rattle.binding_bodies.specs.Behind.{AreBodies, AreBodiesOf};

/// Where the written bodies are those of a document or script of a program, all bodies are, and so are the places of the
/// `Qt.binding`s with the numbers of their functions.
pub fn bodies_are_those_of_the_program()
    ensures { (p : Program) (d : ℕ) (t : Table) (written : List BodyRow) (made : UnitTexts) →
        map (body_in (laid t)) written ≡ written_bodies p d → AreBodies t written made → AreBodiesOf p d made }
{}
