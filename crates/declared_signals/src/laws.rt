//! What the signals are in the words of a program.

ghost use Rattle.std.specs.Prelude.{◌≡◌, ℕ, List};
ghost use Rattle.program_names.specs.Loaded.{Program};
ghost use Rattle.program_tables.specs.declared.building.UnitRow as r;
ghost use Rattle.program_tables.specs.declared.names.UnitNames as n;
ghost use Rattle.program_tables.specs.RowsSay.{UnitSays};
ghost use Rattle.declared_signals.specs.declared.declaring.ObjectSignals as o;
ghost use Rattle.declared_signals.specs.Declaring.{AreDeclared};
ghost use Rattle.declared_signals.specs.Told.{TellsSignals};

/// Where the rows of which they were made say the members of a document, the signals are those that its objects declare.
pub fn signals_are_those_of_the_program()
    ensures { (p : Program) (d count : ℕ) (unit : n.UnitNames) (objects : List o.ObjectSignals) (says : UnitSays p d unit) →
        AreDeclared count says.rows objects → TellsSignals p d says.rows objects }
{}
