//! What the signals are in the words of a program.

ghost use Rattle.std.specs.Prelude.{◌≡◌, ℕ, true, List, map};
ghost use Rattle.std.specs.List.{flat_map};
ghost use Rattle.program_names.specs.Loaded.{Program};
ghost use Rattle.program_names.specs.Layers.{names, handled};
ghost use Rattle.program_tables.specs.declared.names.UnitNames as n;
ghost use Rattle.program_tables.specs.Stands.{Stands, is_there};
ghost use Rattle.document_tables.specs.declared.program.DocumentTable as t;
ghost use Rattle.unit_rows.specs.NamesOfObjects.{rows_of_type};
ghost use Rattle.declared_signals.specs.declared.declaring.UnitSignals as d;
ghost use Rattle.handled_signals.specs.Handled.{signal_with, signals_handled};
ghost use Rattle.handled_signals.specs.Meant.{SignalsTold, joined};

/// Where the tables are those of a program, the signals under a handler are those that the names of the object find in the definition
/// of a unit.
pub fn signals_are_those_of_the_program()
    ensures { (p : Program) (units : List n.UnitNames) (documents : List t.DocumentTable) (signals : List d.UnitSignals) → Stands p units →
        SignalsTold p units documents signals → (u o : ℕ) → is_there units u o ≡ true → (handler : List ℕ) →
        signals_handled units documents signals u o handler ≡ flat_map (signal_with handler) (rows_of_type (names p u o)) }
{}

/// And their parameters are those that the handler has in the program; there are none exactly where the name is no handler's.
pub fn parameters_are_those_of_the_program()
    ensures { (p : Program) (units : List n.UnitNames) (documents : List t.DocumentTable) (signals : List d.UnitSignals) → Stands p units →
        SignalsTold p units documents signals → (u o : ℕ) → is_there units u o ≡ true → (handler : List ℕ) →
        joined (signals_handled units documents signals u o handler) ≡ handled p u o handler }
{}
