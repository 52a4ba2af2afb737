//! What the handlers are in the words of a program.

ghost use Rattle.std.specs.Prelude.{◌≡◌, ℕ, true, List};
ghost use Rattle.qml_base.specs.declared.numbers.Place.{Place};
ghost use Rattle.qml_syntax.specs.Tree.{Function};
ghost use Rattle.program_names.specs.Written.{WrittenValue, a_value, a_function};
ghost use Rattle.program_names.specs.Loaded.{Program};
ghost use Rattle.program_tables.specs.declared.names.UnitNames as n;
ghost use Rattle.program_tables.specs.Stands.{Stands, is_there};
ghost use Rattle.document_tables.specs.declared.program.DocumentTable as t;
ghost use Rattle.unit_rows.specs.NamesOfObjects.{handlers_of};
ghost use Rattle.declared_signals.specs.declared.declaring.UnitSignals as d;
ghost use Rattle.handled_signals.specs.Meant.{SignalsTold};
ghost use Rattle.given_handlers.specs.Given.{handlers_given, handlers_of_function};

/// Where the tables and signals are those of a program, the handlers that a value is are those of the definition of a unit.
pub fn handlers_are_those_of_the_program()
    ensures { (p : Program) (units : List n.UnitNames) (documents : List t.DocumentTable) (signals : List d.UnitSignals) → Stands p units →
        SignalsTold p units documents signals → (u o : ℕ) → is_there units u o ≡ true →
        (body : ℕ) (at : Place) (path : List (List ℕ)) (v : WrittenValue) →
        handlers_given units documents signals u o body path ≡
        handlers_of p u (record { object = o; member = a_value at path v; body = body }) }
{}

/// Likewise those that a function is.
pub fn functions_are_those_of_the_program()
    ensures { (p : Program) (units : List n.UnitNames) → Stands p units → (u o : ℕ) → is_there units u o ≡ true →
        (body : ℕ) (q : Place) (f : Function) (name : List ℕ) (at : Place) →
        handlers_of_function units u o body name ≡
        handlers_of p u (record { object = o; member = a_function q f name at; body = body }) }
{}
