//! What is made, in the words of a program.

ghost use Rattle.std.specs.Prelude.{List};
ghost use Rattle.program_names.specs.Loaded.{Program};
ghost use Rattle.document_tables.specs.declared.program.ProgramTables as t;
ghost use Rattle.document_tables.specs.Tables.{TellProgram};
ghost use Rattle.declared_signals.specs.declared.declaring.UnitSignals as d;
ghost use Rattle.handled_signals.specs.Meant.{SignalsTold};
ghost use Rattle.program_signals.specs.Made.{AreSignals};

/// Where the tables are those of a program, the signals that are made of them are those that its objects declare; so by the laws of
/// `handled_signals` what is looked up by them is what the program has.
pub fn signals_tell_the_program()
    ensures { (p : Program) (tables : t.ProgramTables) (signals : List d.UnitSignals) → TellProgram p tables →
        AreSignals tables.names.units.items 0 tables.documents.items signals →
        SignalsTold p tables.names.units.items tables.documents.items signals }
{}
