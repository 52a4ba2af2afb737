//! What the handlers are in the words of a program.

ghost use Rattle.std.specs.Prelude.{◌≡◌, ◌+◌, ℕ, true, is_some, Some, List, length, slice_get};
ghost use Rattle.program_names.specs.Loaded.{Program};
ghost use Rattle.program_names.specs.Layers.{handled};
ghost use Rattle.program_tables.specs.declared.names.UnitNames as n;
ghost use Rattle.program_tables.specs.Stands.{Stands, is_there};
ghost use Rattle.handler_names.specs.declared.declared.UnitHandlers as h;
ghost use Rattle.handler_names.specs.Handlers.{handled_at};
ghost use Rattle.handler_names.specs.Told.{HandlersTold, SaysHandlers};

/// Names and handlers that are made from the same rows of all documents tell, of each object, the handlers for the signals that it
/// declares.
pub fn handlers_of_rows_are_told()
    ensures { (p : Program) (names : List n.UnitNames) (handlers : List h.UnitHandlers) →
        ((d : ℕ) (unit : n.UnitNames) → slice_get names d ≡ Some unit → SaysHandlers p handlers d unit) →
        HandlersTold p names handlers }
{}

/// In the tables of a program a name is that of a handler, for each object, exactly where the object has a signal that it handles.
pub fn handlers_are_those_of_the_program()
    ensures { (p : Program) (names : List n.UnitNames) (handlers : List h.UnitHandlers) → Stands p names →
        HandlersTold p names handlers → (d o : ℕ) → is_there names d o ≡ true → (name : List ℕ) →
        handled_at (length names + 1) names handlers d o name ≡ is_some (handled p d o name) }
{}
