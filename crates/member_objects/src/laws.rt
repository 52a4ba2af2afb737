//! Objects in the members as which, or in the values of which, they are written.

ghost use Rattle.std.specs.Prelude.{◌≡◌, ℕ, List, Option, map};
ghost use Rattle.qml_syntax.specs.Nodes.{Table};
ghost use Rattle.program_names.specs.declared.fault.Fault.{Fault};
ghost use Rattle.load_faults.specs.Faults.{Faults, first_from};
ghost use Rattle.document_rows.specs.declared.rows.ObjectRow as o;
ghost use Rattle.document_rows.specs.Entries.{AreRows};
ghost use Rattle.document_members.specs.Members.{ReadsMembers};
ghost use Rattle.program_tables.specs.declared.building.UnitRow as r;
ghost use Rattle.program_tables.specs.RowsSay.{row_of, member_of_row};
ghost use Rattle.member_objects.specs.Objects.{by_rows, by_objects};

/// Where the rows are those of the tree of a document, what is told of each object with the row of its member is told first alike, member
/// after member or object after object.
pub fn objects_by_rows_or_by_objects()
    ensures { (t : Table) (objects : List o.ObjectRow) (rows : List r.UnitRow) → AreRows t objects (map row_of rows) →
        ReadsMembers t (map row_of rows) (map member_of_row rows) → (f : ℕ → ℕ → Faults) (kept : Option Fault) →
        first_from kept (by_rows t f 0 rows) ≡ first_from kept (by_objects f 0 objects) }
{}
