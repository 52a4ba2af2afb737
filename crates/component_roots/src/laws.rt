//! What is known at the end of all rounds.

ghost use Rattle.std.specs.Prelude.{◌≡◌, ◌<◌, ℕ, Bool as B, true, false, Some, List, length, map, slice_get};
ghost use Rattle.std.specs.Option.{unwrap_or};
ghost use Rattle.std.specs.declared.alloc.Global.{Global};
ghost use Rattle.std.specs.declared.vec.Vec as v;
ghost use Rattle.document_rows.specs.declared.rows.ObjectRow as o;
ghost use Rattle.program_tables.specs.declared.names.UnitNames as n;
ghost use Rattle.program_tables.specs.declared.building.UnitRow as r;
ghost use Rattle.program_tables.specs.Stands.{Stands, is_there};
ghost use Rattle.component_roots.specs.Deciding.{AreDecisions, decisions, ObjectsSay};
ghost use Rattle.program_names.specs.Reading.{File, Source, is_document};
ghost use Rattle.qml_syntax.specs.Tree.{document};
ghost use Rattle.qml_syntax.specs.Nodes.{Table};
ghost use Rattle.document_rows.specs.Entries.{AreRows};
ghost use Rattle.document_members.specs.Members.{ReadsMembers};
ghost use Rattle.program_tables.specs.RowsSay.{row_of, member_of_row};
ghost use Rattle.program_names.specs.Loaded.{Program, unit_at, unit_of};
ghost use Rattle.program_names.specs.Components.{is_root_at, is_known};
ghost use Rattle.program_names.specs.ComponentRoots.{roots_of};
ghost use Rattle.component_roots.specs.Decided.{OwnersAreLower, AreDecided};

/// Of every object of a program it is known at last whether it begins a component, and of all that are around it.
pub fn all_are_known()
    ensures { (p : Program) (d : ℕ) → OwnersAreLower p d → (o : ℕ) → o < length (unit_at p d).objects →
        is_known p (roots_of p) d o ≡ true }
{}

/// Where it is decided for each object of a document by what it is written as, this is what is known at last.
pub fn roots_that_are_decided()
    ensures { (p : Program) (d : ℕ) (decided : ℕ → B) → OwnersAreLower p d → AreDecided p d decided → (o : ℕ) →
        o < length (unit_at p d).objects → is_root_at (roots_of p) d o ≡ Some (decided o) }
{}

/// Each object of a document is written in one of a lower number.
pub fn owners_are_lower()
    ensures { (p : Program) (d : ℕ) (file : File) (source : Source) → unit_at p d ≡ unit_of file source → OwnersAreLower p d }
{}

/// Where the tables are those of a program and the rows say what the objects of a document are written as, what is found of all
/// objects is what each decides, whatever is known of the others.
pub fn found_is_decided()
    ensures { (p : Program) (names : List n.UnitNames) (d : ℕ) (rows : List r.UnitRow) (objects : List o.ObjectRow) (found : v.Vec B Global) →
        Stands p names → ObjectsSay p names d rows objects → AreDecisions (Some found) (decisions names d rows 0 objects) →
        AreDecided p d (λ o. unwrap_or (slice_get found.items o) false) }
{}

/// Rows that are read from the tree of a document say what its objects are written as.
pub fn rows_of_a_tree_say_roles()
    ensures { (p : Program) (names : List n.UnitNames) (d : ℕ) (file : File) (t : Table) (objects : List o.ObjectRow) (rows : List r.UnitRow) →
        (all : AreRows t objects (map row_of rows)) →
        unit_at p d ≡ unit_of file (is_document (document all.imports all.root)) →
        ReadsMembers t (map row_of rows) (map member_of_row rows) →
        ((o : ℕ) → o < length objects → is_there names d o ≡ true) →
        ((k : ℕ) (x : r.UnitRow) → slice_get rows k ≡ Some x → is_there names d x.row.object ≡ true) →
        ObjectsSay p names d rows objects }
{}
