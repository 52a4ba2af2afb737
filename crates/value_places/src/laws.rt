//! The places in the words of a program.

ghost use Rattle.std.specs.Prelude.{◌≡◌, ℕ, List, map};
ghost use Rattle.qml_syntax.specs.Tree.{document};
ghost use Rattle.qml_syntax.specs.Nodes.{Table};
ghost use Rattle.program_names.specs.Reading.{File, is_document};
ghost use Rattle.program_names.specs.Loaded.{Program, unit_of, unit_at};
ghost use Rattle.load_faults.specs.Faults.{place_of_object, place_of_value};
ghost use Rattle.document_rows.specs.declared.rows.ObjectRow as o;
ghost use Rattle.document_rows.specs.declared.rows.MemberRow as r;
ghost use Rattle.document_rows.specs.Entries.{AreRows};
ghost use Rattle.document_members.specs.Members.{value_at};
ghost use Rattle.value_places.specs.Places as s;

/// Where the rows are those of the tree of a document, the places of its objects and of its values are those that are told of them.
pub fn places_are_those_of_the_program()
    ensures objects { (p : Program) (d : ℕ) (file : File) (t : Table) (objects : List o.ObjectRow) (rows : List r.MemberRow) →
        (all : AreRows t objects rows) → unit_at p d ≡ unit_of file (is_document (document all.imports all.root)) →
        (o : ℕ) → s.object_place t objects o ≡ place_of_object p d o }
    ensures values { (p : Program) (d : ℕ) (file : File) (t : Table) (objects : List o.ObjectRow) (rows : List r.MemberRow) →
        (all : AreRows t objects rows) → unit_at p d ≡ unit_of file (is_document (document all.imports all.root)) →
        (first at : ℕ) → s.value_place t objects first at ≡ place_of_value p d (value_at t first at) }
{}
