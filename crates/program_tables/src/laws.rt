//! What is found in the tables of a program.

ghost use Rattle.std.specs.Prelude.{◌≡◌, ◌+◌, ℕ, true, Some, List, [], length, map, slice_get};
ghost use Rattle.std.specs.Option.{option_map, unwrap_or};
ghost use Rattle.qml_base.specs.declared.numbers.UnitNo as n;
ghost use Rattle.qml_types.specs.declared.kind.TypeRef.TheVariants.{Document as OfDocument};
ghost use Rattle.qml_types.specs.declared.kind.TypeRef.{TypeRef};
ghost use Rattle.qml_syntax.specs.Tree.{document};
ghost use Rattle.qml_syntax.specs.Nodes.{Table};
ghost use Rattle.program_names.specs.Reading.{File, is_document};
ghost use Rattle.program_names.specs.Loaded.{Program, unit_of, unit_at, type_of_object};
ghost use Rattle.document_rows.specs.declared.rows.ObjectRow as o;
ghost use Rattle.document_rows.specs.Entries.{AreRows};
ghost use Rattle.document_members.specs.Members.{ReadsMembers};
ghost use Rattle.program_tables.specs.declared.building.UnitRow as r;
ghost use Rattle.program_tables.specs.Building.{nothing_declared, rows_added};
ghost use Rattle.program_names.specs.Layers.{meaning as meaning_in_program, is_a, no_default, default_of};
ghost use Rattle.program_tables.specs.declared.names.UnitNames as a;
ghost use Rattle.program_tables.specs.declared.names.ObjectNames as b;
ghost use Rattle.program_tables.specs.Walk.{found_at, object_in};
ghost use Rattle.program_tables.specs.Stands.{Stands, is_there, meant, default_meant};
ghost use Rattle.program_tables.specs.Types.{any_of, base_in};
ghost use Rattle.program_tables.specs.Defaults.{default_at};
ghost use Rattle.program_tables.specs.RowsSay.{UnitSays, SaysKinds, row_of, member_of_row};

/// In the tables of a program a name is found, for each object, exactly where the object has it, and what is found is what
/// the name means.
pub fn names_mean_as_in_the_program()
    ensures { (p : Program) (units : List a.UnitNames) → Stands p units → (d o : ℕ) → is_there units d o ≡ true →
        (name : List ℕ) →
        option_map (meant p) (found_at (length units + 1) units d o name) ≡ meaning_in_program p d o name }
{}

/// Tables of all documents, each built from rows that say its members and of the types of its objects, are those of the
/// program, where each document that is a type has a root.
pub fn tables_of_rows_stand()
    ensures { (p : Program) (units : List a.UnitNames) → length units ≡ length p →
        ((d : ℕ) (unit : a.UnitNames) → slice_get units d ≡ Some unit → UnitSays p d unit) →
        ((d o : ℕ) (x : b.ObjectNames) (e : n.UnitNo) →
        object_in units d o ≡ Some x → x.base ≡ OfDocument e → is_there units e.0 0 ≡ true) → Stands p units }
{}

/// Rows that are read from the tree of a document, with the kinds that the document names, say the members of the document;
/// so a table that is built from them and of the types of its objects is one of the document.
pub fn rows_of_a_tree_say_its_document()
    ensures { (p : Program) (d : ℕ) (file : File) (t : Table) (objects : List o.ObjectRow) (rows : List r.UnitRow)
        (bases : List TypeRef) (unit : a.UnitNames) → (all : AreRows t objects (map row_of rows)) →
        unit_at p d ≡ unit_of file (is_document (document all.imports all.root)) →
        ReadsMembers t (map row_of rows) (map member_of_row rows) → SaysKinds p d t rows →
        unit.objects.items ≡ rows_added 0 [] rows (map nothing_declared bases) →
        ((o : ℕ) (b : TypeRef) → slice_get bases o ≡ Some b → b ≡ type_of_object p d o) → UnitSays p d unit }
{}

/// An object of the tables is of a type exactly where it is in the program.
pub fn types_are_as_in_the_program()
    ensures { (p : Program) (units : List a.UnitNames) → Stands p units → (d o : ℕ) → is_there units d o ≡ true →
        (wanted : TypeRef) → any_of (length units + 1) units wanted (base_in units d o) ≡ is_a p d o wanted }
{}

/// The default property of an object of the tables is the one that it has in the program.
pub fn defaults_are_as_in_the_program()
    ensures { (p : Program) (units : List a.UnitNames) → Stands p units → (d o : ℕ) → is_there units d o ≡ true →
        unwrap_or (option_map (default_meant p) (default_at (length units + 1) units d o)) no_default ≡
        default_of p d o }
{}
