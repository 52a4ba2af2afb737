//! What the rows say of a document.

ghost use Rattle.std.specs.Prelude.{◌≡◌, ℕ, [], map, None};
ghost use Rattle.qml_syntax.specs.Tree.{Object as AnObject};
ghost use Rattle.program_names.specs.Written.{as_root, objects_of, rows_of};
ghost use Rattle.document_rows.specs.Entries.{members_with, objects_with};
ghost use Rattle.document_rows.specs.WholePaths.{rows_behind};
ghost use Rattle.document_rows.specs.WrittenObjects.{members_at, members_of_object, placed_behind, typed_by, typed};

/// The rows of members, with the names of their groups put in front, are the members with whole paths that `program_names`
/// speaks of.
pub fn members_have_whole_paths()
    ensures { (root : AnObject) → rows_behind [] (members_with 0 0 root) ≡ rows_of 0 root }
{}

/// The members of the object of a number are those of the rows with that number, in their order.
pub fn objects_have_their_members()
    ensures { (root : AnObject) (o : ℕ) →
        members_at (objects_of as_root 0 root) o ≡ members_of_object o (rows_of 0 root) }
{}

/// The rows of objects, with all members' rows, say the type of each object and what it is written as.
pub fn objects_have_their_types_and_roles()
    ensures { (root : AnObject) →
        map (typed_by (placed_behind [] (members_with 0 0 root))) (objects_with None 0 root) ≡
        map typed (objects_of as_root 0 root) }
{}
