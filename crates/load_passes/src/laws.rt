//! What the rows stand for.

ghost use Rattle.std.specs.Prelude.{◌≡◌, ℕ, []};
ghost use Rattle.qml_base.specs.declared.load_cause.LoadCause.TheVariants as cause;
ghost use Rattle.program_names.specs.Loaded.{Program};
ghost use Rattle.program_names.specs.Components.{Roots};
ghost use Rattle.load_faults.specs.Duplicates.{duplicate_ids, declared_twice, second_ids, roles_twice};
ghost use Rattle.load_passes.specs.Rows.{repeated, declared_rows, second_id_rows, role_rows, id_faults, value_faults, value_rows, faults_by_cause};

/// An id is used twice in a component exactly where its row, with the root of its component as owner, stands a second
/// time.
pub fn ids_as_rows()
    ensures { (p : Program) (roots : Roots) (d : ℕ) → id_faults p roots d ≡ duplicate_ids p roots d }
{}

/// The faults of the rows of a document's values are those of its values for readonly properties and of those that aren't
/// the literals that are asked for.
pub fn values_as_rows()
    ensures { (p : Program) (roots : Roots) (d : ℕ) → value_faults (value_rows p roots d) ≡ faults_by_cause p roots d }
{}

/// An object has a second id exactly where its row stands a second time.
pub fn second_ids_as_rows()
    ensures { (p : Program) (d : ℕ) → repeated cause.DuplicateName [] (second_id_rows p d) ≡ second_ids p d }
{}

/// A role of a row is given twice exactly where its row stands a second time.
pub fn roles_as_rows()
    ensures { (p : Program) (d : ℕ) → repeated cause.DuplicateName [] (role_rows p d) ≡ roles_twice p d }
{}

/// An object declares a name again, of its type or of its own, exactly where its row is taken or stands a second time.
pub fn declared_names_as_rows()
    ensures { (p : Program) (d : ℕ) → repeated cause.DuplicateName [] (declared_rows p d) ≡ declared_twice p d }
{}
