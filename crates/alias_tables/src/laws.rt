//! What the roots and the ids are.

ghost use Rattle.std.specs.Prelude.{◌≡◌, ◌<◌, ℕ, Bool as B, Option as O, Some, List, [], length, map, slice_get};
ghost use Rattle.qml_syntax.specs.Nodes.{Table};
ghost use Rattle.program_names.specs.Written.{WrittenObject, WrittenAs};
ghost use Rattle.program_names.specs.Loaded.{Program, unit_at};
ghost use Rattle.program_names.specs.Components.{Roots, owner, root_of, id_in};
ghost use Rattle.program_tables.specs.declared.building.UnitRow as r;
ghost use Rattle.program_tables.specs.RowsSay.{RowsSay};
ghost use Rattle.alias_tables.specs.Roots.{begins_at, begins, roots_after};
ghost use Rattle.alias_tables.specs.Ids.{KnowsRoots, no_ids, ids_added, id_found};

/// Where the owners are those of a document's objects, each with a lower number, and the objects that begin components are
/// those that are known to, the roots are those of the program.
pub fn roots_are_those_of_the_program()
    ensures { (p : Program) (roots : Roots) (d : ℕ) (owners : List (O ℕ)) (known : List B) →
        length owners ≡ length (unit_at p d).objects →
        ((o : ℕ) (w : O ℕ) → slice_get owners o ≡ Some w → w ≡ owner p d o) →
        ((o w : ℕ) → owner p d o ≡ Some w → w < o) →
        ((o : ℕ) → begins_at known o ≡ begins roots d o) →
        (o : ℕ) → o < length owners → slice_get (roots_after known [] 0 owners) o ≡ Some (root_of p roots d o) }
{}

/// Where the rows say the members of a document, and the roots are those of its objects, the object of an id of a component
/// is the program's.
pub fn ids_are_those_of_the_program()
    ensures { (p : Program) (roots : Roots) (d : ℕ) (t : Table) (rows : List r.UnitRow) (numbers : List ℕ) →
        RowsSay p d t [] rows (unit_at p d).rows → KnowsRoots p roots d numbers →
        (component : ℕ) → component < length numbers → (name : List ℕ) →
        id_found (ids_added numbers [] rows (map no_ids numbers)) component name ≡ id_in p roots d component name }
{}
