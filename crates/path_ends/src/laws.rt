//! What the ends are in the words of a program.

ghost use Rattle.std.specs.Prelude.{◌≡◌, ◌<◌, ◌≤◌, ℕ, true, Some, List, length, slice_get};
ghost use Rattle.std.specs.List.{sum_by};
ghost use Rattle.program_names.specs.Written.{OwnedMember};
ghost use Rattle.program_names.specs.Loaded.{Program, unit_at};
ghost use Rattle.program_names.specs.Components.{Roots};
ghost use Rattle.program_names.specs.PathMeanings.{SeenObject, at_object, aliases_of_unit, end_of, end_of_alias};
ghost use Rattle.program_tables.specs.declared.names.UnitNames as n;
ghost use Rattle.program_tables.specs.Stands.{is_there};
ghost use Rattle.path_ends.specs.declared.aliases.Alias as a;
ghost use Rattle.path_ends.specs.declared.aliases.UnitAliases as u;
ghost use Rattle.path_ends.specs.declared.aliases.UnitIds as i;
ghost use Rattle.path_ends.specs.declared.aliases.UnitEnds as e;
ghost use Rattle.path_ends.specs.Said.{alias_in, target_of, count_of, known_end};
ghost use Rattle.path_ends.specs.Ends.{walked};
ghost use Rattle.path_ends.specs.Known.{KnowsAll, Tells, AliasesTold, IdsTold, SaysUnit, SaysIds};

/// Names and aliases that are made from the same rows of all documents tell each alias that an object declares.
pub fn aliases_of_rows_are_told()
    ensures { (p : Program) (names : List n.UnitNames) (aliases : List u.UnitAliases) →
        ((d : ℕ) (unit : n.UnitNames) → slice_get names d ≡ Some unit → SaysUnit p aliases d unit) →
        AliasesTold p names aliases }
{}

/// Of such aliases there are as many at most as the objects of the program declare.
pub fn aliases_of_rows_are_few()
    ensures { (p : Program) (names : List n.UnitNames) (aliases : List u.UnitAliases) →
        length names ≡ length p → length aliases ≡ length p →
        ((d : ℕ) (unit : n.UnitNames) → slice_get names d ≡ Some unit → SaysUnit p aliases d unit) →
        ((d k : ℕ) (w : OwnedMember) → slice_get (unit_at p d).rows k ≡ Some w → w.object < length (unit_at p d).objects) →
        count_of aliases ≤ sum_by aliases_of_unit p }
{}

/// Ids that are made from the rows of all documents and from the roots of their objects are those of the program.
pub fn ids_of_rows_are_told()
    ensures { (p : Program) (roots : Roots) (names : List n.UnitNames) (ids : List i.UnitIds) →
        ((d : ℕ) (unit : n.UnitNames) → slice_get names d ≡ Some unit → SaysIds p roots names ids d unit) →
        IdsTold p roots names ids }
{}

/// Where the tables are those of a program, and what is known of the ends of aliases is right, a path from an object that is
/// there ends where the program's path ends.
pub fn paths_end_as_in_the_program()
    ensures { (p : Program) (roots : Roots) (names : List n.UnitNames) (ids : List i.UnitIds) (aliases : List u.UnitAliases)
        (known : List e.UnitEnds) → Tells p roots names ids aliases → KnowsAll names ids aliases known →
        (s : SeenObject) (path : List (List ℕ)) → is_there names s.document s.object ≡ true →
        walked names known (at_object s) path ≡ end_of p roots s path }
{}

/// Likewise what is known of an alias is the end of its target in the program.
pub fn aliases_end_as_in_the_program()
    ensures { (p : Program) (roots : Roots) (names : List n.UnitNames) (ids : List i.UnitIds) (aliases : List u.UnitAliases)
        (known : List e.UnitEnds) → Tells p roots names ids aliases → KnowsAll names ids aliases known →
        (d row : ℕ) (x : a.Alias) → is_there names d x.object ≡ true → alias_in aliases d row ≡ Some x →
        known_end known d row ≡ end_of_alias p roots d x.object (target_of x) }
{}
