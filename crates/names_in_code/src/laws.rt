//! What is found, in the words of a program.

ghost use Rattle.std.specs.Prelude.{◌≡◌, ℕ, true, List, Some, slice_get};
ghost use Rattle.std.specs.Option.{option_map};
ghost use Rattle.std.specs.Prelude.{Option as O};
ghost use Rattle.program_names.specs.Reading.{File, Sources};
ghost use Rattle.program_names.specs.Loaded.{Program, program_of};
ghost use Rattle.program_names.specs.Components.{Roots, root_of};
ghost use Rattle.load_faults.specs.NamesInCode.{found_outwards, member_found};
ghost use Rattle.document_rows.specs.declared.rows.ObjectRow as o;
ghost use Rattle.program_tables.specs.declared.names.UnitNames as n;
ghost use Rattle.program_tables.specs.declared.building.UnitRow as r;
ghost use Rattle.program_tables.specs.Stands.{Stands, is_there};
ghost use Rattle.path_ends.specs.declared.aliases.UnitAliases as a;
ghost use Rattle.path_ends.specs.declared.aliases.UnitIds as i;
ghost use Rattle.path_ends.specs.Known.{Tells};
ghost use Rattle.names_in_code.specs.declared.found.Found as f;
ghost use Rattle.names_in_code.specs.Outwards.{member_seen, outwards};
ghost use Rattle.names_in_code.specs.Meant.{meant, FunctionsStand, SaysOwners};

/// In the tables of a program a name finds among the members of an object what it finds there in the program.
pub fn members_are_those_of_the_program()
    ensures { (p : Program) (names : List n.UnitNames) → Stands p names → FunctionsStand p → (d o : ℕ) →
        is_there names d o ≡ true → (name : List ℕ) →
        option_map (meant p) (member_seen names d o name) ≡ member_found p d o name }
{}

/// And so it does in the components of a document outwards.
pub fn names_are_those_of_the_program()
    ensures { (p : Program) (roots : Roots) (names : List n.UnitNames) (ids : List i.UnitIds) (aliases : List a.UnitAliases) →
        Tells p roots names ids aliases → FunctionsStand p → (d : ℕ) (own : i.UnitIds) (objects : List o.ObjectRow)
        (rows : List r.UnitRow) → slice_get ids d ≡ Some own → SaysOwners p roots names d own objects rows →
        (most : ℕ) (scope : O f.Found) (o : ℕ) → is_there names d o ≡ true → (name : List ℕ) →
        option_map (meant p) (outwards most names own objects rows d scope o name) ≡
        found_outwards most p roots d (option_map (meant p) scope) (root_of p roots d o) name }
{}

/// In what is read each function stands under its own name.
pub fn functions_stand_under_their_names()
    ensures { (sources : Sources) (files : List File) → FunctionsStand (program_of sources files) }
{}
