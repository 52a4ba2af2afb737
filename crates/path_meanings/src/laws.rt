//! What is given under a path, in the words of a program.

ghost use Rattle.std.specs.Prelude.{◌≡◌, ℕ, true, List, ◌∷◌, ◌++◌};
ghost use Rattle.program_names.specs.Loaded.{Program};
ghost use Rattle.program_names.specs.Components.{Roots};
ghost use Rattle.program_names.specs.PathMeanings.{SeenObject, end_of, meaning_of_path};
ghost use Rattle.program_tables.specs.declared.names.UnitNames as n;
ghost use Rattle.program_tables.specs.Stands.{is_there};
ghost use Rattle.path_ends.specs.declared.aliases.UnitAliases as u;
ghost use Rattle.path_ends.specs.declared.aliases.UnitIds as i;
ghost use Rattle.path_ends.specs.declared.aliases.UnitEnds as e;
ghost use Rattle.path_ends.specs.Known.{KnowsAll, Tells};
ghost use Rattle.handler_names.specs.declared.declared.UnitHandlers as h;
ghost use Rattle.handler_names.specs.Told.{HandlersTold};
ghost use Rattle.path_meanings.specs.declared.reached.Reached.TheVariants as r;
ghost use Rattle.path_meanings.specs.Reached.{reached, along};
ghost use Rattle.path_meanings.specs.Meanings.{meant_along};
ghost use Rattle.path_meanings.specs.Bare.{bare, is_short};

/// Where the tables are those of a program, and what is known of the ends of aliases is right, names lead from an object that is there to
/// where they lead in the program.
pub fn names_lead_as_in_the_program()
    ensures { (p : Program) (roots : Roots) (names : List n.UnitNames) (ids : List i.UnitIds) (aliases : List u.UnitAliases)
        (known : List e.UnitEnds) → Tells p roots names ids aliases → KnowsAll names ids aliases known →
        (s : SeenObject) (path : List (List ℕ)) → is_there names s.document s.object ≡ true →
        along names known (r.Object s.document s.object) path ≡ reached (end_of p roots s path) }
{}

/// And what is given under a path, behind the names of which some were followed, is what the whole path means in the program.
pub fn paths_mean_as_in_the_program()
    ensures { (p : Program) (roots : Roots) (names : List n.UnitNames) (ids : List i.UnitIds) (aliases : List u.UnitAliases)
        (known : List e.UnitEnds) (handlers : List h.UnitHandlers) → Tells p roots names ids aliases →
        KnowsAll names ids aliases known → HandlersTold p names handlers →
        (s : SeenObject) (before : List (List ℕ)) (first : List ℕ) (rest : List (List ℕ)) →
        is_there names s.document s.object ≡ true →
        meant_along names handlers known (is_short (before ++ first ∷ rest))
        (along names known (r.Object s.document s.object) before) first rest ≡
        bare (meaning_of_path p roots s (before ++ first ∷ rest)) }
{}
