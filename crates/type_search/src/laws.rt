//! What the search comes to.

ghost use Rattle.std.specs.Prelude.{◌≡◌, List, Option, map};
ghost use Rattle.qml_syntax.specs.Tree.{Units, Import};
ghost use Rattle.program_names.specs.Paths.{Path};
ghost use Rattle.program_names.specs.Types.{found_type};
ghost use Rattle.document_imports.specs.Imports.{row_of};
ghost use Rattle.type_search.specs.Search.{Exists, searched};

/// Over the rows of a document's imports the search finds what a type's name finds in the document.
#[tactic(auto, using(crate::proofs::SearchLemmas::search_finds))]
pub fn search_finds_types()
    ensures { (exists : Exists) (here : Path) (imports : List Import) (wanted : Option Units) (name : Units) →
        searched exists here (map (row_of here) imports) wanted name ≡ found_type exists here imports wanted name }
{}
