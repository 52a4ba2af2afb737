//! What reading names comes to.

ghost use Rattle.std.specs.Prelude.{◌≡◌, false, List, map};
ghost use Rattle.qml_syntax.specs.Tree.{Import, Object as AnObject, document};
ghost use Rattle.program_names.specs.Paths.{directory_of};
ghost use Rattle.program_names.specs.Types.{type_uses};
ghost use Rattle.program_names.specs.Reading.{File as AFile, Sources, is_document, read_by};
ghost use Rattle.document_imports.specs.Imports.{row_of};
ghost use Rattle.name_reading.specs.NamesRead.{names_read};
ghost use Rattle.document_counts.specs.Counts.{has_too_many};
ghost use Rattle.type_search.specs.Search.{is_file};

/// A document that hasn't too many objects or bindings is read as its names are, by the files that the sources have.
#[tactic(auto, using(crate::proofs::ReadLemmas::read_by_names))]
pub fn names_are_read()
    ensures { (sources : Sources) (file : AFile) (imports : List Import) (root : AnObject) →
        sources file ≡ is_document (document imports root) → has_too_many root ≡ false →
        read_by sources file ≡ names_read (is_file sources) (directory_of file.path) (map (row_of (directory_of file.path)) imports) (type_uses root) }
{}
