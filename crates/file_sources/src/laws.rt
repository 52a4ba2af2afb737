//! What holds of sources.

ghost use Rattle.std.specs.Prelude.{◌≡◌, ℕ, Bool, List, Option};
ghost use Rattle.program_names.specs.Reading.{Source};
ghost use Rattle.file_sources.specs.Sources.{IsSource};

use qml_lexer::{none_reads_what_is_refused, one_list_reads, refused_in_one_way};

/// A file of given bytes is one source, as a document and as a script.
pub fn one_source()
    ensures { (as_script : Bool) (bytes : Option (List ℕ)) (source other : Source) →
        IsSource as_script bytes source → IsSource as_script bytes other → source ≡ other }
{
    one_list_reads();
    none_reads_what_is_refused();
    refused_in_one_way();
}
