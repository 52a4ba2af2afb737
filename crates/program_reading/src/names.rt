//! Whether documents are there, for the search of types.

ghost use Rattle.std.specs.Prelude.{◌≡◌};
ghost use Rattle.file_sources.specs.declared.content.Content.TheVariants as is_content;
ghost use Rattle.program_reading.specs.There.{is_there};

use crate::known::KnownFiles;
use file_sources::Content;
use qml_outside::Files;
use read_order::File;
use std::alloc::Global;
use type_search::{FileSearch, SearchFault};

/// Whether a file is there.
fn is_there(content: &Content) -> bool
    ensures { result ≡ is_there content.now }
{
    match content {
        Content::Missing => false,
        Content::TooLarge => true,
        Content::Unread { at: _, cause: _ } => true,
        Content::Document(_) => true,
        Content::Script(_) => true,
    }
}

impl FileSearch for KnownFiles {
    ghost use Rattle.program_reading.specs.Known.{Holds, AreOf};

    ghost allows = { Holds };

    ghost are_of = { AreOf };

    fn is_file<F: Files>(
        &mut self,
        alloc: Global,
        files: &mut F,
        path: &[u8],
    ) -> Result<bool, SearchFault> {
        let Ok(path) = Vec::from_slice(alloc, path) else {
            return Err(SearchFault::NoMemory);
        };
        let file = File {
            is_script: false,
            path,
        };
        match self.content(alloc, files, file) {
            Ok(content) => Ok(is_there(&content)),
            Err(fault) => Err(fault),
        }
    }
}
