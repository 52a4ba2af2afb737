//! Files that a search asks for.

ghost use Rattle.std.specs.Prelude.{◌≡◌, IfOk, Option};
ghost use Rattle.qml_outside.specs.Folder.{Folder};
ghost use Rattle.program_names.specs.Reading.{Sources};
ghost use Rattle.type_search.specs.Causes.{Causes, Keeps};
ghost use Rattle.type_search.specs.Search.{Knows, is_file as is_file_of};

use qml_outside::Files;
use std::alloc::Global;

/// Why a search has no answer.
#[derive(Debug, Drop)]
pub enum SearchFault {
    /// The file of this path could not be read.
    Failed(Vec<u8>),
    /// There was no memory.
    NoMemory,
}

/// Tells which documents are there, by files that are handed in and by what it was told of them before.
pub trait FileSearch {
    /// Which sources it allows, by what it has told.
    ghost allows: { Self → Sources → Type 0 };

    /// Which sources are those of files that tell this. What is told never forbids these.
    ghost are_of: { Option Folder → Sources → Type 0 };

    /// Whether there is a document of this path. Failed comes only where the files' count of faults rose in this call; want of
    /// memory is free.
    fn is_file<F: Files>(
        &mut self,
        alloc: Global,
        files: &mut F,
        path: &[u8],
    ) -> Result<bool, SearchFault>
        ensures told { IfOk result (λ found. (sources : Sources) → allows self.new sources → found ≡ is_file_of sources path.now) }
        ensures steady { Knows (allows self.old) (allows self.new) }
        ensures real { Keeps (allows self.old) (allows self.new) are_of (F.told files.old) (F.told files.new) }
        ensures cause { Causes (F.faults files.old) (F.faults files.new) (F.failed files.old) (F.failed files.new) result };
}
