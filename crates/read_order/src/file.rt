//! Files by their paths, and how they are read.

ghost use Rattle.std.specs.Prelude.{◌≡◌, IfOk, Option};
ghost use Rattle.qml_outside.specs.Folder.{Folder};
ghost use Rattle.program_names.specs.Reading.{Sources, read_by};
ghost use Rattle.type_search.specs.Causes.{Causes, Keeps};
ghost use Rattle.type_search.specs.Search.{Knows};
ghost use Rattle.read_order.specs.Order.{file_of, read_of};

use indexmap::IndexSet;
use program_names::Fault;
use qml_base::NoMemory;
use qml_outside::Files;
use std::alloc::Global;
use type_search::SearchFault;

/// A file as a document or as a script, by its path.
#[derive(Debug, Eq, Hash, Drop)]
pub struct File {
    pub is_script: bool,
    pub path: Vec<u8>,
}

impl PartialEq for File {
    ghost use Rattle.std.proofs.Common.{rules};
    ghost use Rattle.std.specs.Cmp.Rules.{comparing};
    ghost use Rattle.program_names.specs.Reading.{same_file};
    ghost use Rattle.read_order.specs.Order.{file_of};

    ghost eq = { λ a b. same_file (file_of a) (file_of b) };

    ghost laws = { Prim.search (comparing, rules) };

    fn eq(&self, other: &File) -> bool {
        self.is_script == other.is_script && self.path == other.path
    }
}

impl File {
    /// The same file.
    pub fn copy(&self, alloc: Global) -> Result<File, NoMemory>
        ensures { IfOk result (λ file. file_of file ≡ file_of self.now) }
    {
        match Vec::from_slice(alloc, &self.path) {
            Ok(path) => Ok(File {
                is_script: self.is_script,
                path,
            }),
            Err(_) => Err(NoMemory),
        }
    }
}

/// How a file is read.
#[derive(Debug, Drop)]
pub enum FileRead {
    /// It is refused, with its first fault.
    Refused(Fault),
    /// It mentions these files, in the order of writing.
    Mentioning(Vec<File>),
}

/// Tells how files are read, by files that are handed in and by what it was told of them before.
pub trait Reader {
    /// Which sources it allows, by what it has told.
    ghost allows: { Self → Sources → Type 0 };

    /// Which sources are those of files that tell this. What is told never forbids these.
    ghost are_of: { Option Folder → Sources → Type 0 };

    /// Reads a file. What was told of any file stays so. Failed comes only where the files' count of faults rose in this call;
    /// want of memory is free.
    fn read_file<F: Files>(
        &mut self,
        alloc: Global,
        files: &mut F,
        file: &File,
    ) -> Result<FileRead, SearchFault>
        ensures told { IfOk result (λ how. (sources : Sources) → allows self.new sources → read_of how ≡ read_by sources (file_of file.now)) }
        ensures steady { Knows (allows self.old) (allows self.new) }
        ensures real { Keeps (allows self.old) (allows self.new) are_of (F.told files.old) (F.told files.new) }
        ensures cause { Causes (F.faults files.old) (F.faults files.new) (F.failed files.old) (F.failed files.new) result };
}

/// How reading ended: with all files in the order in which they were read, or with the first that is refused, and its fault.
#[derive(Drop)]
pub enum Ended {
    All(IndexSet<File>),
    Refused(File, Fault),
}
