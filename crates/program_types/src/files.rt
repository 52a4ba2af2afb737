//! The files of a program.

ghost use Rattle.std.specs.Prelude.{◌≡◌, length, slice_get};
ghost use Rattle.std.specs.Option.{option_map};
ghost use Rattle.read_order.specs.Order.{file_of, files_of};
ghost use Rattle.program_types.specs.Numbers.{number_in};

use indexmap::IndexSet;
use read_order::File;
use std::marker::Model;

/// The files of a program, each by its number, which counts from 0 in the order in which they were read first. Contracts see them as
/// a list.
#[derive(Drop)]
pub struct ProgramFiles {
    files: IndexSet<File>,
}

impl Model for ProgramFiles {
    ghost use Rattle.std.specs.Prelude.{List};
    ghost use Rattle.program_names.specs.Reading.{File as AFile};
    ghost use Rattle.read_order.specs.Order.{files_of};

    ghost Value = { List AFile };

    ghost view = { λ program. files_of program.files.keys };
}

impl ProgramFiles {
    /// These files in their order.
    pub fn new(files: IndexSet<File>) -> ProgramFiles
        ensures { result ≡ files_of files.keys }
    {
        ProgramFiles { files }
    }

    /// How many files there are.
    pub fn len(&self) -> usize
        ensures { result ≡ length self.now }
    {
        self.files.len()
    }

    /// The number of a file, and None exactly where it isn't there.
    pub fn number(&self, file: &File) -> Option<usize>
        ensures { result ≡ number_in self.now (file_of file.now) }
    {
        self.files.get_index_of(file)
    }

    /// The file of a number, and None exactly where there are no more than so many.
    pub fn file(&self, number: usize) -> Option<&File>
        ensures { option_map (λ f. file_of f.now) result ≡ slice_get self.now number }
    {
        self.files.get_index(number)
    }
}
