//! Laws of reading.

ghost use Rattle.std.specs.Prelude.{ℕ, List};
ghost use Rattle.program_names.specs.Reading.{File as AFile, ReadFile, OneEnd, SameEnd};

/// Reading comes to one end alone: where two bounds on the number of files suffice, both give the same.
pub fn reading_ends_one_way()
    ensures { (read : AFile → ReadFile) (n m : ℕ) (done queue : List AFile) → OneEnd read n m done queue }
{}

/// Reading goes by what is told of the files that are read on the way, and by no other file.
pub fn reading_asks_for_no_other_file()
    ensures { (read other : AFile → ReadFile) (n : ℕ) (done queue : List AFile) → SameEnd read other n done queue }
{}
