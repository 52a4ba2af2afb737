//! Reading a program: its root and all documents and scripts that it mentions, over files. What a file is is kept, so that each
//! is read once, a missing one included. It promises that reading ends as `program_names` says, for all sources that have the
//! files that were read as what they are; the sources of the files that are handed in always have.
#![tactic(auto)]

mod known;
mod names;
mod reading;
#[cfg(test)]
mod tests;

pub use known::KnownFiles;
pub use reading::read_program;
