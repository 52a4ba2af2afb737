//! Reading the names of a document: its imports and the types that it uses. It promises that the answer is that of
//! `program_names`: refused at the first import of a module that isn't there, or else at the first use of a type that is
//! nowhere, or else the files that are mentioned, in the order of writing; for all sources that agree with what was told.
#![tactic(auto)]

mod document;
mod laws;
mod modules;
mod uses;

pub use document::read_names;
pub use laws::names_are_read;
