//! The types that names find in the documents of a program whose files were read: a built-in type, or a document by its number.
//! No file is asked for. It promises that what is found is what `program_names` finds in the program.
#![tactic(auto)]

mod files;
mod laws;
mod named;
#[cfg(test)]
mod tests;
mod uses;

pub use files::ProgramFiles;
pub use laws::{types_are_found_as_in_the_program, uses_are_those_of_the_program};
pub use named::type_named;
pub use uses::document_uses;
