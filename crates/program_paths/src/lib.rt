//! Components, ids and the ends of aliases of all documents of a program, from its tables. It promises that paths then end where
//! they end in the program, where each object decides by what it is written as whether it begins a component.
#![tactic(auto)]

mod laws;
mod paths;

pub use laws::{paths_are_those_of_the_program, roots_are_those_of_components};
pub use paths::{ProgramPaths, program_paths};
