//! The components of a document with their ids, from its rows. It promises that these are the program's, as
//! `program_names/specs/Components.antt` says, where each object decides by what it is written as whether it begins one.
#![tactic(auto)]

mod components;
mod laws;

pub use components::document_ids;
pub use laws::components_are_those_of_the_program;
