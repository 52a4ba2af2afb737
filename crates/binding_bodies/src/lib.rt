//! The bodies of a unit with the functions of the `Qt.binding`s in them. It promises that they are those of the definition
//! of a unit, where the written bodies are: behind these the functions, each with the place of its call.
#![tactic(auto)]

mod behind;
mod finding;
mod laws;

pub use behind::unit_bodies;
pub use laws::bodies_are_those_of_the_program;
