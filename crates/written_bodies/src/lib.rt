//! The bodies that are written in a document, as rows: each by its place in the document's tree, a handler's with the parameters of
//! the signals that it is for. It promises that they are those of the definition of a unit, in the order of their numbers.
#![tactic(auto)]

mod bodies;
mod laws;
mod parameters;

pub use bodies::written_bodies;
pub use laws::bodies_are_those_of_the_program;
