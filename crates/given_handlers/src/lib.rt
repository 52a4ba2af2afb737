//! The handlers that a value under a path, or a function, is for an object. It promises that they are those of the definition of a unit,
//! where the path is the whole path of the value.
#![tactic(auto)]

mod handlers;
mod laws;
mod names;

pub use handlers::{handlers_given, handlers_of_function};
pub use laws::{functions_are_those_of_the_program, handlers_are_those_of_the_program};
