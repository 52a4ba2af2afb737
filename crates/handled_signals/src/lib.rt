//! The signals of an object for which the name of a handler stands: of all its layers, from the built-in type up to its own
//! text. It promises that they are those of the definition of a unit, and their parameters those of the program.
#![tactic(auto)]

mod comparing;
mod laws;
mod layers;
mod signals;

pub use laws::{parameters_are_those_of_the_program, signals_are_those_of_the_program};
pub use layers::{Layers, object_layers};
pub use signals::{SignalTables, signals_handled};
