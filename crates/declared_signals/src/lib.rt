//! The signals that the objects of a document declare, under the names of their handlers: the changes of properties, and
//! others. It promises that they are those of the document's rows, in the order of writing, each with its number.
#![tactic(auto)]

mod declaring;
mod laws;
mod naming;

pub use declaring::{DeclaredSignal, ObjectSignals, UnitSignals, unit_signals};
pub use laws::signals_are_those_of_the_program;
