//! What a value or a group is given for: a role of a row, one of the two attached handlers, a handler for the target of a Connections, or
//! what its path means, to the object itself or to the target of a PropertyChanges. It promises that this is what it is given for in
//! `load_faults`, without the ways to objects.
#![tactic(auto)]

mod given;
mod laws;
mod purposes;
mod tables;
mod words;

pub use given::meaning_given;
pub use laws::{meanings_are_those_of_the_program, purposes_are_those_of_the_program};
pub use purposes::{ValuePurpose, purpose_of};
pub use tables::PathTables;
