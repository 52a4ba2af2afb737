//! The signals that the objects of all documents of a program declare, by the names of their handlers. It promises that they are what the
//! signals of an object are looked up by, for the program whose tables these are.
#![tactic(auto)]

mod laws;
mod making;

pub use laws::signals_tell_the_program;
pub use making::program_signals;
