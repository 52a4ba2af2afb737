//! The first tokens of a document's values and objects. It promises that these are the places of `load_faults`.
#![tactic(auto)]

mod laws;
mod places;

pub use laws::places_are_those_of_the_program;
pub use places::{object_place, value_place};
