//! The objects that the objects of a document name as their targets, in tables. It promises that these are the targets of
//! `program_names`: of each object the one that the first value for `target` names by an id that it sees.
#![tactic(auto)]

mod firsts;
mod laws;
mod names;
mod targets;

pub use firsts::{GivenValue, first_targets};
pub use laws::targets_of_rows_are_told;
pub use targets::unit_targets;
