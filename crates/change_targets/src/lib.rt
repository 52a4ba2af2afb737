//! The objects for which PropertyChanges give values: what `target` names, in the object's own text or in the documents of its types.
//! It promises that these are the targets of `program_names`, without the ways to them.
#![tactic(auto)]

mod laws;
mod walking;

pub use laws::targets_are_those_of_the_program;
pub use walking::{UnitTargets, target_of};
