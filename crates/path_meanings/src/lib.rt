//! What is given under a path of names: a property, an object, a handler, the children of an Item, or nothing. It promises that this is
//! what the path means in `program_names`, without the ways to objects.
#![tactic(auto)]

mod following;
mod laws;
mod meanings;
mod reached;

pub use following::{follow, follow_all};
pub use laws::{names_lead_as_in_the_program, paths_mean_as_in_the_program};
pub use meanings::{PathMeaning, meaning_along};
pub use reached::Reached;
