//! Which objects begin components. It promises laws over `program_names/specs/ComponentRoots.antt`, where that is settled by
//! rounds from the root of a document inwards.
#![tactic(auto)]

mod deciding;
mod laws;

pub use deciding::decided_roots;
pub use laws::{
    all_are_known, found_is_decided, owners_are_lower, roots_that_are_decided,
    rows_of_a_tree_say_roles,
};
