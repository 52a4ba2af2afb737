//! The components of a document in tables. It promises, of each object, the root of the component in which it stands, and of
//! each component its ids with their objects, as `program_names/specs/Components.antt` says.
#![tactic(auto)]

mod components;
mod ids;
mod laws;
#[cfg(test)]
mod tests;

pub use components::{component_roots, root_at};
pub use ids::{component_ids, object_of_id};
pub use laws::{ids_are_those_of_the_program, roots_are_those_of_the_program};
