//! What is made of an object as written, by the tables of the units. `plan_numbers` gives the objects in document order with their
//! numbers and owners, and the instances of components: exactly `planned_from` of `instance_plans`' definitions. Units are seen as the
//! rows of these definitions by `all_seen` (`specs/Seen.antt`), bodies with them, so what is said of `all_seen` units is said of the
//! machine whose rows they are.
#![tactic(auto)]

mod numbers;
mod placed;
mod tables;

pub use numbers::{Numbers, NumbersFault, plan_numbers};
pub use tables::{component, is_held, object, owner_at, standing, type_at};
