//! The load faults of a document that its names alone decide: names that an object declares again, of its type or of its own,
//! second ids of an object, and roles that a row gives twice. They are searched over the tables of a program, and the first of
//! them is kept beside what was told before. It promises that these are the faults of the definitions.
#![tactic(auto)]

mod declared;
mod ids;
mod pass;
mod roles;
mod taken;

pub use pass::{first_of_names, tell_names};
