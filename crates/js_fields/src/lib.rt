//! The fields of a literal, by its values with the places of their names (`specs/Entries.antt`). Of values under one name the
//! last one counts, at the place of the first.
#![tactic(auto)]

mod building;
mod entries;

pub use building::fields_of;
pub use entries::{Entries, Entry};
