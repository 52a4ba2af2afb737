//! Searches for load faults. Each goes over rows once and keeps the first fault that it meets. It promises that this is the
//! first of all faults that the definition of the cause gives for these rows, and of those that were told before.
#![tactic(auto)]

mod best;
mod laws;
mod repeated;
#[cfg(test)]
mod tests;
mod values;

pub use best::Best;
pub use laws::{
    declared_names_as_rows, ids_as_rows, roles_as_rows, second_ids_as_rows, values_as_rows,
};
pub use repeated::{NameRow, tell_repeated};
pub use values::{ValueRow, tell_values};
