//! The machine's making: the objects of an instance are added to the tree, with their cells, types and names. Exactly what
//! `machine_model` does (`with_instance` of its `specs/Making.antt`).
#![tactic(auto)]

mod adding;
mod laws;

pub use adding::{add_instance, add_objects};
pub use laws::adding_is_the_machines;
