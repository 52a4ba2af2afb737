//! The names that the objects of a program have, in tables. Of each object it is kept what it declares and of what type it
//! is; what a name means for an object is found by going through its types down to the built-in one, with one look-up by
//! hashing in each. It promises that what is found is what `program_names/specs/Layers.antt` says (`specs/Walk.antt`).
#![tactic(auto)]

mod building;
mod built_in;
mod defaults;
mod laws;
mod names;
#[cfg(test)]
mod tests;
mod types;
mod walking;

pub use building::{UnitRow, is_group, is_inside, unit_names};
pub use built_in::{BuiltInName, BuiltInNames};
pub use laws::{
    defaults_are_as_in_the_program, names_mean_as_in_the_program, rows_of_a_tree_say_its_document,
    tables_of_rows_stand, types_are_as_in_the_program,
};
pub use names::{Declared, DefaultPlace, Meaning, Names, ObjectNames, UnitNames};
