//! The scripts that a document imports, by their qualifiers, and the functions of a script by their names (Qt 5.15, "Importing JavaScript Resources in
//! QML"). It promises that both are what the definitions of names in code find.
#![tactic(auto)]

mod laws;
mod scripts;

pub use laws::scripts_are_those_of_the_program;
pub use scripts::script_names;
