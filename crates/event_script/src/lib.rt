//! Event scripts: what each line of a script asks for, exactly, or the first line that asks for nothing. What a line is
//! and what it may say is defined in `specs/Lines.antt` and `specs/Script.antt`. Want of memory is the only free answer.
#![tactic(auto)]

mod bodies;
mod kinds;
mod lines;
mod numbers;
mod paths;
mod script;
#[cfg(test)]
mod tests;
mod words;

pub use script::{Line, LineKind, ScriptFault, read_script};
