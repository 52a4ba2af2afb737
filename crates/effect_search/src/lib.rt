//! A search for the functions that come to an effect, along reversed calls. It promises that those are told that have
//! an effect of their
//! own or come to call one of it, and no others; by `impure_functions` these are the impure functions of a program.
#![tactic(auto)]

mod laws;
mod order;
mod search;
#[cfg(test)]
mod tests;

pub use laws::marked_functions_are_impure;
pub use search::{Call, functions_with_effect};
