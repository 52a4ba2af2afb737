//! The first two passes of loading: all files of a program are read, and no document uses itself as a type. It promises that what is
//! told is what the definitions give, for all sources that have the files that were read as what they are.
#![tactic(auto)]

mod cycles;
mod passes;
#[cfg(test)]
mod tests;
mod uses;

pub use passes::{Passed, two_passes};
