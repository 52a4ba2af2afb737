//! Openings and writes whole, with all that they deliver: an object is made, older objects hear of the changes, and the new ones
//! start and complete. Exactly `make_alone`, `opened` and `write` of `machine_model`'s definitions (`specs/Making.antt`,
//! `Emission.antt`).
#![tactic(auto)]

mod opening;

pub use opening::{make, open, write};
