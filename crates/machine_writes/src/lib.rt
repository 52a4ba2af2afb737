//! Writes of the machine: contents are put, all cells settle, and the settling is told; the deliveries of its changes are left to
//! the caller. Exactly what `write` of `machine_model`'s definitions does.
#![tactic(auto)]

mod writing;

pub use writing::{settle_and_tell, settle_and_tell_older, write};
