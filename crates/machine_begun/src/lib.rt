//! The machine before the opening: no objects, and of names those of the units that belong to no object. Exactly `begun` of
//! `machine_model`'s definitions.
#![tactic(auto)]

mod begun;

pub use begun::begin;
