//! The functions of a program that come to an effect. It promises that what `load_faults/specs/Effects.antt` computes for them is the
//! least set of functions that have an effect of their own or call one of it.
#![tactic(auto)]

mod laws;

pub use laws::impure_functions_are_the_least;
