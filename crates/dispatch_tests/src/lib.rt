//! Tests of the deliveries of a signal, in a crate of their own, so that the code is proved once.
#![tactic(auto)]

#[cfg(test)]
mod listing;
