//! Tests of settling at its limits: 50,000 bindings in a circle, and in a row against the order of places.
#![tactic(auto)]

#[cfg(test)]
mod rows;
