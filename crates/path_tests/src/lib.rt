//! Tests of where paths end.
#![tactic(auto)]

#[cfg(test)]
mod tests;
