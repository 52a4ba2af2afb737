//! Tests of the rules that are built in, where there is memory.
#![tactic(auto)]

#[cfg(test)]
mod built_in;
