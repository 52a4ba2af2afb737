//! Tests of condemning and removing objects of a live tree, where there is memory.
#![tactic(auto)]

#[cfg(test)]
mod purging;
