//! Tests of settling, where there is memory: what small trees hold and what is told of them.
#![tactic(auto)]

#[cfg(test)]
mod limit;
#[cfg(test)]
mod values;
