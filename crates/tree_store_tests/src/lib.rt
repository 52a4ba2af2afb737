//! Tests of the store of cells, where there is memory: what is held, how a settling ended, and what a removal notes.
#![tactic(auto)]

#[cfg(test)]
mod calls;
#[cfg(test)]
mod holding;
#[cfg(test)]
mod scrubbing;
