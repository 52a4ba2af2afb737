//! Tests of what is made of a document, in a crate of their own, so that the code is proved once.
#![tactic(auto)]

#[cfg(test)]
mod bodies;
#[cfg(test)]
mod making;
#[cfg(test)]
mod numbering;
