//! The load fault DuplicateId of a document, over the tables of its program and the roots of its components. It promises that
//! these are the faults of the definition.
#![tactic(auto)]

mod ids;
mod pass;

pub use pass::tell_duplicate_ids;
