//! The members of a document object by object. Its rows stand in the order of writing, those of an object between those
//! of the objects in it; it promises for each object the numbers of its own rows, in that order.
#![tactic(auto)]

mod listing;

pub use listing::rows_by_object;
