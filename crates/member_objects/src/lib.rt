//! The objects that are written in members, row after row or object after object. It promises that the first fault that is told of
//! them is the same.
#![tactic(auto)]

mod laws;

pub use laws::objects_by_rows_or_by_objects;
