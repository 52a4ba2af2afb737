//! The load faults of documents that are told so far: DuplicateId, the names that are used twice, BadAlias, UnknownProperty and
//! ReadOnly. They are searched over
//! the tables of a program and what its paths are followed by, document after document. It promises that the first of them is told.
#![tactic(auto)]

mod document;
mod files;
mod given;
mod order;

pub use document::tell_document;
pub use files::{Found, first_of_files};
pub use order::first_of_program;
