//! What each member of a document is given for: its values, groups and child objects. It promises that this is what they are given for
//! in `load_faults` and `program_names`, without the ways to objects.
#![tactic(auto)]

mod children;
mod document;
mod paths;
mod rows;

pub use document::given_of_document;
