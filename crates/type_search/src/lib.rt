//! The search of types by their names in a document: the imports from the last to the first, each by its qualifier, then the
//! document's own directory. Whether a file is there is asked of a trait, one path after another, and no further than the
//! first that is found. It promises that what is found is what `program_names` finds, for all sources that agree with what was
//! told.
#![tactic(auto)]

mod files;
mod laws;
mod search;

pub use files::{FileSearch, SearchFault};
pub use laws::search_finds_types;
pub use search::{TypeFound, find_type};
