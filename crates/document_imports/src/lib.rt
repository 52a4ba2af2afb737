//! The imports of a document as rows, from its tree: the module, the directory or the script file that each names, and its
//! qualifier. It promises that they are those of the document in the order of writing, with paths as `program_names` finds
//! them. Want of memory is the one other answer.
#![tactic(auto)]

mod imports;

pub use imports::{ImportRow, ImportSource, imports_of};
