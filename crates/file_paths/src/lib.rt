//! Paths of files and of imports, as bytes: the directory of a file, a path as it is found from a directory, and the paths
//! that the names and texts of a document spell. Each call promises exactly what the definitions of paths, of UTF-8 and of
//! import texts in `program_names` say; want of memory is the one other answer. Nothing here asks whether a file is there.
#![tactic(auto)]

mod names;
mod paths;
mod segments;
#[cfg(test)]
mod tests;

pub use names::{ascii_name, is_script_text, path_of_text, path_of_type};
pub use paths::{directory_of, joined_to};
