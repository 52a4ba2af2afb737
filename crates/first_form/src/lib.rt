//! Reads the documents and scripts of one object of whole numbers. A document is a list of members, each with a name
//! and a content, and a script a list of lines, each with what it asks for. What is read is told by `program_of`
//! (specs/Document) and `script_of` (specs/Script).
#![tactic(auto)]

mod blanks;
mod document;
mod laws;
mod members;
mod names;
mod numbers;
mod pieces;
mod script;
#[cfg(test)]
mod tests;
mod values;

pub use document::{LARGEST, read_document};
pub use laws::{
    documents_are_read_as_spelled, first_bad_line_is_told, numbers_are_decimal_digits,
    scripts_are_read_as_spelled,
};
pub use members::{Member, Program};
pub use names::RESERVED;
pub use script::read_script;
