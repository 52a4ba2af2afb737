//! The bodies of a document by their numbers. It promises the rows of each object with the numbers that their bodies
//! have in the document's unit, object by object, and the rows that have a body, in the order of the numbers.
#![tactic(auto)]

mod laws;
mod numbering;

pub use laws::numbers_are_those_of_the_program;
pub use numbering::{NumberedRow, NumberedRows, has_body, numbered_rows};
