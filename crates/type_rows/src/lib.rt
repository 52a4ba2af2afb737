//! The names of built-in types as rows, as those that a document declares: each with what it finds. Exactly the rows of the
//! definitions (`rows_of_type` of `unit_rows`).
#![tactic(auto)]

mod rows;
mod table;

pub use rows::rows_of;
pub use table::TypeRows;
