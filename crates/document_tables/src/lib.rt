//! The tables of a program whose files were read: of each document its objects' names and types and its members with their
//! kinds, made once, in reading order. It promises that they say what the program's documents say, and that the names tables
//! stand for the program.
#![tactic(auto)]

mod document;
mod groups;
mod kinds;
mod program;
mod rows;
mod types;

pub use document::{UnitTable, document_table, empty_table, file_table};
pub use groups::in_group;
pub use program::{DocumentTable, ProgramTables, table_at, tables_of_program};
