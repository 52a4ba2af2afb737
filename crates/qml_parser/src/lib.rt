//! Reading documents and script files. The machine that reads a token at a time, its definitions and laws stand in
//! `qml_machine`; here its states are moved, over nodes in a table and frames on a stack, so that nothing recurses. The two
//! entries answer exactly by the grammar: the one tree that reads all tokens before the file's end, or why there is none.
#![tactic(auto)]

mod function;
mod import;
mod kind;
mod member;
mod next;
mod parse;
mod path;
mod steps;
mod value;
mod words;

pub use js_machine::ParseFault;
pub use parse::{parse_document, parse_functions};
