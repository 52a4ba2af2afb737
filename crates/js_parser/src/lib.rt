//! Reading expressions, statements and bodies. The machine that reads a token at a time, its definitions and laws stand in
//! `js_machine`; here its states are moved, over nodes in a table and frames on a stack, so that nothing recurses. The
//! three entries answer exactly by the grammar: the tree of the longest front that some tree goes on with, or why there is
//! none. The steps that they go by stand in `step` and `finish`, for whoever reads statements
//! within something else.
#![tactic(auto)]

mod begin;
mod behind;
mod close;
mod closing;
mod did;
pub mod finish;
mod header;
mod line_end;
mod names;
mod need;
mod parse;
mod read;
pub mod step;

pub use js_machine::ParseFault;
pub use parse::{parse_body, parse_expr, parse_statement};
