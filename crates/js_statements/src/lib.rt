//! The moves of evaluation at statements: what is run, what goes on behind a statement, and what `return`, `break` and
//! `continue` leave (ECMA-262, 14). Each function moves the machine as a relation of `js_frames` says, or answers want of memory.
#![tactic(auto)]

mod statements;
mod unwinding;

pub use statements::{declared, is_expression_statement, rested, run_at, taken, writes};
pub use unwinding::{gives, goes_again, goes_on, stops};
