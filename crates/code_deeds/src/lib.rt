//! What is done in expressions and statements, by the nodes of a tree: effects, calls, and a `Qt.binding` where it
//! can't stand. It
//! promises that these are the deeds of `load_faults/specs/Code.antt`, once it is known what the names find; nothing
//! recurses, however
//! deep the code is.
#![tactic(auto)]

mod around;
mod doing;
mod form;
mod laws;
mod own;
mod scopes;
mod tasks;
mod walk;

pub use around::Start;
pub use doing::Doing;
pub use laws::deeds_are_those_told;
pub use walk::{function_doings, statement_doings};
