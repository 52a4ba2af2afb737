//! The names of handlers that objects have: for the signals that an object declares, that the documents of its types declare, and
//! that its built-in type has. It promises that a name is found exactly where it is a handler's in `program_names`.
#![tactic(auto)]

mod built_in;
mod declared;
mod laws;
mod naming;
mod walking;

pub use declared::{UnitHandlers, unit_handlers};
pub use laws::{handlers_are_those_of_the_program, handlers_of_rows_are_told};
pub use walking::is_handler;
