//! What a machine that evaluates has still to do. Each frame means what goes on behind a value, behind a statement, and behind
//! `return`, `break` and `continue` (`specs/Meant.antt`), by the definition of evaluation in `js_meaning`. What each node, frame
//! and step becomes is one relation (`specs/Moves.antt`, at statements `specs/Statements.antt`), and the laws say that each
//! such move keeps what is heard in all. The code that moves so stands in the crates above.
#![tactic(auto)]

mod code;
mod frames;
mod kinds;
pub mod laws;
mod machine;

pub use code::Code;
pub use frames::{Before, Callee, Deed, Frame, Gives, Here, Next, Purpose, Spot, Stack, To};
pub use kinds::Kind;
pub use machine::Machine;
