//! Documents that use themselves as types, through others too. It promises that what is told is the first use of the first document
//! by which that document uses itself. Where the documents can be ranked so that each stands above those that it uses, there is
//! none; a ranking is tried first, and tested, so that documents without a cycle take time by the number of their uses.
#![tactic(auto)]

mod cycles;
mod laws;
mod ranks;
mod reaching;
#[cfg(test)]
mod tests;
mod uses;

pub use cycles::{first_cycle, unit_cycle};
pub use laws::cycles_are_those_of_the_program;
pub use uses::DocumentUse;
