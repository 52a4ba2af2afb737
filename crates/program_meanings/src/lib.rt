//! What the meaning of paths is looked up by, for all documents of a program: the handlers of its objects, and the targets of its
//! PropertyChanges. It promises that what is given under a path is then what it is in the program.
#![tactic(auto)]

mod handlers;
mod laws;
mod made;
mod targets;

pub use laws::meanings_tell_the_program;
pub use made::{ProgramMeanings, program_meanings};
pub use targets::owners_of;
