//! The machine that reads expressions, statements and bodies a token at a time: what is open while they are read
//! (`Frames`), what each token does (`Machine`), and what reading at the front of some tokens has to answer (`Answer`,
//! `Front`). The laws that the machine gives exactly that answer, by the grammar of `qml_syntax`, and that its states as
//! code keeps them (`Tape`, `Moves`, `Kept`) do as it does, are the contracts of the calls in `laws`. Beside them stand the
//! types of these states, with the calls that tell of single tokens, of frames and of what has been read.
#![tactic(auto)]

mod admits;
mod ending;
mod fault;
mod known;
pub mod laws;
mod moved;
mod open;
mod role;
mod stack;

pub use admits::is_bump;
pub use ending::{Last, ends_line, last_of};
pub use fault::ParseFault;
pub use known::{copied, member_reach, of_bumped, of_name, of_step_to, plain};
pub use moved::{Moved, Rest};
pub use open::{Frame, Have, Now, Reach, Stands};
pub use role::{Role, role_of};
pub use stack::Stack;
