//! What cells, names, locals and members give in an evaluation, and where a value goes. Each function moves the machine as a
//! relation of `js_frames` says, or answers want of memory.
#![tactic(auto)]

mod looking;
mod pushing;

pub use looking::{
    arrive, arrive_ended, element, found_member, found_value, local_value, member, name_value,
    next_of, read_cell, threw,
};
pub use pushing::pushed;
