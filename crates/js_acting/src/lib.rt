//! What a body does that acts: by the frames of `js_frames` it goes on up to what goes by effects, hands its effect out, and waits with
//! its frames kept until it is told what that came to. What it does next (`next_action` of `js_meaning`) is the same before and
//! behind each move, and an effect that is handed out is the next one (`specs/`, `proofs/`). The code that moves so stands in
//! `js_exec`.
#![tactic(auto)]

mod laws;
mod target;
mod waiting;

pub use laws::what_is_told_is_done_next;
pub use target::Target;
pub use waiting::{Acted, Behind, Stopped};
