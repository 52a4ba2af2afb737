//! Bodies that act. They are evaluated by the frames of `js_frames` as bindings are, up to what goes by effects: there a body hands
//! its effect out and waits, with its frames kept, until it is told what that came to. What it does next is `next_action` of
//! `js_meaning` over what it asks, exactly.
#![tactic(auto)]

mod beginning;
mod code;
mod deeds;
mod effects;
mod given;
mod moving;
mod sight;
mod spots;

pub use beginning::{begin, resume};
pub use code::ActingCode;
pub use js_acting::{Acted, Behind, Stopped};
pub use sight::Watch;
