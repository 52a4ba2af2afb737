//! Several moves of evaluation in one, where operands show a number or a truth at once: they need no frame then. What is heard
//! in all stays the same, as by the moves one by one (`js_frames`), and each call comes nearer to the next node
//! (`js_progress`).
#![tactic(auto)]

mod beginning;
mod pairs;
mod shown;
mod whole;

pub use beginning::begun_directly;
pub use shown::Shown;
pub use whole::{WholeValue, whole_ended, whole_value};
