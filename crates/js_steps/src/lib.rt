//! The moves of evaluation at expressions: what each node that is begun, each frame that awaits a value and each step becomes.
//! Each function moves the machine as a relation of `js_frames` says, or answers want of memory.
#![tactic(auto)]

mod beginning;
mod fields;
mod finishing;
mod resuming;
mod stepping;

pub use beginning::{begun, is_name, signs, steps_by};
pub use finishing::{arguments, hidden_read};
pub use resuming::{choose_on, link_on, operand, operated, resumed, right_on};
pub use stepping::stepped;
