//! Evaluation of the texts of bindings. What a text comes to is the definition of `js_meaning`; `eval` answers it over any
//! view of cells and names, with the cells that it read, in order, and one step. The code is a machine whose frames mean
//! what is still to be done (`js_frames`), so that nothing recurses; its moves at expressions are those of `js_steps`, those
//! at statements of `js_statements`, and here are those at assignments and calls.
#![tactic(auto)]

mod assigning;
mod binding;
mod calling;
mod directly;
mod evaluating;
mod running;
mod starting;

pub use calling::entered;
pub use evaluating::{UnitRules, eval};
pub use evaluation::{Rules, View};
pub use js_frames::{Code, Machine};
pub use js_methods::{math, method, text_from};
pub use js_operators::{operate, operate_prefix, operate_rounded};
pub use running::{done, given, moved_within, repeated, stopped};
