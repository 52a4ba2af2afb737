//! What stands between an evaluator and those who evaluate by it. An evaluation is a list of questions, each with what it
//! goes on to by the answer (`specs/Ask.antt`); this crate says what questions there are, what their answers come to for one
//! reading of the cells (`specs/Evaluating.antt`), and what is heard where some cells aren't ready yet
//! (`specs/Hearing.antt`). It holds the two traits: `View`, by which an evaluator reads cells and finds names, and `Rules`,
//! by which a tree of objects evaluates the texts of its bindings. Its laws, public functions with empty bodies, say that an
//! evaluation depends only on the cells that it read.
#![tactic(auto)]

mod came;
mod effect;
mod laws;
mod view;

pub use came::{Came, Ended, Evaluated, Seen};
pub use effect::{Args, Effect};
pub use laws::{depends_only_on_what_it_read, loops_by_the_last_cell_read, ready_cells_are_enough};
pub use view::{Rules, View};
