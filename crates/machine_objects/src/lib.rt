//! Objects that the machine makes: an object of a document is planned, added with all that is made with it, told, and the tree
//! settles. What is delivered then, the signals of changes, the starts and the completions, is left to the caller. Exactly what
//! `make_alone` of `machine_model`'s definitions does.
#![tactic(auto)]

mod adding;
mod making;

pub use making::{Made, make_alone};
