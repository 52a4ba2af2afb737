//! Bodies that act on a tree of objects, as who runs the machine needs them: a body is begun, goes on by what it sees of the tree
//! up to its next effect, and waits for what that comes to. The trait `Bodies` says so in the words of `js_meaning`'s definitions
//! (`specs/Resuming.antt`).
#![tactic(auto)]

mod bodies;

pub use bodies::{Action, Bodies};
