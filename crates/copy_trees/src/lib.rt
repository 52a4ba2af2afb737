//! Live trees whose bindings copy cells, for tests and for programs that measure: what cells contain, as tables (`given`), and
//! the calls of the tree without clauses (`calls`), and long runs of them (`trees`), so that the proof of what stands above carries none of what the tree
//! promises. It promises nothing of its own and is no part of the product.
#![tactic(auto)]

pub mod calls;
pub mod given;
pub mod trees;
