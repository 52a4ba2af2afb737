//! The live tree: a list of cells, each with a number or a binding over other cells, which settle together. `settle`
//! evaluates every binding afresh and keeps nothing between two calls. It promises that the values held afterwards are those
//! of `settled`, that the cells it tells are those of `changed`, and that it takes one step for each evaluation of a binding
//! (`Settles`, `Evaluates`). The definitions of evaluation and settling are in `qml_model`'s `Settling`, with their laws.
#![tactic(auto)]

mod evaluate;
mod sweeps;
mod tree;
mod values;

pub use qml_model::{Content, Factor, Outcome, Product};
pub use tree::{Changed, LiveTree, SettleFault};

#[cfg(test)]
mod tests;
