//! The live tree as definitions, in `specs/`, with the types that they share with code: objects with owners and origins,
//! cells with contents and held values (`cells`), what the rules of bindings ask (`Rules`), what a binding comes to evaluated
//! afresh and how a tree settles (`Systems`, `Settling`, `Converting`), which cells change and what is reported (`Telling`),
//! which objects are doomed (`Doomed`), and what condemning and removing leave (`Removing`). It holds no code that runs; its
//! laws are public functions with empty bodies. They say that depth past the number of bound cells changes nothing, that what
//! is fresh is the least solution of the bindings, that a settled tree is fresh and settles to itself, and that one walk in
//! the order of numbers marks the least set of doomed objects.
#![tactic(auto)]

mod cells;
mod laws;
mod lookup;

pub use cells::{Binding, Cell, Content, NewCell, Object, Outcome, Report, Rule};
pub use laws::{
    changes_are_told_in_one_way, doomed_is_the_least_set, fresh_is_the_least_solution,
    more_depth_is_the_same, one_walk_marks_the_doomed, settled_tree_is_fresh,
    settling_again_changes_nothing,
};
pub use lookup::Lookup;
