//! The objects of a tree, by number, with their owners and origins, and which of them are condemned. Condemning an object
//! marks exactly the least set that holds it, all that a member owns and all that was made from a member
//! (`tree_model`'s `Doomed`), without recursion and without memory, and goes to no object that isn't marked.
#![tactic(auto)]

mod links;
mod listing;
mod places;
mod removing;
mod spreading;
mod tree;

pub use tree::{AddFault, Tree};
