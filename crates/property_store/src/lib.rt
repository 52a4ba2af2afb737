//! The cells of all objects: what each contains and what it holds. They lie in one list in the order of object numbers and
//! places, and each is found without a search and without hashing. Each call is promised exactly as what it does to that list
//! (`specs/Stores.antt`): a written cell is another in its place, an object's cells are appended, and `scrub` leaves the cells
//! that `tree_model`'s `scrubbed_cells` says. Only `add_cells` takes memory, so no removal is ever refused.
#![tactic(auto)]

mod adding;
mod changing;
mod places;
mod scrubbing;
mod store;

pub use places::find;
pub use store::{Cells, Store};
