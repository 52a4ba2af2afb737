//! Bodies that act on a tree of objects, over any code of units: `Bodies` of `machine_bodies` by `js_exec`. A body sees what the cells of
//! the tree hold, what names find there, and which objects are condemned.
#![tactic(auto)]

mod bodies;
mod sight;

pub use bodies::{LiveBodies, Waiting};
pub use sight::TreeSight;
