//! What is made of an object as written: the objects in document order with their cells and handlers, the names of each
//! component's instance, what each PropertyChanges changes, and the cells of handed fields. It holds definitions, and the types
//! of planned objects that code shares with them.
#![tactic(auto)]

mod planned;

pub use planned::{Planned, PlannedInstance};
