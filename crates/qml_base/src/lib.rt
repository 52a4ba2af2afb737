//! What every crate of the engine names: the numbers of objects, cells, loaded files and expressions, places in a text,
//! what a name finds, why an evaluation throws, the limits, the answer that there was no memory, and the counter of steps.
//! It promises that a step that is taken is counted once and that nothing else changes the count. It cites no definitions
//! of its own.
#![tactic(auto)]

mod cause;
mod limits;
mod load_cause;
mod memory;
mod names;
mod numbers;
mod steps;

pub use cause::Cause;
pub use limits::{
    CALL_LIMIT, DEPTH_LIMIT, FILE_LIMIT, NODE_LIMIT, NUMBER_LIMIT, OBJECT_LIMIT, WEIGHT_LIMIT,
};
pub use load_cause::LoadCause;
pub use memory::NoMemory;
pub use names::{Found, Home};
pub use numbers::{CellNo, ExprNo, ObjNo, Place, UnitNo};
pub use steps::Steps;
