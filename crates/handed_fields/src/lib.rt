//! Fields that are handed to an object that is made: why one is refused, and the cells to which they go. Exactly what
//! `plan_instance` of `instance_plans`' definitions says of fields.
#![tactic(auto)]

mod cells;
mod faults;

pub use cells::handed_cells;
pub use faults::{FieldFault, field_fault};
