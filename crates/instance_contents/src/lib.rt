//! What the cells of the objects of a planned instance contain: values and bindings as they are written, those of outer
//! documents before those of the documents of types, and what a cell has where nothing is given for it. Each is exactly what the
//! definitions of `instance_plans` say, as the tree takes it (`specs/Treed.antt` of `instance_plans`).
#![tactic(auto)]

mod cells;
mod contents;
mod given;
mod ids;
mod lookup;
mod objects;
mod tables;
mod types;

pub use given::{Given, gather, has_row};
pub use objects::{MadeObject, made_object, made_objects};
pub use tables::{Tables, builtin_at, number_at, planned_at, tables_of, value_at};
pub use types::{builtin_of, builtin_planned, documents_from};
