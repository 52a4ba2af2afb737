//! An object as written, planned whole: its objects with their cells, and the names of its instances of components. Exactly what
//! `plan_instance` of `instance_plans`' definitions says.
#![tactic(auto)]

mod planning;

pub use planning::{Instance, Order, plan_object};
