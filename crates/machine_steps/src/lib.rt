//! The machine's single steps: those that start nothing. So far the settling of the machine (`settle`), and what the trace tells
//! of a live tree: cells by their names, changes, reports and what `print` shows. Each is exactly what `machine_model` defines.
#![tactic(auto)]

mod fault;
mod naming;
mod settling;
mod telling;
mod writing;

pub use fault::Fault;
pub use naming::{named_cell, shown_cell};
pub use settling::settle;
pub use telling::{change_entry, print_entry, report_entry, tell_settled};
pub use writing::{held_copy, put};
