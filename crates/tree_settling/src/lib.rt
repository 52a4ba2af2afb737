//! Settling the cells of a tree by sweeps over one table of what they come to. `settle` promises that what the cells hold
//! and show afterwards is what `tree_model`'s `settled` says: each active binding evaluated afresh, whatever the order of
//! the sweeps; that the cells and reports it tells are those of `Changes` and `Reports`; and that the lowest cell past the
//! limit of numbers is named where there is one (`specs/Settles.antt`).
#![tactic(auto)]

mod built_in;
mod evaluate;
mod settling;
mod sweeping;
mod sweeps;
mod taking;

pub use built_in::value_of;
pub use evaluate::convert_value;
pub use settling::{Changed, SettleFault, settle};
