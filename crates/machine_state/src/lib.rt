//! The machine as the code keeps it. Contracts of the crates above say of it what `machine_model`'s definitions say of the
//! machine that it stands for (`specs/Keeping.antt`).
#![tactic(auto)]

mod state;

pub use state::State;
