//! What objects do when they start and when one of their properties changes: a Connections reports the handlers for which its
//! target has no signal, unless it ignores these. Exactly `react` of `machine_model`'s definitions (`specs/Reactions.antt`).
#![tactic(auto)]

mod reacting;
mod signals;
mod unheard;

pub use reacting::react;
