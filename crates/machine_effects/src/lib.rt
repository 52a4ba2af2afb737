//! What a body does outside: assignments, `Qt.binding`, signals, `console.log`. Each effect is done up to what is left to deliver.
//! Exactly `act` of `machine_model`'s definitions (`specs/Bodies.antt`).
#![tactic(auto)]

mod access;
mod acting;
mod logging;
mod writing;

pub use acting::{Answer, Effected, begin_effect};
