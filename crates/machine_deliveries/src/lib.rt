//! Deliveries, one in another: handlers run, what they write settles, the signals of its changes are emitted, and so on, up to 24
//! deep. Exactly `deliver`, `emit` and `exec` of `machine_model`'s definitions (`specs/Levels.antt`, `Emission.antt`,
//! `Bodies.antt`), over any engine that evaluates bindings and runs bodies as these say.
#![tactic(auto)]

mod beginning;
mod delivering;
mod engine;

pub use beginning::{end, report};
pub use delivering::{act, deliver, deliver_unless, emit, emit_changes, exec};
pub use engine::Engine;
