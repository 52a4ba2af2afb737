//! Events of a run: the opening, lines, time that goes on, and what `print` shows. Exactly `event`, `do_event` and `stop_entry` of
//! `machine_model`'s definitions (`specs/Lines.antt`).
#![tactic(auto)]

mod beginning;
mod event;
mod holding;
mod lines;
mod printing;
mod stopping;

pub use event::{Event, run_event};
pub use stopping::{copied_stop, tell_stop};
