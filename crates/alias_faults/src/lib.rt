//! Load faults of aliases and of targets. It promises that what is told are the faults of the definition in
//! `load_faults/specs/Aliases.antt`, in the order of writing.
#![tactic(auto)]

mod bad_aliases;
mod laws;
mod targets;

pub use bad_aliases::tell_bad_aliases;
pub use laws::{bad_aliases_as_written, bad_targets_as_rows};
pub use targets::{TargetRow, target_seen, tell_bad_targets};
