//! The load faults UnknownProperty and ReadOnly of a document, over the tables of its program and what each member is given for.
//! It promises that these are the faults of the definitions.
#![tactic(auto)]

mod given;
mod places;
mod read_only;
mod unknown;

pub use given::GivenFor;
pub use read_only::tell_read_only;
pub use unknown::tell_unknown;
