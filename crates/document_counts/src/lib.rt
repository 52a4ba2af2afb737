//! Whether a document has too many objects or bindings, by the rows of its tree. It promises that the answer is that of
//! `specs/Counts.antt`, which counts objects as written, and values that are no literals under names that are no handlers'.
//! It takes no memory.
#![tactic(auto)]

mod bindings;
mod counts;
mod values;

pub use counts::has_too_many;
