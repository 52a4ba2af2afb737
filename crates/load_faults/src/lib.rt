//! Which programs are loaded, and which fault a refused one is told by: for each cause the faults of that cause in a
//! document, with their places; the first of them by place and by the order of the causes; the passes over the files of a
//! program; and the stage of the engine that its forms need. It holds definitions and laws.
#![tactic(auto)]

mod laws;

pub use laws::{first_is_least, in_any_order};
