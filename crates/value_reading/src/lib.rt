//! What the node of a value tells: the place of its first token, and the kind of the literal that it is. It promises that these are the
//! definitions' of the value at that place, and nothing recurses, however deep the value is.
#![tactic(auto)]

mod descending;
mod literals;

pub use descending::first_token;
pub use literals::literal_kind;
