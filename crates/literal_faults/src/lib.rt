//! The load fault NotLiteral of a document, over what each member is given for. It promises that these are the faults of the
//! definition.
#![tactic(auto)]

mod literals;

pub use literals::tell_not_literal;
