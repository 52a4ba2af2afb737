//! The bodies of a document in one call: those that are written, by their numbers, and behind them the functions of `Qt.binding`s. It
//! promises that they are those of the definition of a unit, and so are the numbers of the members' bodies.
#![tactic(auto)]

mod making;

pub use making::{DocumentBodies, document_bodies};
