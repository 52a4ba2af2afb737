//! Where the `Qt.binding`s in code stand. It promises that they are those of the definition of a unit's bodies, in its
//! order: each before those in its function.
#![tactic(auto)]

mod walking;

pub use walking::binding_places;
