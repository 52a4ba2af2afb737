//! What names in the code of a document find, as far as loading tells: the ids of a component, the scope object, the component's root, and the
//! components around it outwards in the same way (Qt 5.15, "Scope and Naming Resolution"). All by the tables of a program; scripts and globals,
//! which come behind these, are not looked for here.
#![tactic(auto)]

mod found;
mod laws;
mod outwards;

pub use found::Found;
pub use laws::{
    functions_stand_under_their_names, members_are_those_of_the_program,
    names_are_those_of_the_program,
};
pub use outwards::{member_seen, name_outwards};
