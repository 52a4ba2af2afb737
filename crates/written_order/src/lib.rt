//! Load faults in the order of writing. The definitions go through a document object after object; a search goes through its
//! rows, in which the members of one object stand between those of others. It holds the laws that both tell the same first
//! fault.
#![tactic(auto)]

mod laws;

pub use laws::{
    declared_names_in_the_order_of_writing, members_in_the_order_of_writing,
    roles_in_the_order_of_writing, second_ids_in_the_order_of_writing,
};
