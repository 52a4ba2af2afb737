//! The objects of a document and their members as rows, made from its tree in the order of writing. A row names its node in
//! the tree and the rows around it by number, so nothing is copied, and it takes time by the number of nodes. It promises
//! that the rows are those of `specs/Entries.antt`, neither more nor less.
#![tactic(auto)]

mod kind;
mod laws;
mod rows;
mod walk;

pub use laws::{
    members_have_whole_paths, objects_have_their_members, objects_have_their_types_and_roles,
};
pub use rows::{DocumentRows, MemberRow, ObjectRow};
pub use walk::document_rows;
