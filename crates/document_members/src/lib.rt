//! The members of a document as its tree has them: of each its names, its places, and where its value stands. A row of
//! `document_rows` names the node of a member; this crate reads that node. It promises that each member read is the one of
//! `program_names/specs/Written.antt` (`specs/Members.antt` says how it stands for it).
#![tactic(auto)]

mod form;
mod member;
mod parts;
mod reading;
#[cfg(test)]
mod tests;

pub use member::{Member, NamePath};
pub use reading::{read_member, read_members};
