//! The types that a document uses, in the order of writing, from the rows of its tree: the types of its objects and the
//! kinds of its properties. It promises that they are those of `program_names/specs/Types.antt`, neither more nor less. What
//! a name finds isn't asked here. Want of memory is the one other answer.
#![tactic(auto)]

mod names;
mod uses;

pub use names::{Name, copied, name_at};
pub use uses::{TypeUse, type_uses};
