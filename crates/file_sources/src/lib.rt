//! Files as sources of a program: the tree of a document or of a script file, or why there is none. A file is read once, its
//! size is tested before its tokens, and its tokens before its grammar. It promises that the content of a file shows what
//! `specs/Sources.antt` says that its bytes are, which rests on the definitions of tokens, trees and depth. ReadFailed comes
//! only where the files say so; want of memory is free.
#![tactic(auto)]

mod content;
mod laws;
mod reading;
#[cfg(test)]
mod tests;

pub use content::{Content, content_of};
pub use laws::one_source;
pub use reading::read_content;
