//! What documents, script files and bodies are written in: tokens, each with its kind, its place and whether a line end
//! stands before it, and the parts of expressions. A token's spellings, and which tokens given bytes have, are the matter
//! of the crate above this one that reads them. The definitions of `specs/` say what trees of expressions and statements
//! are, and of documents and script files; which tokens a tree reads (`Reads`, `ReadsDocument`), how it is written out
//! (`Flat`) and how deep its nodes stand (`Depth`);
//! the laws over them are the contracts of the calls in `laws`. The types stand here, so that definitions and code speak
//! of the same values; each call on them says exactly what it answers. `Tree` keeps a tree as nodes in a table
//! (`Listed`) and opens one level of it at a time (`Opened`).
#![tactic(auto)]

mod contextual;
mod deep;
pub mod laws;
mod links;
mod literal;
mod mark;
mod node;
mod operators;
mod same;
mod spans;
mod taking;
mod token;
mod tree;
mod word;
mod writing;

pub use contextual::{Adjective, Contextual, Version};
pub use deep::Standing;
pub use literal::{Declaration, Literal};
pub use mark::Mark;
pub use node::{Close, Node, Nodes};
pub use operators::{Assignment, Operator, Postfix, Prefix};
pub use token::{Token, TokenKind};
pub use tree::Tree;
pub use word::Word;
pub use writing::flat;
