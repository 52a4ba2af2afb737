//! The machine that reads documents and script files a token at a time, over the one of statements: what is open while they
//! are read (`Open`), what each token does (`DocumentMachine`), and what reading the tokens of a file has to answer
//! (`DocumentAnswer`). The laws that the machine gives exactly that answer, by the grammar of `qml_syntax`, and that its
//! states as code keeps them (`DocumentTape`, `DocumentMoves`, `KeptDocument`) do as it does, are the contracts of the calls
//! in `laws`. Beside them stand the types of these states.
#![tactic(auto)]

pub mod laws;
mod stack;
mod state;

pub use stack::Frames;
pub use state::{
    Count, FirstWord, Frame, FunctionNow, ImportNow, Imported, KindNow, MemberNow, Now, ObjectNow,
    ScriptNow, Whose,
};
