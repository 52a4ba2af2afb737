//! The tokens of bytes, exact in both directions. `lex` gives the one token list that reads the bytes, or the first
//! place where none does, with its cause; it stands alone, so a linter or a formatter can use it. What is promised is
//! said by `specs/Spells.antt`, the spellings of each class of token, by `specs/Gaps.antt`, the blanks and comments
//! between them, and by `specs/Lex.antt`, which makes a list of tokens of them: each token is the longest front that
//! spells one, and has its place and whether a line begins before it. The laws in `laws` say that at most one list
//! reads given bytes, that no list reads bytes that are refused, and that they are refused at one place with one cause.
//! Want of memory is the only free answer.
#![tactic(auto)]

mod characters;
mod fault;
mod found;
mod front;
mod laws;
mod lexer;
mod lines;
mod marks;
mod names;
mod numbers;
#[cfg(test)]
mod tests;
mod texts;

pub use characters::{
    Blanks, Class, begins_with, behind_run, is_blank, split_first_char, split_run,
};
pub use fault::{LexCause, LexFault};
pub use laws::{
    longest_token_is_taken, none_reads_what_is_refused, one_list_reads, refused_in_one_way,
};
pub use lexer::lex;
pub use names::is_name;
