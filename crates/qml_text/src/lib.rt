//! Texts as QML and ECMA-262 see them: lists of UTF-16 units, lone surrogates included (ECMA-262, 6.1.4 The String
//! Type). Each call promises its answer exactly, as a fact about lists of numbers: what UTF-8 a text is read from and
//! written as (`specs/Utf.antt`, over std's definitions of UTF-8 and UTF-16), where a part stands in it, how it is cut
//! at a separator and how parts are joined (`specs/Parts.antt`). Want of memory is the only free answer.
#![tactic(auto)]

mod building;
mod fault;
mod laws;
mod parts;
mod store;
#[cfg(test)]
mod tests;
mod text;
mod utf;

pub use building::TextBuilder;
pub use fault::{NoMemory, TextFault};
pub use laws::{joins_what_it_cuts, one_way_to_cut};
pub use text::Text;
